// What the check says of the nodes of unfinished trees by any budgets.
ghost use Rattle.std.specs.Prelude.{◌<◌, length};
ghost use Rattle.cfg_types.specs.Lawful.{IsLawful};
ghost use Rattle.cfg_types.specs.Order.{routes};

use crate::made::{config, nodes_of};
use cert_check::{check_nodes, check_unfinished, one_goal_law};
use cfg_types::Config;
use goal_build::goal;
use std::alloc::Global;
use std::test::Fail;
use text_base::OutOfMemory;

/// Whether the nodes are an unfinished tree of a route's goal by these budgets.
fn is_unfinished(
    alloc: Global,
    config: &Config,
    row: [u32; 3],
    line: &str,
) -> Result<bool, OutOfMemory>
    requires { IsLawful config.now }
{
    let [route, splits, cap] = row;
    if route >= config.route_count() {
        return Ok(false);
    }
    let goal = goal(alloc, config, route)?;
    let nodes = nodes_of(alloc, line)?;
    check_unfinished(alloc, &goal, nodes.as_slice(), splits, cap)
}

/// The route, the splits and the states that are allowed, and the nodes.
const UNFINISHED: [(bool, [u32; 3], &str); 14] = [
    (true, [1, 0, 1000], "o"),
    (false, [1, 1, 1000], "o"),
    (true, [1, 1, 1000], "s0 o o"),
    (false, [1, 2, 1000], "s0 o o"),
    (false, [1, 1, 1000], "s0 o b"),
    (false, [1, 2, 1000], "s0 s1 b e b"),
    (false, [1, 2, 1000], "s0 s1 b o o"),
    (false, [1, 1, 2], "s0 k b"),
    (true, [4, 1, 2], "s0 k b"),
    (true, [4, 2, 2], "s0 k b"),
    (false, [4, 0, 2], "s0 k b"),
    (false, [4, 1, 1], "s0 k b"),
    (false, [4, 1, 3], "s0 k b"),
    (false, [4, 1, 2], "s0 b k"),
];

#[test]
fn unfinished_trees_have_spent_their_budgets(rt: HostRuntime) -> Result<(), Fail> {
    let config = config(rt.alloc())?;
    for (want, row, line) in UNFINISHED {
        assert_eq!(rt;
            is_unfinished(rt.alloc(), &config, row, line)?,
            want,
            "{line}"
        );
    }
    one_goal_law();
    Ok(())
}

/// The goal of no configuration, which no request meets.
#[test]
fn a_goal_that_is_never_true_is_refuted_by_one_node(rt: HostRuntime) -> Result<(), Fail> {
    let goal = goal_form::Goal {
        atoms: goal_form::Atoms::new(rt.alloc()),
        formula: goal_form::Formula::No,
    };
    let nodes = nodes_of(rt.alloc(), "b")?;
    assert!(rt; check_nodes(rt.alloc(), &goal, nodes.as_slice())?);
    Ok(())
}
