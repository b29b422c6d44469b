// Nodes read as a tree. The branches that wait are the false sides of the true steps of one path.

ghost use Rattle.std.specs.Prelude.{◌≡◌, ◌↔◌, ◌||◌, ◌∷◌, [], false, IsTrue, IfOk};
ghost use Rattle.goal_form.specs.Unfinished.{is_rest as rests};
ghost use Rattle.cert_check.specs.Reading.{ReadsOn};

use crate::leaves::{may_leave, may_split};
use goal_form::{Goal, Node, Trail};
use goal_tables::Tables;
use std::alloc::Global;
use text_base::OutOfMemory;

/// Whether a part that wasn't looked at came so far, after one more node.
fn seen_after(seen: bool, node: &Node) -> bool
    ensures { result ≡ seen || rests node.now }
{
    match node {
        Node::Rest => true,
        _ => seen,
    }
}

/// Whether the nodes are exactly one tree in which each node may stand where it stands.
pub fn reads(
    alloc: Global,
    goal: &Goal,
    tables: &Tables<'_>,
    nodes: &[Node],
    cap: u32,
) -> Result<bool, OutOfMemory>
    requires { tables.now.atoms ≡ goal.now.atoms }
    ensures { IfOk result (λ yes. IsTrue yes ↔ ReadsOn goal.now cap false ([] ∷ []) nodes.now) }
{
    let mut trail = Trail::new(alloc, goal.atoms.count())?;
    let mut more = true;
    let mut seen = false;
    for node in nodes {
        if !more {
            return Ok(false);
        }
        if let Node::Split { atom } = node {
            if !may_split(goal, &trail, *atom) {
                return Ok(false);
            }
            trail.decide(*atom, true)?;
        } else {
            if !may_leave(alloc, goal, tables, &trail, node, cap, seen)? {
                return Ok(false);
            }
            seen = seen_after(seen, node);
            more = trail.turn()?;
        }
    }
    Ok(!more)
}
