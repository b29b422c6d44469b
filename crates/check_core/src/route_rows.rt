// Writes a row for each route.
ghost use Rattle.std.specs.Prelude.{◌≡◌, ◌<◌, IfOk, length};
ghost use Rattle.cfg_types.specs.Lawful.{IsLawful};
ghost use Rattle.cfg_types.specs.Order.{routes};
ghost use Rattle.goal_build.specs.Kept.{AreKept};
ghost use Rattle.cert_check.specs.LawfulRows.{AreBudgets};
ghost use Rattle.check_core.specs.Rows.{IsSearchedRow, WroteRows};
ghost use Rattle.check_core.specs.Found.{found_body};

use crate::calls::Budgets;
use crate::counts::Counts;
use cert_rows::write_row;
use cfg_types::Config;
use goal_build::KeptGoals;
use goal_form::{Row, RowBody};
use outside::{Sink, WriteFail, write_whole};
use split_seek::{Finding, SharedTables, analyse_with};
use std::alloc::Global;
use text_base::OutOfMemory;

/// What a row tells of a search with these budgets.
fn body_of(finding: Finding, budgets: Budgets) -> RowBody
    ensures { result ≡ found_body budgets finding }
{
    match finding {
        Finding::Reached(request) => RowBody::Reached(request),
        Finding::Refuted(nodes) => RowBody::Refuted(nodes),
        Finding::Undecided(nodes) => RowBody::Undecided {
            nodes,
            splits: budgets.splits,
            states: budgets.states,
        },
    }
}

/// The row of the route of this number, which is below the count.
fn row_of(
    alloc: Global,
    config: &Config,
    goals: &mut KeptGoals,
    shared: &mut SharedTables,
    route: u32,
    budgets: Budgets,
) -> Result<Row, OutOfMemory>
    requires lawful { IsLawful config.now }
    requires within { route < length (routes config.now) }
    requires bounds { AreBudgets budgets.splits budgets.states }
    requires kept { AreKept config.now goals.old }
    ensures kept { AreKept config.now goals.new }
    ensures row { IfOk result (IsSearchedRow config.now budgets route) }
{
    let goal = goals.goal(alloc, config, route)?;
    let finding = analyse_with(alloc, &goal, shared, budgets.splits, budgets.states)?;
    Ok(Row {
        route: config.route_at(route).place.copy(alloc)?,
        body: body_of(finding, budgets),
    })
}

/// Writes the line of each route's row, in the order of routes, and counts the rows by their verdicts.
pub fn write_rows<K: Sink>(
    alloc: Global,
    config: &Config,
    budgets: Budgets,
    out: &mut K,
) -> Result<Counts, WriteFail>
    requires lawful { IsLawful config.now }
    requires bounds { AreBudgets budgets.splits budgets.states }
    ensures { WroteRows config.now budgets (K.state out.old) (K.state out.new) result }
{
    let mut goals = KeptGoals::new();
    let mut counts = Counts::none();
    let mut shared = SharedTables::new(alloc)?;
    for route in 0..config.route_count() {
        let row = row_of(alloc, config, &mut goals, &mut shared, route, budgets)?;
        let line = write_row(alloc, &row)?;
        write_whole(out, &line)?;
        counts = counts.with(&row.body);
    }
    Ok(counts)
}
