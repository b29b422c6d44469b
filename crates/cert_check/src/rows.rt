// Whether rows of a report are lawful.
ghost use Rattle.std.specs.Prelude.{◌≡◌, ◌<◌, ◌↔◌, true, List, length, IsTrue, IfOk};
ghost use Rattle.text_base.specs.Asked.{Asked};
ghost use Rattle.text_base.specs.Requests.{is_valid};
ghost use Rattle.goal_form.specs.declared.goal.Node.{Node as AnyNode};
ghost use Rattle.goal_form.specs.declared.goal.RowBody.TheVariants.{Refuted};
ghost use Rattle.goal_form.specs.Goals.{is_true_at};
ghost use Rattle.cfg_types.specs.Choices.{IsSent};
ghost use Rattle.cfg_types.specs.Lawful.{IsLawful};
ghost use Rattle.cfg_types.specs.Order.{routes};
ghost use Rattle.goal_build.specs.Goals.{IsGoal};
ghost use Rattle.cert_check.specs.LawfulRows.{AreBudgets, IsLawfulRow};
ghost use Rattle.cert_check.specs.GoalRows.{IsBodyOf};

use crate::nodes::{are_unfinished, nodes_refute};
use crate::truth::is_true;
use cfg_types::Config;
use goal_build::goal;
use goal_form::{Goal, Row, RowBody};
use goal_tables::{SharedTables, Tables};
use req_model::Request;
use std::alloc::Global;
use text_base::OutOfMemory;

/// The bounds of the budgets of a search.
fn are_budgets(splits: u32, states: u32) -> bool
    ensures { IsTrue result ↔ AreBudgets splits states }
{
    1 <= splits && splits <= 65_536 && 16 <= states && states <= 4_096
}

/// Whether the goal is true at the request, which is valid by its type.
fn check_request(
    alloc: Global,
    goal: &Goal,
    tables: &Tables<'_>,
    request: &Request,
) -> Result<bool, OutOfMemory>
    requires { tables.now.atoms ≡ goal.now.atoms }
    ensures { IfOk result (λ yes. IsTrue yes ↔ ((is_valid request.now ≡ true) × (is_true_at request.now goal.now ≡ true))) }
{
    let _ = request.parts();
    is_true(alloc, goal, tables, request)
}

/// Whether the body shows what it says of the goal.
fn check_body(
    alloc: Global,
    goal: &Goal,
    tables: &Tables<'_>,
    body: &RowBody,
) -> Result<bool, OutOfMemory>
    requires { tables.now.atoms ≡ goal.now.atoms }
    ensures { IfOk result (λ yes. IsTrue yes ↔ IsBodyOf goal.now body.now) }
{
    match body {
        RowBody::Reached(request) => check_request(alloc, goal, tables, request),
        RowBody::Refuted(nodes) => nodes_refute(alloc, goal, tables, nodes.as_slice()),
        RowBody::Undecided {
            nodes,
            splits,
            states,
        } => {
            if !are_budgets(*splits, *states) {
                return Ok(false);
            }
            are_unfinished(alloc, goal, tables, nodes.as_slice(), *splits, *states)
        }
    }
}

/// Whether the row is lawful for the route of this number, which is below the count, where the route's goal is made already.
/// The tables that the goal lacks are added to the shared ones, so that goals of one host mostly find theirs there.
pub fn check_goal_row(
    alloc: Global,
    config: &Config,
    route: u32,
    goal: &Goal,
    shared: &mut SharedTables,
    row: &Row,
) -> Result<bool, OutOfMemory>
    requires lawful { IsLawful config.now }
    requires within { route < length (routes config.now) }
    requires goal { IsGoal config.now route goal.now }
    ensures exact { IfOk result (λ yes. IsTrue yes ↔ IsLawfulRow config.now route row.now) }
    ensures sound { (nodes : List AnyNode) → row.now.body ≡ Refuted nodes → IfOk result (λ yes. IsTrue yes → (q : Asked) → is_valid q ≡ true → IsSent config.now q route → ⊥) }
{
    if !row.route.same(&config.route_at(route).place) {
        return Ok(false);
    }
    let places = shared.places(alloc, goal)?;
    let tables = Tables::of(goal, shared, places);
    check_body(alloc, goal, &tables, &row.body)
}

/// Whether the row is lawful for the route of this number, which is below the count. Where it is and tells that the route is
/// refuted, no valid request is sent to the route.
pub fn check_row(alloc: Global, config: &Config, route: u32, row: &Row) -> Result<bool, OutOfMemory>
    requires lawful { IsLawful config.now }
    requires within { route < length (routes config.now) }
    ensures exact { IfOk result (λ yes. IsTrue yes ↔ IsLawfulRow config.now route row.now) }
    ensures sound { (nodes : List AnyNode) → row.now.body ≡ Refuted nodes → IfOk result (λ yes. IsTrue yes → (q : Asked) → is_valid q ≡ true → IsSent config.now q route → ⊥) }
{
    let made = goal(alloc, config, route)?;
    let mut shared = SharedTables::new(alloc)?;
    check_goal_row(alloc, config, route, &made, &mut shared, row)
}
