// The goals of routes.
ghost use Rattle.std.specs.Prelude.{◌≡◌, ◌<◌, ◌≤◌, ◌↔◌, length, IfOk, IfSome, IfNone, IsTrue, Contains, Some, slice_get};
ghost use Rattle.cfg_types.specs.Choices.{IsSent, routes_before};
ghost use Rattle.cfg_types.specs.Lawful.{IsLawful};
ghost use Rattle.cfg_types.specs.Order.{routes};
ghost use Rattle.goal_build.specs.Goals.{IsGoal};
ghost use Rattle.goal_build.specs.HostGoals.{IsPlace};
ghost use Rattle.goal_build.specs.Parts.{taken};
ghost use Rattle.goal_form.specs.Goals.{IsWellFormed, is_true_at};
ghost use Rattle.text_base.specs.Asked.{Asked};
ghost use Rattle.text_base.specs.Requests.{is_valid};

use crate::HostGoals;
use cfg_types::Config;
use goal_form::Goal;
use std::alloc::Global;
use text_base::OutOfMemory;

/// The host of a route, and the number of the host's first route. The search begins at a host whose first route has the
/// number `first` and doesn't come after the route.
pub fn host_from(config: &Config, route: u32, host: u32, first: u32) -> (u32, u32)
    requires lawful { IsLawful config.now }
    requires within { route < length (routes config.now) }
    requires first { first ≡ routes_before config.now.hosts host }
    requires before { first ≤ route }
    ensures { IsPlace config.now route result.0 result.1 }
{
    let mut first = first;
    for at in host as usize..config.hosts.len() {
        let Some(count) = config.hosts.as_slice()[at].body.route_count() else {
            unreachable!()
        };
        if route - first < count {
            return (at as u32, first);
        }
        first += count;
    }
    unreachable!()
}

/// The place of the guard of a route.
pub fn guard_of(goals: &HostGoals, route: u32) -> usize
    requires { Contains (taken goals.now.guards) (Some route) }
    ensures within { result < length goals.now.guards }
    ensures route { slice_get (taken goals.now.guards) result ≡ Some (Some route) }
{
    for at in 0..goals.count() {
        if goals.route(at) == Some(route) {
            return at;
        }
    }
    unreachable!()
}

/// The goal of a route: a formula that is true at a request exactly where the request is sent to the route. The goals of all
/// routes of a host are made faster by `HostGoals`, those of all routes in order by `KeptGoals`.
pub fn goal(alloc: Global, config: &Config, route: u32) -> Result<Goal, OutOfMemory>
    requires lawful { IsLawful config.now }
    requires within { route < length (routes config.now) }
    ensures goal { IfOk result (IsGoal config.now route) }
    ensures formed { IfOk result IsWellFormed }
    ensures sent { IfOk result (λ g. (q : Asked) → IsTrue (is_valid q) → IsTrue (is_true_at q g) ↔ IsSent config.now q route) }
{
    let (host, first) = host_from(config, route, 0, 0);
    let goals = HostGoals::build(alloc, config, host, first)?;
    let at = guard_of(&goals, route);
    goals.goal(alloc, at)
}
