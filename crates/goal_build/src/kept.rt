// The goals of routes one after another.
ghost use Rattle.std.specs.Prelude.{◌≡◌, ◌<◌, ◌≤◌, ◌↔◌, IsTrue, IfOk, IfSome, length};
ghost use Rattle.text_base.specs.Asked.{Asked};
ghost use Rattle.text_base.specs.Requests.{is_valid};
ghost use Rattle.goal_form.specs.Goals.{IsWellFormed, is_true_at};
ghost use Rattle.cfg_types.specs.Choices.{IsSent, routes_before};
ghost use Rattle.cfg_types.specs.Lawful.{IsLawful};
ghost use Rattle.cfg_types.specs.Order.{routes};
ghost use Rattle.cfg_types.specs.declared.configs.Config.{Config as ConfigModel};
ghost use Rattle.goal_build.specs.Goals.{IsGoal};
ghost use Rattle.goal_build.specs.Kept.{IsKept, AreKept};

use crate::HostGoals;
use crate::goals::{guard_of, host_from};
use cfg_types::Config;
use goal_form::Goal;
use std::alloc::Global;
use text_base::OutOfMemory;

/// A host by its number, the number of its first route, and what the goals of its routes are made of.
#[derive(Drop)]
pub struct KeptHost {
    pub(crate) host: u32,
    pub(crate) first: u32,
    pub(crate) goals: HostGoals,
}

/// The goals of a configuration's routes, asked for one after another. What the routes of a host share is kept until a route
/// of another host is asked for.
#[derive(Drop)]
pub struct KeptGoals {
    pub(crate) kept: Option<KeptHost>,
}

/// The host that is kept, if it is this one, or else the parts of this one.
fn kept_host(
    alloc: Global,
    config: &Config,
    kept: Option<KeptHost>,
    host: u32,
    first: u32,
) -> Result<KeptHost, OutOfMemory>
    requires lawful { IsLawful config.now }
    requires within { host < length config.now.hosts }
    requires first { first ≡ routes_before config.now.hosts host }
    requires kept { IfSome kept (IsKept config.now) }
    ensures kept { IfOk result (IsKept config.now) }
    ensures host { IfOk result (λ k. k.host ≡ host) }
{
    if let Some(kept) = kept {
        if kept.host == host {
            return Ok(kept);
        }
    }
    let goals = HostGoals::build(alloc, config, host, first)?;
    Ok(KeptHost { host, first, goals })
}

impl KeptGoals {
    /// Nothing is kept yet.
    pub fn new() -> KeptGoals
        ensures { (config : ConfigModel) → AreKept config result }
    {
        KeptGoals { kept: None }
    }

    /// A host whose first route doesn't come after the route, and the number of that first route.
    fn start(&self, config: &Config, route: u32) -> (u32, u32)
        requires { AreKept config.now self.now }
        ensures first { result.1 ≡ routes_before config.now.hosts result.0 }
        ensures before { result.1 ≤ route }
    {
        match &self.kept {
            Some(kept) => {
                if kept.first <= route {
                    (kept.host, kept.first)
                } else {
                    (0, 0)
                }
            }
            None => (0, 0),
        }
    }

    /// The goal of a route, as `goal` makes it.
    pub fn goal(&mut self, alloc: Global, config: &Config, route: u32) -> Result<Goal, OutOfMemory>
        requires lawful { IsLawful config.now }
        requires within { route < length (routes config.now) }
        requires kept { AreKept config.now self.old }
        ensures kept { AreKept config.now self.new }
        ensures goal { IfOk result (IsGoal config.now route) }
        ensures formed { IfOk result IsWellFormed }
        ensures sent { IfOk result (λ g. (q : Asked) → IsTrue (is_valid q) → IsTrue (is_true_at q g) ↔ IsSent config.now q route) }
    {
        let (from, first) = self.start(config, route);
        let (host, first) = host_from(config, route, from, first);
        let kept = kept_host(alloc, config, self.kept.take(), host, first)?;
        let at = guard_of(&kept.goals, route);
        let goal = kept.goals.goal(alloc, at);
        self.kept = Some(kept);
        goal
    }
}
