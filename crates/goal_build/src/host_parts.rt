// The parts of a host's goals, and a goal put together of them.
ghost use Rattle.std.specs.Prelude.{◌≡◌, ◌<◌, ℕ, map, length, All, IfOk, Some, slice_get};
ghost use Rattle.cfg_types.specs.Choices.{routes_before};
ghost use Rattle.cfg_types.specs.Lawful.{IsLawful, IsLawfulBody, IsLawfulRoute};
ghost use Rattle.cfg_types.specs.Order.{lent, body_routes};
ghost use Rattle.cfg_types.specs.declared.configs.Config.{Config};
ghost use Rattle.goal_build.specs.Goals.{IsGoal};
ghost use Rattle.goal_build.specs.Guards.{body_guards};
ghost use Rattle.goal_build.specs.HostGoals.{AreGoalsOf, AreRulesOf};
ghost use Rattle.goal_build.specs.Parts.{taken};
ghost use Rattle.goal_form.specs.Conditions.{AreMeant};
ghost use Rattle.goal_form.specs.Numbers.{Grows};
ghost use Rattle.goal_form.specs.declared.sight.Condition.{Condition};
ghost use Rattle.match_tree.specs.Told.{AreGuards};
ghost use Rattle.rule_form.specs.Conditions.{rule_condition};

use crate::HostGoals;
use crate::numbering::{no_places, renumber, renumber_all, renumber_none};
use crate::shared::shared_formulas;
use cfg_types::{Body, Config, Route};
use goal_form::{Atoms, Formula, Goal};
use match_tree::{Guard, guards, route_guards};
use rule_form::rule_formula;
use sqlite_items::Items;
use std::alloc::Global;
use text_base::OutOfMemory;

impl HostGoals {
    /// What the goals of a host's routes are made of. `first` is the number of the host's first route.
    pub fn build(
        alloc: Global,
        config: &Config,
        host: u32,
        first: u32,
    ) -> Result<HostGoals, OutOfMemory>
        requires lawful { IsLawful config.now }
        requires within { host < length config.now.hosts }
        requires first { first ≡ routes_before config.now.hosts host }
        ensures { IfOk result (AreGoalsOf config.now host) }
    {
        let own = &config.hosts.as_slice()[host as usize];
        let mut atoms = Atoms::new(alloc);
        let shared = shared_formulas(alloc, config, host, own, &mut atoms)?;
        let guards = body_formulas(alloc, &own.body, first, config.ignore_params, &mut atoms)?;
        Ok(HostGoals {
            atoms,
            shared,
            guards,
        })
    }

    /// How many guards the host has. Takes no memory.
    pub fn count(&self) -> usize
        ensures { result ≡ length self.now.guards }
    {
        self.guards.len()
    }

    /// The route of the guard at a place, if it has one. The routes of a host have their guards in route order. Takes no
    /// memory.
    pub fn route(&self, at: usize) -> Option<u32>
        requires { at < length self.now.guards }
        ensures { slice_get (taken self.now.guards) at ≡ Some result }
    {
        self.guards.as_slice()[at].route
    }

    /// The goal of the route of the guard at a place.
    pub fn goal(&self, alloc: Global, at: usize) -> Result<Goal, OutOfMemory>
        requires { at < length self.now.guards }
        ensures { (c : Config) (h r : ℕ) → AreGoalsOf c h self.now → slice_get (taken self.now.guards) at ≡ Some (Some r) → IfOk result (IsGoal c r) }
    {
        let mut places = no_places(alloc, self.atoms.count())?;
        let mut atoms = Atoms::new(alloc);
        let shared = self.shared.as_slice();
        let mut members = renumber_all(alloc, &self.atoms, &mut places, &mut atoms, shared)?;
        let guard = &self.guards.as_slice()[at];
        members.push(renumber(alloc, &self.atoms, &mut places, &mut atoms, &guard.formula)?)?;
        let earlier = &self.guards.as_slice()[..at];
        members.append(renumber_none(alloc, &self.atoms, &mut places, &mut atoms, earlier)?)?;
        let _ = atoms.as_slice();
        Ok(Goal {
            atoms,
            formula: Formula::All(members),
        })
    }
}

/// The formulas of the rules of routes, in order.
fn rule_formulas(
    alloc: Global,
    routes: &[&Route],
    ignore_params: bool,
    atoms: &mut Atoms,
) -> Result<Items<Formula>, OutOfMemory>
    requires { All IsLawfulRoute (lent routes.now) }
    ensures kept { Grows atoms.old atoms.new }
    ensures meant { IfOk result (λ fs. AreMeant atoms.new fs (map (λ r. rule_condition ignore_params r.rule) (lent routes.now))) }
{
    let mut list = Items::new(alloc);
    for route in routes {
        list.push(rule_formula(alloc, &route.rule, ignore_params, atoms)?)?;
    }
    Ok(list)
}

/// The guards of what a host chooses its routes by, of which the first has the number `first`.
fn body_formulas(
    alloc: Global,
    body: &Body,
    first: u32,
    ignore_params: bool,
    atoms: &mut Atoms,
) -> Result<Items<Guard>, OutOfMemory>
    requires { IsLawfulBody body.now }
    ensures kept { Grows atoms.old atoms.new }
    ensures meant { (rule : ℕ → Condition) → AreRulesOf ignore_params first (body_routes body.now) rule → IfOk result (λ gs. AreGuards atoms.new gs (body_guards rule first body.now)) }
{
    let routes = body.routes(alloc)?;
    let rules = rule_formulas(alloc, routes.as_slice(), ignore_params, atoms)?;
    match body {
        Body::List(_) => route_guards(alloc, first, rules.as_slice()),
        Body::Tree(tree) => guards(alloc, tree, first, rules.as_slice(), atoms),
    }
}
