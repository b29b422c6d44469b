// What a tree asks in order, as formulas.
ghost use Rattle.std.specs.Prelude.{◌≡◌, ◌+◌, ◌-◌, ◌≤◌, ℕ, IsTrue, IfOk, List, Some, length, map, slice_get};
ghost use Rattle.cfg_types.specs.Kinds.{is_matcher_text};
ghost use Rattle.cfg_types.specs.Lawful.{IsLawfulTree, is_input};
ghost use Rattle.goal_form.specs.Conditions.{IsMeant};
ghost use Rattle.goal_form.specs.Meant.{AreMeant};
ghost use Rattle.goal_form.specs.Numbers.{Grows};
ghost use Rattle.goal_form.specs.declared.atom.Atom.{Atom};
ghost use Rattle.goal_form.specs.declared.sight.Condition.{Condition};
ghost use Rattle.match_tree.specs.Guards.{body_asking, entry_asking, key_asking, then_asking, tree_asking, tree_guards, asked_in_turn, asked_where, asked_by_keys, input_condition, key_condition, predicate_condition, route_guards as guards_of_routes, guards_where};
ghost use Rattle.match_tree.specs.Guards.{Guard as Meant};
ghost use Rattle.match_tree.specs.LawfulParts.{AreFilledEntries, AreFilledKeys, AreFilledPredicates, IsFilledBody, IsFilledPredicate, IsFilledThen, IsFilledTree};
ghost use Rattle.match_tree.specs.Told.{AddsGuards, AreGuards, AreRules, IsAsked};

use crate::{Input, SeenInput};
use cfg_types::{Entry, InputRule, KeyThen, Predicate, Then, Tree, TreeBody};
use goal_form::{Atoms, Formula, all_of, copy_formula, negated};
use rx_build::{exact, is_pattern, prefix, text_term};
use rx_term::Term;
use sqlite_items::Items;
use std::alloc::Global;
use text_base::OutOfMemory;

/// What is asked, and the route that is taken where this is the first guard that is true. A guard without a route ends the
/// search.
#[derive(Drop)]
pub struct Guard {
    pub formula: Formula,
    pub route: Option<u32>,
}

/// The formulas of the rules of a tree's routes, in route order, and the number of the first route.
#[derive(Drop)]
struct Rules<'a> {
    first: u32,
    formulas: &'a [Formula],
}

/// The guards of a tree whose first route has the number `first`, over the atoms, of which more may come at the end, after
/// want of memory too. `rules` are the formulas of the rules of its routes, in route order. Where they are fewer than the
/// routes, or a number would be past 2^32 - 1, the answer is want of memory.
pub fn guards(
    alloc: Global,
    tree: &Tree,
    first: u32,
    rules: &[Formula],
    atoms: &mut Atoms,
) -> Result<Items<Guard>, OutOfMemory>
    requires { IsLawfulTree tree.now }
    ensures kept { Grows atoms.old atoms.new }
    ensures meant { (rule : ℕ → Condition) → AreRules atoms.old first rules.now rule → IfOk result (λ gs. AreGuards atoms.new gs (tree_guards rule tree.now first)) }
{
    let rules = Rules {
        first,
        formulas: rules,
    };
    let mut list = Items::new(alloc);
    add_tree(alloc, tree, first, &rules, atoms, &mut list)?;
    Ok(list)
}

/// The guards of routes in a row, of which the first has the number `first`, by the formulas of their rules. Where a number
/// would be past 2^32 - 1, the answer is want of memory.
pub fn route_guards(
    alloc: Global,
    first: u32,
    rules: &[Formula],
) -> Result<Items<Guard>, OutOfMemory>
    ensures { (atoms : List Atom) (rule : ℕ → Condition) → AreRules atoms first rules.now rule → IfOk result (λ gs. AreGuards atoms gs (guards_of_routes rule first (length rules.now))) }
{
    let many = rules.len();
    let rules = Rules {
        first,
        formulas: rules,
    };
    let mut list = Items::new(alloc);
    add_routes(alloc, many, first, &rules, &mut list)?;
    Ok(list)
}

/// Adds the guards of a tree, and tells the number after its last route.
#[cycle(guards)]
fn add_tree(
    alloc: Global,
    tree: &Tree,
    first: u32,
    rules: &Rules,
    atoms: &mut Atoms,
    list: &mut Items<Guard>,
) -> Result<u32, OutOfMemory>
    requires { IsFilledTree tree.now }
    ensures kept { Grows atoms.old atoms.new }
    ensures asked { (rule : ℕ → Condition) → AreRules atoms.old rules.now.first rules.now.formulas.now rule → IfOk result (λ next. IsAsked (tree_asking rule tree.now) first next atoms.new list.old list.new) }
{
    let next = add_body(alloc, &tree.body, first, rules, atoms, list)?;
    match &tree.otherwise {
        None => Ok(next),
        Some(then) => add_then(alloc, then, next, rules, atoms, list),
    }
}

/// The same of the entries of a tree.
#[cycle(guards)]
fn add_body(
    alloc: Global,
    body: &TreeBody,
    first: u32,
    rules: &Rules,
    atoms: &mut Atoms,
    list: &mut Items<Guard>,
) -> Result<u32, OutOfMemory>
    requires { IsFilledBody body.now }
    ensures kept { Grows atoms.old atoms.new }
    ensures asked { (rule : ℕ → Condition) → AreRules atoms.old rules.now.first rules.now.formulas.now rule → IfOk result (λ next. IsAsked (body_asking rule body.now) first next atoms.new list.old list.new) }
{
    match body {
        TreeBody::Bare => Ok(first),
        TreeBody::List(entries) => {
            add_entries(alloc, entries.as_slice(), first, rules, atoms, list)
        }
        TreeBody::Exact { input, map } => {
            add_keys(
                alloc,
                input,
                false,
                map.as_slice(),
                first,
                rules,
                atoms,
                list,
            )
        }
        TreeBody::Prefix { input, map } => {
            add_keys(
                alloc,
                input,
                true,
                map.as_slice(),
                first,
                rules,
                atoms,
                list,
            )
        }
    }
}

/// The same of the entries of a list.
#[cycle(guards)]
fn add_entries(
    alloc: Global,
    entries: &[Entry],
    first: u32,
    rules: &Rules,
    atoms: &mut Atoms,
    list: &mut Items<Guard>,
) -> Result<u32, OutOfMemory>
    requires { AreFilledEntries entries.now }
    ensures kept { Grows atoms.old atoms.new }
    ensures asked { (rule : ℕ → Condition) → AreRules atoms.old rules.now.first rules.now.formulas.now rule → IfOk result (λ next. IsAsked (asked_in_turn (map (entry_asking rule) entries.now)) first next atoms.new list.old list.new) }
{
    let mut next = first;
    for entry in entries {
        let condition = predicate_formula(alloc, &entry.test, atoms)?;
        next = add_where(alloc, &entry.next, condition, next, rules, atoms, list)?;
    }
    Ok(next)
}

/// The same of the entries of a map. `prefixes` tells that its keys are prefixes.
#[cycle(guards)]
fn add_keys(
    alloc: Global,
    input: &InputRule,
    prefixes: bool,
    keys: &[KeyThen],
    first: u32,
    rules: &Rules,
    atoms: &mut Atoms,
    list: &mut Items<Guard>,
) -> Result<u32, OutOfMemory>
    requires input { IsTrue (is_input input.now) }
    requires keys { AreFilledKeys keys.now }
    ensures kept { Grows atoms.old atoms.new }
    ensures asked { (rule : ℕ → Condition) → AreRules atoms.old rules.now.first rules.now.formulas.now rule → IfOk result (λ next. IsAsked (asked_by_keys (key_condition prefixes input.now) (map (key_asking rule) keys.now)) first next atoms.new list.old list.new) }
{
    let mut next = first;
    for entry in keys {
        let condition = key_formula(alloc, input, prefixes, entry.key.as_bytes(), atoms)?;
        next = add_where(alloc, &entry.next, condition, next, rules, atoms, list)?;
    }
    Ok(next)
}

/// The same of what is taken where a condition is true.
#[cycle(guards)]
fn add_where(
    alloc: Global,
    then: &Then,
    condition: Formula,
    first: u32,
    rules: &Rules,
    atoms: &mut Atoms,
    list: &mut Items<Guard>,
) -> Result<u32, OutOfMemory>
    requires { IsFilledThen then.now }
    ensures kept { Grows atoms.old atoms.new }
    ensures asked { (rule : ℕ → Condition) (c : Condition) → AreRules atoms.old rules.now.first rules.now.formulas.now rule → IsMeant atoms.old condition c → IfOk result (λ next. IsAsked (asked_where c (then_asking rule then.now)) first next atoms.new list.old list.new) }
{
    let mut inner = Items::new(alloc);
    let next = add_then(alloc, then, first, rules, atoms, &mut inner)?;
    add_conditioned(alloc, condition, inner.as_slice(), list)?;
    Ok(next)
}

/// The same of what an entry leads to.
#[cycle(guards)]
fn add_then(
    alloc: Global,
    then: &Then,
    first: u32,
    rules: &Rules,
    atoms: &mut Atoms,
    list: &mut Items<Guard>,
) -> Result<u32, OutOfMemory>
    requires { IsFilledThen then.now }
    ensures kept { Grows atoms.old atoms.new }
    ensures asked { (rule : ℕ → Condition) → AreRules atoms.old rules.now.first rules.now.formulas.now rule → IfOk result (λ next. IsAsked (then_asking rule then.now) first next atoms.new list.old list.new) }
{
    match then {
        Then::Inner(tree) => add_tree(alloc, tree.get(), first, rules, atoms, list),
        Then::Routes(routes) => add_routes(alloc, routes.len(), first, rules, list),
    }
}

/// Adds the guards of routes in a row, and tells the number after the last one.
fn add_routes(
    alloc: Global,
    many: usize,
    first: u32,
    rules: &Rules,
    list: &mut Items<Guard>,
) -> Result<u32, OutOfMemory>
    ensures { (atoms : List Atom) (rule : ℕ → Condition) → AreRules atoms rules.now.first rules.now.formulas.now rule → IfOk result (λ next. (next ≡ first + many) × AddsGuards atoms list.old list.new (guards_of_routes rule first many)) }
{
    let mut next = first;
    for _ in 0..many {
        let formula = rule_of(alloc, rules, next)?;
        list.push(Guard {
            formula,
            route: Some(next),
        })?;
        next = next.checked_add(1).ok_or(OutOfMemory)?;
    }
    Ok(next)
}

/// The formula of the rule of a route.
fn rule_of(alloc: Global, rules: &Rules, route: u32) -> Result<Formula, OutOfMemory>
    ensures { IfOk result (λ f. (rules.now.first ≤ route) × (slice_get rules.now.formulas.now (route - rules.now.first) ≡ Some f)) }
{
    let Some(at) = route.checked_sub(rules.first) else {
        return Err(OutOfMemory);
    };
    match rules.formulas.get(at as usize) {
        Some(formula) => copy_formula(alloc, formula),
        None => Err(OutOfMemory),
    }
}

/// Adds guards that are asked only where a condition is true; where it is, nothing after them is.
fn add_conditioned(
    alloc: Global,
    condition: Formula,
    guards: &[Guard],
    list: &mut Items<Guard>,
) -> Result<(), OutOfMemory>
    ensures { (atoms : List Atom) (c : Condition) (gs : List Meant) → IsMeant atoms condition c → AreGuards atoms guards.now gs → IfOk result (λ u. AddsGuards atoms list.old list.new (guards_where c gs)) }
{
    for guard in guards {
        let asked = copy_formula(alloc, &condition)?;
        let inner = copy_formula(alloc, &guard.formula)?;
        list.push(Guard {
            formula: all_of(alloc, asked, inner)?,
            route: guard.route,
        })?;
    }
    let mut members = Items::new(alloc);
    members.push(condition)?;
    list.push(Guard {
        formula: Formula::All(members),
        route: None,
    })
}

/// The input's text is there and in the term.
fn input_formula(
    alloc: Global,
    rule: &InputRule,
    term: Term,
    user: bool,
    atoms: &mut Atoms,
) -> Result<Formula, OutOfMemory>
    requires { IsTrue (is_input rule.now) }
    ensures kept { Grows atoms.old atoms.new }
    ensures meant { IfOk result (λ f. IsMeant atoms.new f (input_condition rule.now term user)) }
{
    let input = SeenInput::of(alloc, rule)?;
    input.formula(alloc, term, user, atoms)
}

/// The input's text is the key, or begins with it where keys are prefixes.
fn key_formula(
    alloc: Global,
    rule: &InputRule,
    prefixes: bool,
    key: &[u8],
    atoms: &mut Atoms,
) -> Result<Formula, OutOfMemory>
    requires input { IsTrue (is_input rule.now) }
    requires key { IsTrue (is_matcher_text key.now) }
    ensures kept { Grows atoms.old atoms.new }
    ensures meant { IfOk result (λ f. IsMeant atoms.new f (key_condition prefixes rule.now key.now)) }
{
    if prefixes {
        let term = prefix(alloc, key, false)?;
        return input_formula(alloc, rule, term, false, atoms);
    }
    let term = exact(alloc, key, false)?;
    input_formula(alloc, rule, term, false, atoms)
}

/// A predicate as a formula.
#[cycle(predicate)]
fn predicate_formula(
    alloc: Global,
    test: &Predicate,
    atoms: &mut Atoms,
) -> Result<Formula, OutOfMemory>
    requires { IsFilledPredicate test.now }
    ensures kept { Grows atoms.old atoms.new }
    ensures meant { IfOk result (λ f. IsMeant atoms.new f (predicate_condition test.now)) }
{
    match test {
        Predicate::Single { input, rule } => {
            let term = text_term(alloc, rule)?;
            input_formula(alloc, input, term, is_pattern(&rule.form), atoms)
        }
        Predicate::Any(tests) => Ok(Formula::Any(member_formulas(alloc, tests.as_slice(), atoms)?)),
        Predicate::All(tests) => Ok(Formula::All(member_formulas(alloc, tests.as_slice(), atoms)?)),
        Predicate::Not(test) => {
            let inner = predicate_formula(alloc, test.get(), atoms)?;
            negated(alloc, inner)
        }
    }
}

#[cycle(predicate)]
fn member_formulas(
    alloc: Global,
    tests: &[Predicate],
    atoms: &mut Atoms,
) -> Result<Items<Formula>, OutOfMemory>
    requires { AreFilledPredicates tests.now }
    ensures kept { Grows atoms.old atoms.new }
    ensures meant { IfOk result (λ fs. AreMeant atoms.new fs (map predicate_condition tests.now)) }
{
    let mut list = Items::new(alloc);
    for test in tests {
        list.push(predicate_formula(alloc, test, atoms)?)?;
    }
    Ok(list)
}
