// Matchers out of the trees of a configuration.
ghost use Rattle.std.specs.Prelude.{◌≡◌, ◌+◌, ℕ, length, IfOk, Ok, map, option_map};
ghost use Rattle.std.specs.Borrow.{Bor};
ghost use Rattle.text_base.specs.Asked.{Asked};
ghost use Rattle.cfg_types.specs.declared.trees.InputRule.{InputRule};
ghost use Rattle.cfg_types.specs.Trees.{behind, input_of, predicate_holds, tree_outcome, entry_way, key_way};
ghost use Rattle.match_tree.specs.Checks.{check_holds};
ghost use Rattle.match_tree.specs.Outcomes.{matcher_outcome};
ghost use Rattle.match_tree.specs.Builds.{IsOfTree, IsOfBody, IsOfThen, IsOfRest, AreOfPlaces};

use crate::check::Check;
use crate::keys::Keys;
use crate::selector::Selector;
use crate::tree::Step;
use crate::{Input, Matcher};
use cfg_types::{Entry, InputRule, KeyThen, Predicate, Route, Then, Tree, TreeBody};
use sqlite_items::{Boxed, Items};
use std::alloc::Global;
use text_base::OutOfMemory;
use text_match::TextTest;

/// Where a matcher leads: routes in a row.
pub trait Action {
    // the number of the first route, and how many they are
    ghost span: { Self → ℕ × ℕ };

    /// The number of the first route, and how many they are. Takes no memory.
    fn routes(&self) -> (u32, u32)
        ensures { result ≡ Self.span self.now };
}

/// Routes in a row, by the number of the first one.
#[derive(Drop)]
pub struct Span {
    pub first: u32,
    pub many: u32,
}

impl Action for Span {
    ghost span = { λ s. (s.first, s.many) };

    fn routes(&self) -> (u32, u32) {
        (self.first, self.many)
    }
}

impl<I: Input + Drop, A: Action + Drop> Matcher<I, A> {
    /// The matcher of a tree whose first route has the number `first`. `input` makes the input of a rule, `action` the
    /// action of routes, by the number of the first one and how many they are. Where a number would be past 2^32 - 1, or
    /// the keys of a map stand out of order, as in no lawful tree, the answer is want of memory.
    pub fn build<
        P: Fn(&InputRule) -> Result<I, OutOfMemory>,
        Q: Fn(u32, u32) -> Result<A, OutOfMemory>,
    >(
        alloc: Global,
        tree: &Tree,
        first: u32,
        input: &P,
        action: &Q,
    ) -> Result<Matcher<I, A>, OutOfMemory>
        requires input_called { P.IsAlwaysCallable input.now }
        requires action_called { Q.IsAlwaysCallable action.now }
        requires sees { (r : Bor InputRule) (i : I) → P.post input.now r (Ok i) → (q : Asked) → I.sees i q ≡ input_of r.now q }
        requires acts { (f n : ℕ) (a : A) → Q.post action.now f n (Ok a) → A.span a ≡ (f, n) }
        ensures { IfOk result (λ m. (q : Asked) → option_map A.span (matcher_outcome I.sees q m) ≡ behind first (tree_outcome q tree.now)) }
    {
        let (matcher, _) = of_tree(alloc, tree, first, input, action)?;
        Ok(matcher)
    }
}

/// The matcher of a tree, and the number behind its last route.
#[cycle(build)]
fn of_tree<
    I: Input + Drop,
    A: Action + Drop,
    P: Fn(&InputRule) -> Result<I, OutOfMemory>,
    Q: Fn(u32, u32) -> Result<A, OutOfMemory>,
>(
    alloc: Global,
    tree: &Tree,
    first: u32,
    input: &P,
    action: &Q,
) -> Result<(Matcher<I, A>, u32), OutOfMemory>
    requires input_called { P.IsAlwaysCallable input.now }
    requires action_called { Q.IsAlwaysCallable action.now }
    requires sees { (r : Bor InputRule) (i : I) → P.post input.now r (Ok i) → (q : Asked) → I.sees i q ≡ input_of r.now q }
    requires acts { (f n : ℕ) (a : A) → Q.post action.now f n (Ok a) → A.span a ≡ (f, n) }
    ensures { IfOk result (λ m. IsOfTree I.sees A.span tree.now first m.1 m.0) }
{
    let (selector, steps, next) = of_body(alloc, &tree.body, first, input, action)?;
    let (otherwise, next) = of_rest(alloc, &tree.otherwise, next, input, action)?;
    Ok((
        Matcher {
            selector,
            steps,
            otherwise,
        },
        next,
    ))
}

/// What the entries of a tree are taken by, where each leads, and the number behind their last route.
#[cycle(build)]
fn of_body<
    I: Input + Drop,
    A: Action + Drop,
    P: Fn(&InputRule) -> Result<I, OutOfMemory>,
    Q: Fn(u32, u32) -> Result<A, OutOfMemory>,
>(
    alloc: Global,
    body: &TreeBody,
    first: u32,
    input: &P,
    action: &Q,
) -> Result<(Selector<I>, Items<Step<I, A>>, u32), OutOfMemory>
    requires input_called { P.IsAlwaysCallable input.now }
    requires action_called { Q.IsAlwaysCallable action.now }
    requires sees { (r : Bor InputRule) (i : I) → P.post input.now r (Ok i) → (q : Asked) → I.sees i q ≡ input_of r.now q }
    requires acts { (f n : ℕ) (a : A) → Q.post action.now f n (Ok a) → A.span a ≡ (f, n) }
    ensures { IfOk result (λ m. IsOfBody I.sees A.span body.now first m.2 m.0 m.1) }
{
    match body {
        TreeBody::Bare => Ok((Selector::List(Items::new(alloc)), Items::new(alloc), first)),
        TreeBody::List(entries) => {
            let checks = checks_of(alloc, entries.as_slice(), input)?;
            let (steps, next) = of_entries(alloc, entries.as_slice(), first, input, action)?;
            Ok((Selector::List(checks), steps, next))
        }
        TreeBody::Exact { input: rule, map } => {
            let entries = map.as_slice();
            let (steps, next) = of_keys(alloc, entries, first, input, action)?;
            let keys = Keys::of(alloc, false, entries)?;
            let made = made_of(rule, input)?;
            Ok((Selector::Exact { input: made, keys }, steps, next))
        }
        TreeBody::Prefix { input: rule, map } => {
            let entries = map.as_slice();
            let (steps, next) = of_keys(alloc, entries, first, input, action)?;
            let keys = Keys::of(alloc, true, entries)?;
            let made = made_of(rule, input)?;
            Ok((Selector::Prefix { input: made, keys }, steps, next))
        }
    }
}

/// Where the entries of a list lead, and the number behind their last route.
#[cycle(build)]
fn of_entries<
    I: Input + Drop,
    A: Action + Drop,
    P: Fn(&InputRule) -> Result<I, OutOfMemory>,
    Q: Fn(u32, u32) -> Result<A, OutOfMemory>,
>(
    alloc: Global,
    entries: &[Entry],
    first: u32,
    input: &P,
    action: &Q,
) -> Result<(Items<Step<I, A>>, u32), OutOfMemory>
    requires input_called { P.IsAlwaysCallable input.now }
    requires action_called { Q.IsAlwaysCallable action.now }
    requires sees { (r : Bor InputRule) (i : I) → P.post input.now r (Ok i) → (q : Asked) → I.sees i q ≡ input_of r.now q }
    requires acts { (f n : ℕ) (a : A) → Q.post action.now f n (Ok a) → A.span a ≡ (f, n) }
    ensures { IfOk result (λ m. AreOfPlaces I.sees A.span (λ q. map (λ e. (entry_way q e).1) entries.now) first m.1 m.0) }
{
    let mut steps = Items::new(alloc);
    let mut next = first;
    for entry in entries {
        let (step, after) = of_then(alloc, &entry.next, next, input, action)?;
        steps.push(step)?;
        next = after;
    }
    Ok((steps, next))
}

/// Where the entries of a map lead, and the number behind their last route.
#[cycle(build)]
fn of_keys<
    I: Input + Drop,
    A: Action + Drop,
    P: Fn(&InputRule) -> Result<I, OutOfMemory>,
    Q: Fn(u32, u32) -> Result<A, OutOfMemory>,
>(
    alloc: Global,
    keys: &[KeyThen],
    first: u32,
    input: &P,
    action: &Q,
) -> Result<(Items<Step<I, A>>, u32), OutOfMemory>
    requires input_called { P.IsAlwaysCallable input.now }
    requires action_called { Q.IsAlwaysCallable action.now }
    requires sees { (r : Bor InputRule) (i : I) → P.post input.now r (Ok i) → (q : Asked) → I.sees i q ≡ input_of r.now q }
    requires acts { (f n : ℕ) (a : A) → Q.post action.now f n (Ok a) → A.span a ≡ (f, n) }
    ensures { IfOk result (λ m. AreOfPlaces I.sees A.span (λ q. map (λ k. (key_way q k).1) keys.now) first m.1 m.0) }
{
    let mut steps = Items::new(alloc);
    let mut next = first;
    for entry in keys {
        let (step, after) = of_then(alloc, &entry.next, next, input, action)?;
        steps.push(step)?;
        next = after;
    }
    Ok((steps, next))
}

/// Where what is left leads, and the number behind its last route.
#[cycle(build)]
fn of_rest<
    I: Input + Drop,
    A: Action + Drop,
    P: Fn(&InputRule) -> Result<I, OutOfMemory>,
    Q: Fn(u32, u32) -> Result<A, OutOfMemory>,
>(
    alloc: Global,
    rest: &Option<Then>,
    first: u32,
    input: &P,
    action: &Q,
) -> Result<(Option<Step<I, A>>, u32), OutOfMemory>
    requires input_called { P.IsAlwaysCallable input.now }
    requires action_called { Q.IsAlwaysCallable action.now }
    requires sees { (r : Bor InputRule) (i : I) → P.post input.now r (Ok i) → (q : Asked) → I.sees i q ≡ input_of r.now q }
    requires acts { (f n : ℕ) (a : A) → Q.post action.now f n (Ok a) → A.span a ≡ (f, n) }
    ensures { IfOk result (λ m. IsOfRest I.sees A.span rest.now first m.1 m.0) }
{
    match rest {
        None => Ok((None, first)),
        Some(then) => {
            let (step, next) = of_then(alloc, then, first, input, action)?;
            Ok((Some(step), next))
        }
    }
}

/// Where an entry leads, and the number behind its last route.
#[cycle(build)]
fn of_then<
    I: Input + Drop,
    A: Action + Drop,
    P: Fn(&InputRule) -> Result<I, OutOfMemory>,
    Q: Fn(u32, u32) -> Result<A, OutOfMemory>,
>(
    alloc: Global,
    then: &Then,
    first: u32,
    input: &P,
    action: &Q,
) -> Result<(Step<I, A>, u32), OutOfMemory>
    requires input_called { P.IsAlwaysCallable input.now }
    requires action_called { Q.IsAlwaysCallable action.now }
    requires sees { (r : Bor InputRule) (i : I) → P.post input.now r (Ok i) → (q : Asked) → I.sees i q ≡ input_of r.now q }
    requires acts { (f n : ℕ) (a : A) → Q.post action.now f n (Ok a) → A.span a ≡ (f, n) }
    ensures { IfOk result (λ m. IsOfThen I.sees A.span then.now first m.1 m.0) }
{
    match then {
        Then::Inner(tree) => {
            let (matcher, next) = of_tree(alloc, tree.get(), first, input, action)?;
            Ok((Step::Inner(Boxed::new(alloc, matcher)?), next))
        }
        Then::Routes(routes) => {
            let many = many_of(routes.as_slice())?;
            let next = sum_of(first, many)?;
            Ok((Step::Act(acted_on(first, many, action)?), next))
        }
    }
}

/// The input of a rule.
fn made_of<I: Input, P: Fn(&InputRule) -> Result<I, OutOfMemory>>(
    rule: &InputRule,
    input: &P,
) -> Result<I, OutOfMemory>
    requires input_called { P.IsAlwaysCallable input.now }
    requires sees { (r : Bor InputRule) (i : I) → P.post input.now r (Ok i) → (q : Asked) → I.sees i q ≡ input_of r.now q }
    ensures { IfOk result (λ i. (q : Asked) → I.sees i q ≡ input_of rule.now q) }
{
    input(rule)
}

/// The action of routes in a row.
fn acted_on<A: Action, Q: Fn(u32, u32) -> Result<A, OutOfMemory>>(
    first: u32,
    many: u32,
    action: &Q,
) -> Result<A, OutOfMemory>
    requires action_called { Q.IsAlwaysCallable action.now }
    requires acts { (f n : ℕ) (a : A) → Q.post action.now f n (Ok a) → A.span a ≡ (f, n) }
    ensures { IfOk result (λ a. A.span a ≡ (first, many)) }
{
    action(first, many)
}

fn many_of(routes: &[Route]) -> Result<u32, OutOfMemory>
    ensures { IfOk result (λ n. n ≡ length routes.now) }
{
    match u32::try_from(routes.len()) {
        Ok(many) => Ok(many),
        Err(_) => Err(OutOfMemory),
    }
}

fn sum_of(first: u32, many: u32) -> Result<u32, OutOfMemory>
    ensures { IfOk result (λ n. n ≡ first + many) }
{
    match first.checked_add(many) {
        Some(next) => Ok(next),
        None => Err(OutOfMemory),
    }
}

/// The predicates of a list's entries.
fn checks_of<I: Input + Drop, P: Fn(&InputRule) -> Result<I, OutOfMemory>>(
    alloc: Global,
    entries: &[Entry],
    input: &P,
) -> Result<Items<Check<I>>, OutOfMemory>
    requires input_called { P.IsAlwaysCallable input.now }
    requires sees { (r : Bor InputRule) (i : I) → P.post input.now r (Ok i) → (q : Asked) → I.sees i q ≡ input_of r.now q }
    ensures { IfOk result (λ cs. (q : Asked) → map (check_holds I.sees q) cs ≡ map (λ e. predicate_holds q e.test) entries.now) }
{
    let mut checks = Items::new(alloc);
    for entry in entries {
        checks.push(check_of(alloc, &entry.test, input)?)?;
    }
    Ok(checks)
}

/// The check of a predicate.
#[cycle(check)]
fn check_of<I: Input + Drop, P: Fn(&InputRule) -> Result<I, OutOfMemory>>(
    alloc: Global,
    test: &Predicate,
    input: &P,
) -> Result<Check<I>, OutOfMemory>
    requires input_called { P.IsAlwaysCallable input.now }
    requires sees { (r : Bor InputRule) (i : I) → P.post input.now r (Ok i) → (q : Asked) → I.sees i q ≡ input_of r.now q }
    ensures { IfOk result (λ c. (q : Asked) → check_holds I.sees q c ≡ predicate_holds q test.now) }
{
    match test {
        Predicate::Single {
            input: rule,
            rule: text,
        } => {
            let made = made_of(rule, input)?;
            let test = TextTest::build(alloc, text)?;
            Ok(Check::Single { input: made, test })
        }
        Predicate::Any(tests) => Ok(Check::Any(members_of(alloc, tests.as_slice(), input)?)),
        Predicate::All(tests) => Ok(Check::All(members_of(alloc, tests.as_slice(), input)?)),
        Predicate::Not(test) => {
            let inner = check_of(alloc, test.get(), input)?;
            Ok(Check::Not(Boxed::new(alloc, inner)?))
        }
    }
}

#[cycle(check)]
fn members_of<I: Input + Drop, P: Fn(&InputRule) -> Result<I, OutOfMemory>>(
    alloc: Global,
    tests: &[Predicate],
    input: &P,
) -> Result<Items<Check<I>>, OutOfMemory>
    requires input_called { P.IsAlwaysCallable input.now }
    requires sees { (r : Bor InputRule) (i : I) → P.post input.now r (Ok i) → (q : Asked) → I.sees i q ≡ input_of r.now q }
    ensures { IfOk result (λ cs. (q : Asked) → map (check_holds I.sees q) cs ≡ map (predicate_holds q) tests.now) }
{
    let mut checks = Items::new(alloc);
    for test in tests {
        checks.push(check_of(alloc, test, input)?)?;
    }
    Ok(checks)
}
