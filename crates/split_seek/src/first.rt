// What is tried before any split: a request at which the goal's own atoms are true and the others false. Whatever is tried,
// the request is taken only where the goal is true at it.
ghost use Rattle.std.specs.Prelude.{◌≡◌, ◌<◌, ◌^◌, length, IfOk, IfSome};
ghost use Rattle.split_seek.specs.Findings.{MeetsGoal};

use crate::finding::Look;
use crate::hints::Hints;
use crate::look::look_at_truth;
use crate::made::text_for;
use crate::serve::serve;
use crate::texts::{Service, has_text};
use goal_form::{Atom, Formula, Goal, Standing, Trail};
use goal_tables::Tables;
use req_model::Request;
use sqlite_items::Items;
use std::alloc::Global;
use text_base::{Field, OutOfMemory};

/// Marks the atoms that are to be true for the formula to have this truth. What is asked of all members is asked of each,
/// and what is asked of one of them is asked of the first.
#[cycle(wish)]
fn wish(formula: &Formula, truth: bool, wishes: &mut Vec<bool>)
    ensures { length wishes.new.items ≡ length wishes.old.items }
{
    match formula {
        Formula::Yes => {}
        Formula::No => {}
        Formula::Leaf(atom) => mark(*atom, truth, wishes),
        Formula::All(members) => wish_in(members.as_slice(), truth, truth, wishes),
        Formula::Any(members) => wish_in(members.as_slice(), truth, !truth, wishes),
        Formula::Not(member) => wish(member.get(), !truth, wishes),
    }
}

#[cycle(wish)]
fn wish_in(members: &[Formula], truth: bool, all: bool, wishes: &mut Vec<bool>)
    ensures { length wishes.new.items ≡ length wishes.old.items }
{
    for member in members {
        wish(member, truth, wishes);
        if !all {
            return;
        }
    }
}

fn mark(atom: u32, truth: bool, wishes: &mut Vec<bool>)
    ensures { length wishes.new.items ≡ length wishes.old.items }
{
    let place = atom as usize;
    if truth && place < wishes.len() {
        wishes[place] = true;
    }
}

/// The path that decides each atom as it is told, or the true ones alone.
fn decided(alloc: Global, truths: &[bool], all: bool) -> Result<Trail, OutOfMemory>
    requires { length truths.now < 2 ^ 32 }
    ensures { IfOk result (λ t. t.count ≡ length truths.now) }
{
    let count = truths.len() as u32;
    let mut trail = Trail::new(alloc, count)?;
    for atom in 0..count {
        let truth = truths[atom as usize];
        if truth || all {
            trail.decide(atom, truth)?;
        }
    }
    Ok(trail)
}

/// Whether the atom is true where these texts are shown.
fn is_true(goal: &Goal, texts: &[(Field, Items<u8>)], number: u32, hints: &mut Hints<'_>) -> bool
    ensures { hints.new ≡ hints.old }
{
    match goal.atoms.get(number) {
        Some(Atom::Present(field)) => has_text(texts, field),
        Some(Atom::Within { field, .. }) => {
            has_text(texts, field) && hints.holds(number, text_for(texts, field))
        }
        None => false,
    }
}

/// The truth of each atom where these texts are shown.
fn truths_at(
    alloc: Global,
    goal: &Goal,
    texts: &[(Field, Items<u8>)],
    hints: &mut Hints<'_>,
) -> Result<Vec<bool>, OutOfMemory>
    ensures hints { hints.new ≡ hints.old }
    ensures long { IfOk result (λ v. length v.items ≡ length goal.now.atoms) }
{
    let mut truths = Vec::new(alloc);
    for number in 0..goal.atoms.count() {
        truths.push(is_true(goal, texts, number, hints))?;
    }
    Ok(truths)
}

/// A request that shows these truths, if the goal is true there and each field has a text.
fn try_truths(
    alloc: Global,
    goal: &Goal,
    tables: &Tables<'_>,
    truths: &[bool],
    cap: u32,
    hints: &mut Hints<'_>,
) -> Result<Option<Request>, OutOfMemory>
    requires tables { tables.now.atoms ≡ goal.now.atoms }
    requires long { length truths.now ≡ length goal.now.atoms }
    requires few { length truths.now < 2 ^ 32 }
    requires hints { hints.old ≡ tables.now }
    ensures hints { hints.new ≡ hints.old }
    ensures meets { IfOk result (λ found. IfSome found (λ q. MeetsGoal goal.now q)) }
{
    let trail = decided(alloc, truths, true)?;
    if let Standing::Known(true) = trail.standing_of(&goal.formula) {
        if let Look::Reached(request) = look_at_truth(alloc, goal, tables, &trail, cap, hints)? {
            return Ok(Some(request));
        }
    }
    Ok(None)
}

/// A request found without a split. First the marked atoms alone are asked for, and the other atoms are as they then are.
/// If the goal isn't true so, all others are to be false.
pub fn first_try(
    alloc: Global,
    goal: &Goal,
    tables: &Tables<'_>,
    cap: u32,
    hints: &mut Hints<'_>,
) -> Result<Option<Request>, OutOfMemory>
    requires tables { tables.now.atoms ≡ goal.now.atoms }
    requires hints { hints.old ≡ tables.now }
    ensures hints { hints.new ≡ hints.old }
    ensures meets { IfOk result (λ found. IfSome found (λ q. MeetsGoal goal.now q)) }
{
    let count = goal.atoms.count();
    let mut wishes = vec![in alloc; false; count as usize]?;
    wish(&goal.formula, true, &mut wishes);
    let wished = decided(alloc, &wishes, false)?;
    let Service::All(texts) = serve(alloc, goal, tables, wished.steps(), cap, hints)? else {
        return Ok(None);
    };
    let shown = truths_at(alloc, goal, texts.as_slice(), hints)?;
    if let Some(request) = try_truths(alloc, goal, tables, &shown, cap, hints)? {
        return Ok(Some(request));
    }
    try_truths(alloc, goal, tables, &wishes, cap, hints)
}
