// Whether a goal is true at a request, found from the request itself.
ghost use Rattle.std.specs.Prelude.{◌≡◌, ◌≤◌, map, IfOk};
ghost use Rattle.std.specs.List.{list_all, list_any};
ghost use Rattle.text_base.specs.Seen.{seen};
ghost use Rattle.goal_form.specs.Formulas.{truth_at};
ghost use Rattle.goal_form.specs.Goals.{truths, is_true_at};

use goal_form::{Atom, Atoms, Formula, Goal, Scratch};
use goal_tables::Tables;
use req_model::Request;
use std::alloc::Global;
use text_base::OutOfMemory;

/// Whether the atom of this number, if it is there, is true at the request.
fn atom_holds(
    tables: &Tables<'_>,
    number: u32,
    atoms: &Atoms,
    request: &Request,
    scratch: &mut Scratch,
) -> bool
    requires atoms { tables.now.atoms ≡ atoms.now }
    requires room { tables.now.room ≤ scratch.old }
    ensures answer { result ≡ truths (seen request.now) atoms.now number }
    ensures room { scratch.new ≡ scratch.old }
{
    match atoms.get(number) {
        None => false,
        Some(Atom::Present(field)) => request.see(field).is_some(),
        Some(Atom::Within { field, .. }) => match request.see(field) {
            None => false,
            Some(text) => tables.holds(number, text, scratch),
        },
    }
}

/// Whether the formula is true at the request. Only the atoms that decide it are looked at.
#[cycle(truth)]
fn holds(
    tables: &Tables<'_>,
    formula: &Formula,
    atoms: &Atoms,
    request: &Request,
    scratch: &mut Scratch,
) -> bool
    requires atoms { tables.now.atoms ≡ atoms.now }
    requires room { tables.now.room ≤ scratch.old }
    ensures answer { result ≡ truth_at (truths (seen request.now) atoms.now) formula.now }
    ensures room { scratch.new ≡ scratch.old }
{
    match formula {
        Formula::Yes => true,
        Formula::No => false,
        Formula::Leaf(number) => atom_holds(tables, *number, atoms, request, scratch),
        Formula::All(members) => all_hold(tables, members.as_slice(), atoms, request, scratch),
        Formula::Any(members) => any_holds(tables, members.as_slice(), atoms, request, scratch),
        Formula::Not(member) => !holds(tables, member.get(), atoms, request, scratch),
    }
}

#[cycle(truth)]
fn all_hold(
    tables: &Tables<'_>,
    members: &[Formula],
    atoms: &Atoms,
    request: &Request,
    scratch: &mut Scratch,
) -> bool
    requires atoms { tables.now.atoms ≡ atoms.now }
    requires room { tables.now.room ≤ scratch.old }
    ensures answer { result ≡ list_all (λ t. t) (map (truth_at (truths (seen request.now) atoms.now)) members.now) }
    ensures room { scratch.new ≡ scratch.old }
{
    for member in members {
        if !holds(tables, member, atoms, request, scratch) {
            return false;
        }
    }
    true
}

#[cycle(truth)]
fn any_holds(
    tables: &Tables<'_>,
    members: &[Formula],
    atoms: &Atoms,
    request: &Request,
    scratch: &mut Scratch,
) -> bool
    requires atoms { tables.now.atoms ≡ atoms.now }
    requires room { tables.now.room ≤ scratch.old }
    ensures answer { result ≡ list_any (λ t. t) (map (truth_at (truths (seen request.now) atoms.now)) members.now) }
    ensures room { scratch.new ≡ scratch.old }
{
    for member in members {
        if holds(tables, member, atoms, request, scratch) {
            return true;
        }
    }
    false
}

/// Whether the goal is true at the request. Nothing of the search or of routing is asked.
pub(crate) fn is_true(
    alloc: Global,
    goal: &Goal,
    tables: &Tables<'_>,
    request: &Request,
) -> Result<bool, OutOfMemory>
    requires { tables.now.atoms ≡ goal.now.atoms }
    ensures { IfOk result (λ yes. is_true_at request.now goal.now ≡ yes) }
{
    let mut scratch = Scratch::new(alloc, tables.room())?;
    Ok(holds(tables, &goal.formula, &goal.atoms, request, &mut scratch))
}
