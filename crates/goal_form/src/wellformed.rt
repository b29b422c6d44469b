// Whether a goal is well formed.
ghost use Rattle.std.specs.Prelude.{◌≡◌, ◌↔◌, ◌<◌, map, IsTrue};
ghost use Rattle.std.specs.List.{list_all};
ghost use Rattle.goal_form.specs.Formulas.{leaves_below};
ghost use Rattle.goal_form.specs.Goals.{IsWellFormed, field_in, is_named_well as named_well};

use crate::atom::{Atom, field_of};
use crate::formula::Formula;
use crate::goal::Goal;
use req_model::is_header_name;
use text_base::Field;

/// Whether each leaf is below the count.
#[cycle(below)]
fn leaves_are_below(formula: &Formula, count: u32) -> bool
    ensures { result ≡ leaves_below count formula.now }
{
    match formula {
        Formula::Yes => true,
        Formula::No => true,
        Formula::Leaf(atom) => *atom < count,
        Formula::All(members) => all_below(members.as_slice(), count),
        Formula::Any(members) => all_below(members.as_slice(), count),
        Formula::Not(member) => leaves_are_below(member.get(), count),
    }
}

#[cycle(below)]
fn all_below(members: &[Formula], count: u32) -> bool
    ensures { result ≡ list_all (λ b. b) (map (leaves_below count) members.now) }
{
    for member in members {
        if !leaves_are_below(member, count) {
            return false;
        }
    }
    true
}

/// Whether a header has a name that requests may have.
fn is_named_well(field: &Field) -> bool
    ensures { result ≡ named_well field.now }
{
    match field {
        Field::Header(name) => is_header_name(name.as_bytes()),
        _ => true,
    }
}

fn are_named_well(atoms: &[Atom]) -> bool
    ensures { result ≡ list_all (λ a. named_well (field_in a)) atoms.now }
{
    for atom in atoms {
        if !is_named_well(field_of(atom)) {
            return false;
        }
    }
    true
}

/// Whether each leaf is the number of an atom, and headers have names that requests may have. Takes no memory.
pub fn is_well_formed(goal: &Goal) -> bool
    ensures { IsTrue result ↔ IsWellFormed goal.now }
{
    let atoms = goal.atoms.as_slice();
    leaves_are_below(&goal.formula, goal.atoms.count()) && are_named_well(atoms)
}
