// What a path says of a field.
ghost use Rattle.std.specs.Prelude.{◌≡◌};
ghost use Rattle.std.specs.Option.{option_copied};
ghost use Rattle.goal_form.specs.Goals.{demands, denies, is_required as required, is_claimed_absent as claimed_absent, is_user_of, has_user as user_on};

use crate::atom::{Atom, field_of};
use crate::fields::{is_always, same_field};
use crate::goal::Goal;
use text_base::Field;

fn demands_field(atom: Option<&Atom>, field: &Field) -> bool
    ensures { result ≡ demands (option_copied atom.entry) field.now }
{
    match atom {
        Some(Atom::Present(f)) => same_field(f, field),
        Some(Atom::Within { field: f, .. }) => same_field(f, field),
        None => false,
    }
}

fn denies_field(atom: Option<&Atom>, field: &Field) -> bool
    ensures { result ≡ denies (option_copied atom.entry) field.now }
{
    match atom {
        Some(Atom::Present(f)) => same_field(f, field),
        _ => false,
    }
}

fn is_user(atom: Option<&Atom>, field: &Field) -> bool
    ensures { result ≡ is_user_of (option_copied atom.entry) field.now }
{
    match atom {
        Some(Atom::Within { field: f, user, .. }) => same_field(f, field) && *user,
        _ => false,
    }
}

/// Whether the field is always there, or the path says that it is. Takes no memory.
pub fn is_required(goal: &Goal, path: &[(u32, bool)], field: &Field) -> bool
    ensures { result ≡ required goal.now.atoms path.now field.now }
{
    if is_always(field) {
        return true;
    }
    for step in path {
        if step.1 && demands_field(goal.atoms.get(step.0), field) {
            return true;
        }
    }
    false
}

/// Whether the path says that the field isn't there. Takes no memory.
pub fn is_claimed_absent(goal: &Goal, path: &[(u32, bool)], field: &Field) -> bool
    ensures { result ≡ claimed_absent goal.now.atoms path.now field.now }
{
    for step in path {
        if !step.1 && denies_field(goal.atoms.get(step.0), field) {
            return true;
        }
    }
    false
}

/// Whether a pattern of the configuration stands for the field on the path. Takes no memory.
pub fn has_user(goal: &Goal, path: &[(u32, bool)], field: &Field) -> bool
    ensures { result ≡ user_on goal.now.atoms path.now field.now }
{
    for step in path {
        if is_user(goal.atoms.get(step.0), field) {
            return true;
        }
    }
    false
}
