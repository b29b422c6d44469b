// Formulas of one atom, and formulas put together.
ghost use Rattle.std.specs.Prelude.{◌≡◌, [], ◌∷◌, IfOk};
ghost use Rattle.goal_form.specs.Numbers.{Grows};
ghost use Rattle.goal_form.specs.Conditions.{IsMeant};
ghost use Rattle.goal_form.specs.declared.sight.Condition as of;
ghost use Rattle.goal_form.specs.declared.formula.Formula as made;
ghost use Rattle.goal_form.specs.Leaves.{within as is_within, present as is_present};

use crate::atom::Atom;
use crate::atoms::Atoms;
use crate::fields::{copy_field, is_always};
use crate::formula::Formula;
use rx_term::Term;
use sqlite_items::{Boxed, Items};
use std::alloc::Global;
use text_base::{Field, OutOfMemory};

/// A leaf for the atom.
fn leaf(atoms: &mut Atoms, atom: Atom) -> Result<Formula, OutOfMemory>
    ensures kept { Grows atoms.old atoms.new }
    ensures meant { IfOk result (λ f. IsMeant atoms.new f (of.Leaf atom)) }
{
    Ok(Formula::Leaf(atoms.number(atom)?))
}

/// The field is there with a text in the term. `user` tells that the term is made from a pattern of the configuration.
pub fn within(
    alloc: Global,
    field: &Field,
    term: Term,
    user: bool,
    atoms: &mut Atoms,
) -> Result<Formula, OutOfMemory>
    ensures kept { Grows atoms.old atoms.new }
    ensures meant { IfOk result (λ f. IsMeant atoms.new f (is_within field.now term user)) }
{
    let field = copy_field(alloc, field)?;
    leaf(atoms, Atom::Within { field, term, user })
}

/// The field is there.
pub fn present(alloc: Global, field: &Field, atoms: &mut Atoms) -> Result<Formula, OutOfMemory>
    ensures kept { Grows atoms.old atoms.new }
    ensures meant { IfOk result (λ f. IsMeant atoms.new f (is_present field.now)) }
{
    if is_always(field) {
        return Ok(Formula::Yes);
    }
    let field = copy_field(alloc, field)?;
    leaf(atoms, Atom::Present(field))
}

/// The formula's opposite.
pub fn negated(alloc: Global, formula: Formula) -> Result<Formula, OutOfMemory>
    ensures { IfOk result (λ f. f ≡ made.Not formula) }
{
    Ok(Formula::Not(Boxed::new(alloc, formula)?))
}

/// Both formulas.
pub fn all_of(alloc: Global, first: Formula, second: Formula) -> Result<Formula, OutOfMemory>
    ensures { IfOk result (λ f. f ≡ made.All (first ∷ second ∷ [])) }
{
    let mut members = Items::new(alloc);
    members.push(first)?;
    members.push(second)?;
    Ok(Formula::All(members))
}

/// One of the formulas.
pub fn any_of(alloc: Global, first: Formula, second: Formula) -> Result<Formula, OutOfMemory>
    ensures { IfOk result (λ f. f ≡ made.Any (first ∷ second ∷ [])) }
{
    let mut members = Items::new(alloc);
    members.push(first)?;
    members.push(second)?;
    Ok(Formula::Any(members))
}
