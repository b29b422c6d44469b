// Copies of atoms and formulas.
ghost use Rattle.std.specs.Prelude.{◌≡◌, IfOk};

use crate::atom::Atom;
use crate::compose::negated;
use crate::fields::copy_field;
use crate::formula::Formula;
use sqlite_items::Items;
use std::alloc::Global;
use text_base::OutOfMemory;

/// An atom that equals this one.
pub fn copy_atom(alloc: Global, atom: &Atom) -> Result<Atom, OutOfMemory>
    ensures { IfOk result (λ a. a ≡ atom.now) }
{
    match atom {
        Atom::Present(field) => Ok(Atom::Present(copy_field(alloc, field)?)),
        Atom::Within { field, term, user } => Ok(Atom::Within {
            field: copy_field(alloc, field)?,
            term: term.copy(alloc)?,
            user: *user,
        }),
    }
}

/// A formula that equals this one.
#[cycle(copy)]
pub fn copy_formula(alloc: Global, formula: &Formula) -> Result<Formula, OutOfMemory>
    ensures { IfOk result (λ f. f ≡ formula.now) }
{
    match formula {
        Formula::Yes => Ok(Formula::Yes),
        Formula::No => Ok(Formula::No),
        Formula::Leaf(atom) => Ok(Formula::Leaf(*atom)),
        Formula::All(members) => Ok(Formula::All(copy_formulas(alloc, members.as_slice())?)),
        Formula::Any(members) => Ok(Formula::Any(copy_formulas(alloc, members.as_slice())?)),
        Formula::Not(member) => {
            let inner = copy_formula(alloc, member.get())?;
            negated(alloc, inner)
        }
    }
}

#[cycle(copy)]
fn copy_formulas(alloc: Global, formulas: &[Formula]) -> Result<Items<Formula>, OutOfMemory>
    ensures { IfOk result (λ fs. fs ≡ formulas.now) }
{
    let mut list = Items::new(alloc);
    for formula in formulas {
        list.push(copy_formula(alloc, formula)?)?;
    }
    Ok(list)
}
