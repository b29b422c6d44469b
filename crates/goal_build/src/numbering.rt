// Atoms numbered anew, by their first places in formulas from the left.
ghost use Rattle.std.specs.Prelude.{◌≡◌, ◌<◌, true, map, length, replicate, None, IfOk};
ghost use Rattle.std.specs.List.{list_all};
ghost use Rattle.goal_form.specs.Formulas.{leaves_below};
ghost use Rattle.goal_build.specs.Parts.{asked};
ghost use Rattle.goal_build.specs.Renumbering.{IsKept, IsRenumbered, AreRenumbered, AreRefused, IsFound};

use goal_form::{Atoms, Formula, copy_atom, negated};
use match_tree::Guard;
use sqlite_items::Items;
use std::alloc::Global;
use text_base::OutOfMemory;

/// No number yet for each of so many atoms.
pub(crate) fn no_places(alloc: Global, count: u32) -> Result<Vec<Option<u32>>, OutOfMemory>
    ensures { IfOk result (λ v. v.items ≡ replicate count None) }
{
    let mut places = Vec::new(alloc);
    for _ in 0..count {
        places.push(None)?;
    }
    Ok(places)
}

/// The new number of an atom of the pool, which `places` keeps where the atom has come before.
fn new_number(
    alloc: Global,
    pool: &Atoms,
    places: &mut Vec<Option<u32>>,
    atoms: &mut Atoms,
    number: u32,
) -> Result<u32, OutOfMemory>
    requires below { number < length pool.now }
    requires kept { IsKept pool.now places.old.items atoms.old }
    ensures kept { IsKept pool.now places.new.items atoms.new }
    ensures found { IfOk result (λ k. IsFound pool.now number atoms.old atoms.new k) }
{
    if let Some(place) = places[number as usize] {
        return Ok(place);
    }
    let atom = copy_atom(alloc, pool.at(number))?;
    let place = atoms.number(atom)?;
    places[number as usize] = Some(place);
    Ok(place)
}

/// The formula over atoms numbered anew.
#[cycle(renumber)]
pub(crate) fn renumber(
    alloc: Global,
    pool: &Atoms,
    places: &mut Vec<Option<u32>>,
    atoms: &mut Atoms,
    formula: &Formula,
) -> Result<Formula, OutOfMemory>
    requires below { leaves_below (length pool.now) formula.now ≡ true }
    requires kept { IsKept pool.now places.old.items atoms.old }
    ensures kept { IsKept pool.now places.new.items atoms.new }
    ensures done { IfOk result (λ f. IsRenumbered pool.now formula.now atoms.old atoms.new f) }
{
    match formula {
        Formula::Yes => Ok(Formula::Yes),
        Formula::No => Ok(Formula::No),
        Formula::Leaf(number) => Ok(Formula::Leaf(new_number(
            alloc, pool, places, atoms, *number,
        )?)),
        Formula::All(members) => Ok(Formula::All(renumber_all(
            alloc,
            pool,
            places,
            atoms,
            members.as_slice(),
        )?)),
        Formula::Any(members) => Ok(Formula::Any(renumber_all(
            alloc,
            pool,
            places,
            atoms,
            members.as_slice(),
        )?)),
        Formula::Not(member) => {
            let inner = renumber(alloc, pool, places, atoms, member.get())?;
            Ok(negated(alloc, inner)?)
        }
    }
}

/// The formulas over atoms numbered anew, in order.
#[cycle(renumber)]
pub(crate) fn renumber_all(
    alloc: Global,
    pool: &Atoms,
    places: &mut Vec<Option<u32>>,
    atoms: &mut Atoms,
    formulas: &[Formula],
) -> Result<Items<Formula>, OutOfMemory>
    requires below { list_all (λ b. b) (map (leaves_below (length pool.now)) formulas.now) ≡ true }
    requires kept { IsKept pool.now places.old.items atoms.old }
    ensures kept { IsKept pool.now places.new.items atoms.new }
    ensures done { IfOk result (λ fs. AreRenumbered pool.now formulas.now atoms.old atoms.new fs) }
{
    let mut list = Items::new(alloc);
    for formula in formulas {
        list.push(renumber(alloc, pool, places, atoms, formula)?)?;
    }
    Ok(list)
}

/// The opposites of guards over atoms numbered anew, in order.
pub(crate) fn renumber_none(
    alloc: Global,
    pool: &Atoms,
    places: &mut Vec<Option<u32>>,
    atoms: &mut Atoms,
    guards: &[Guard],
) -> Result<Items<Formula>, OutOfMemory>
    requires below { list_all (λ b. b) (map (leaves_below (length pool.now)) (asked guards.now)) ≡ true }
    requires kept { IsKept pool.now places.old.items atoms.old }
    ensures kept { IsKept pool.now places.new.items atoms.new }
    ensures done { IfOk result (λ fs. AreRefused pool.now (asked guards.now) atoms.old atoms.new fs) }
{
    let mut list = Items::new(alloc);
    for guard in guards {
        let formula = renumber(alloc, pool, places, atoms, &guard.formula)?;
        list.push(negated(alloc, formula)?)?;
    }
    Ok(list)
}
