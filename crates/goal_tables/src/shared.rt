// Tables that goals share.
ghost use Rattle.std.specs.Prelude.{◌≡◌, ◌++◌, ◌∷◌, [], IfOk, OnOk, OnErr, Contains};
ghost use Rattle.goal_tables.specs.Fields.{AreFields, HasAlways, IsPlaced, ArePlaced, Extends};

use crate::fields::{FieldTables, Place, add_atom, add_field};
use goal_form::{Atom, Atoms, Goal, copy_atom};
use std::alloc::Global;
use std::marker::Model;
use text_base::{Field, OutOfMemory};

/// How many atoms may be there beside twice those of the largest goal.
const SPARE: u32 = 64;

/// The tables of the atoms of goals. A goal mostly has the atoms of the goals before it, so each atom's table is built once.
/// They are dropped where they are more than twice as many as one goal has asked for. Contracts see the fields.
#[derive(Drop)]
pub struct SharedTables {
    fields: Vec<FieldTables>,
    atoms: Atoms,
    /// Where each of the atoms has its tables.
    places: Vec<Place>,
    /// How many atoms the largest goal has.
    most: u32,
}

impl Model for SharedTables {
    ghost use Rattle.std.specs.Prelude.{List};
    ghost use Rattle.std.specs.Coded.{codes};
    ghost use Rattle.rx_term.specs.contracts.terms.Term as of_term;
    ghost use Rattle.goal_tables.specs.declared.fields.FieldTables.{FieldTables};
    ghost use Rattle.goal_tables.specs.Tables.{AreShared};

    ghost Value = { List FieldTables };

    ghost coded = { Prim.hlevel (codes, of_term.the_row.coded) };

    ghost view = { λ s. s.fields.items };

    ghost invariant = { λ s. AreShared s.fields.items s.atoms s.places.items };
}

/// Adds the fields that each request has.
fn add_always(alloc: Global, fields: &mut Vec<FieldTables>) -> Result<(), OutOfMemory>
    requires { AreFields fields.old.items }
    ensures fields { AreFields fields.new.items }
    ensures always { OnOk result (HasAlways fields.new.items) }
{
    add_field(alloc, fields, &Field::Authority)?;
    add_field(alloc, fields, &Field::Target)?;
    add_field(alloc, fields, &Field::Method)?;
    add_field(alloc, fields, &Field::Proto)?;
    add_field(alloc, fields, &Field::Random)?;
    Ok(())
}

/// Adds an atom and its place at the end of both lists, or at none.
fn keep(
    atoms: &mut Atoms,
    places: &mut Vec<Place>,
    atom: Atom,
    place: Place,
) -> Result<(), OutOfMemory>
    requires { Contains atoms.old atom → ⊥ }
    ensures atoms { OnOk result (atoms.new ≡ atoms.old ++ atom ∷ []) }
    ensures places { OnOk result (places.new.items ≡ places.old.items ++ place ∷ []) }
    ensures atoms_kept { OnErr result (atoms.new ≡ atoms.old) }
    ensures places_kept { OnErr result (places.new.items ≡ places.old.items) }
{
    places.push(place)?;
    let added = atoms.number(atom);
    if added.is_err() {
        places.pop();
    }
    added?;
    Ok(())
}

impl SharedTables {
    /// The tables of the fields that each request has, without terms.
    pub fn new(alloc: Global) -> Result<SharedTables, OutOfMemory> {
        let mut fields = Vec::new(alloc);
        add_always(alloc, &mut fields)?;
        Ok(SharedTables {
            fields,
            atoms: Atoms::new(alloc),
            places: Vec::new(alloc),
            most: 0,
        })
    }

    /// The fields, whose numbers are their places. Takes no memory.
    pub(crate) fn fields(&self) -> &[FieldTables]
        ensures same { result.now ≡ self.now }
        ensures fields { AreFields self.now }
        ensures always { HasAlways self.now }
    {
        &self.fields
    }

    /// Where the atom has its tables, which are built if they aren't there.
    fn place(&mut self, alloc: Global, atom: &Atom) -> Result<Place, OutOfMemory>
        ensures extends { Extends self.old self.new }
        ensures placed { IfOk result (IsPlaced self.new atom.now) }
    {
        if let Some(number) = self.atoms.find(atom) {
            return Ok(self.places[number as usize]);
        }
        let place = add_atom(alloc, &mut self.fields, atom)?;
        let atom = copy_atom(alloc, atom)?;
        keep(&mut self.atoms, &mut self.places, atom, place)?;
        Ok(place)
    }

    /// Drops what no goal seems to ask for any more.
    fn make_room(&mut self, alloc: Global, count: u32) -> Result<(), OutOfMemory> {
        self.most = self.most.max(count);
        if self.atoms.count() / 2 > self.most.saturating_add(SPARE) {
            *self = SharedTables::new(alloc)?;
            self.most = count;
        }
        Ok(())
    }

    /// Where each of a goal's atoms has its tables, which are built if they aren't there.
    pub fn places(&mut self, alloc: Global, goal: &Goal) -> Result<Vec<Place>, OutOfMemory>
        ensures { IfOk result (λ places. ArePlaced self.new goal.now.atoms places.items) }
    {
        self.make_room(alloc, goal.atoms.count())?;
        let mut places = Vec::new(alloc);
        for atom in goal.atoms.as_slice() {
            places.push(self.place(alloc, atom)?)?;
        }
        Ok(places)
    }
}
