// The tables of a goal.
ghost use Rattle.std.specs.Prelude.{◌≡◌, ◌≤◌, ◌↔◌, Bool, true, Some, slice_get, IsTrue, IfOk, IfSome, IfNone, length};
ghost use Rattle.rx_term.specs.declared.terms.Term.{Term as AnyTerm};
ghost use Rattle.rx_term.specs.Language.{In};
ghost use Rattle.rx_term.specs.Closing.{Closes, AreApart};
ghost use Rattle.text_base.specs.declared.request.Field.{Field as AnyField};
ghost use Rattle.goal_form.specs.declared.atom.Atom.TheVariants.{Within};
ghost use Rattle.goal_form.specs.Goals.{claims_of, is_required};
ghost use Rattle.goal_form.specs.Valid.{valid_of};
ghost use Rattle.goal_tables.specs.Fields.{ArePlaced, IsFieldAt};
ghost use Rattle.goal_tables.specs.Tables.{IsRoomy, NamesField, IsSilent, AreClaims};

use crate::fields::{FieldTables, Place, find};
use crate::shared::SharedTables;
use goal_form::{Atom, Atoms, Goal};
use rx_auto::{Scratch, Words};
use rx_joint::Joint;
use std::alloc::Global;
use std::marker::Model;
use text_base::{Field, OutOfMemory};

/// What a path says of a field: whether it isn't there, whether a pattern of the configuration stands for it, and which of
/// its terms its texts are in.
#[derive(Drop)]
pub struct FieldClaims<'a> {
    pub joint: &'a Joint,
    pub absent: bool,
    pub user: bool,
    pub choice: Vec<(u32, bool)>,
}

/// The tables of a goal, which are borrowed: those of the fields that each request has and of those that its atoms are
/// about. Contracts see its atoms, the fields, and the room that a test of a text needs.
#[derive(Drop)]
pub struct Tables<'a> {
    atoms: &'a Atoms,
    fields: &'a [FieldTables],
    /// Where each of the atoms has its tables.
    places: Vec<Place>,
    room: u32,
}

impl<'a> Model for Tables<'a> {
    ghost use Rattle.std.specs.Coded.{codes};
    ghost use Rattle.rx_term.specs.contracts.terms.Term as of_term;
    ghost use Rattle.goal_tables.specs.Meanings.{TablesMeaning};
    ghost use Rattle.goal_tables.specs.Tables.{AreTables};

    ghost Value = { TablesMeaning };

    ghost coded = { Prim.hlevel (codes, of_term.the_row.coded) };

    ghost view = { λ t. record { atoms = t.atoms.now; fields = t.fields.now; room = t.room } };

    ghost invariant = { λ t. AreTables t.atoms.now t.fields.now t.places.items t.room };
}

/// The most room that one of the tables needs.
fn most_room(fields: &[FieldTables]) -> u32
    ensures { IsRoomy fields.now result }
{
    let mut most = 0;
    for entry in fields {
        most = most.max(entry.joint.room());
    }
    most
}

impl<'a> Tables<'a> {
    /// The tables of a goal whose atoms have these places. Takes no memory.
    pub fn of(goal: &'a Goal, shared: &'a SharedTables, places: Vec<Place>) -> Tables<'a>
        requires { ArePlaced shared.now goal.now.atoms places.items }
        ensures { result.atoms ≡ goal.now.atoms }
    {
        let fields = shared.fields();
        Tables {
            atoms: &goal.atoms,
            fields,
            places,
            room: most_room(fields),
        }
    }

    /// The room of the scratch that tests of texts need. Takes no memory.
    pub fn room(&self) -> u32
        ensures { result ≡ self.now.room }
    {
        self.room
    }

    /// The number of an atom's term, if the atom is about the field with this number.
    fn term_at(&self, number: u32, at: usize) -> Option<u32>
        ensures some { IfSome result (NamesField self.now.atoms self.now.fields number at) }
        ensures none { IfNone result ((f : AnyField) → IsFieldAt self.now.fields at f → IsSilent (slice_get self.now.atoms number) f) }
    {
        let place = self.places.get(number as usize)?;
        if place.field == at {
            Some(place.term)
        } else {
            None
        }
    }

    /// What the path says of the field with this number.
    fn claims_at(
        &self,
        alloc: Global,
        path: &[(u32, bool)],
        at: usize,
        field: &Field,
    ) -> Result<FieldClaims<'_>, OutOfMemory>
        requires { IsFieldAt self.now.fields at field.now }
        ensures { IfOk result (AreClaims self.now path.now field.now) }
    {
        let Some(entry) = self.fields.get(at) else {
            unreachable!()
        };
        let joint = &entry.joint;
        let mut absent = false;
        let mut user = false;
        let mut choice = Vec::new(alloc);
        for step in path {
            let (number, holds) = *step;
            if let Some(term) = self.term_at(number, at) {
                match self.atoms.get(number) {
                    Some(Atom::Within { user: own, .. }) => {
                        user = user | *own;
                        choice.push((term, holds))?;
                    }
                    Some(Atom::Present(_)) => absent = absent | !holds,
                    None => {}
                }
            }
        }
        Ok(FieldClaims {
            joint,
            absent,
            user,
            choice,
        })
    }

    /// What the path says of a field, by the numbers of terms. It is there where the path requires the field.
    pub fn claims(
        &self,
        alloc: Global,
        path: &[(u32, bool)],
        field: &Field,
    ) -> Result<Option<FieldClaims<'_>>, OutOfMemory>
        ensures some { IfOk result (λ found. IfSome found (AreClaims self.now path.now field.now)) }
        ensures none { IfOk result (λ found. IfNone found (is_required self.now.atoms path.now field.now ≡ true → ⊥)) }
    {
        match find(self.fields, field) {
            Some(at) => Ok(Some(self.claims_at(alloc, path, at, field)?)),
            None => Ok(None),
        }
    }

    /// Whether the text is in the term of an atom. Takes no memory.
    pub fn holds(&self, number: u32, text: &[u8], scratch: &mut Scratch) -> bool
        requires { self.now.room ≤ scratch.old }
        ensures room { scratch.new ≡ scratch.old }
        ensures is_in { (f : AnyField) (term : AnyTerm) (user : Bool) → slice_get self.now.atoms number ≡ Some (Within f term user)
            → (IsTrue result ↔ In text.now term) }
    {
        match self.atoms.get(number) {
            Some(Atom::Within { .. }) => {
                let Place { field, term } = self.places[number as usize];
                match self.fields.get(field) {
                    Some(entry) => entry.joint.has(term, text, scratch),
                    None => false,
                }
            }
            _ => false,
        }
    }

    /// Whether the words close over what the path claims of a field that it requires: then no valid text of the field is as
    /// the path says.
    pub fn closes(
        &self,
        alloc: Global,
        path: &[(u32, bool)],
        field: &Field,
        words: &Words,
    ) -> Result<bool, OutOfMemory>
        requires { is_required self.now.atoms path.now field.now ≡ true }
        ensures { IfOk result (λ yes. IsTrue yes ↔ Closes (valid_of field.now) (claims_of self.now.atoms path.now field.now) words.now.list) }
    {
        match self.claims(alloc, path, field)? {
            Some(claims) => claims.joint.closes(alloc, &claims.choice, words),
            None => Ok(false),
        }
    }

    /// Whether the words have pairwise different states over what the path claims of a field that it requires, and none is a
    /// valid text as the path says.
    pub fn are_apart(
        &self,
        alloc: Global,
        path: &[(u32, bool)],
        field: &Field,
        words: &Words,
    ) -> Result<bool, OutOfMemory>
        requires { is_required self.now.atoms path.now field.now ≡ true }
        ensures { IfOk result (λ yes. IsTrue yes ↔ AreApart (valid_of field.now) (claims_of self.now.atoms path.now field.now) words.now.list) }
    {
        match self.claims(alloc, path, field)? {
            Some(claims) => claims.joint.are_apart(alloc, &claims.choice, words),
            None => Ok(false),
        }
    }
}
