// Texts that were found before.
ghost use Rattle.std.specs.Prelude.{◌≡◌, ◌≤◌, IfOk, IfSome};
ghost use Rattle.rx_term.specs.Language.{In};
ghost use Rattle.rx_term.specs.Closing.{Meets};
ghost use Rattle.rx_joint.specs.Claims.{AreChosen, chosen};
ghost use Rattle.goal_tables.specs.Fields.{IsJointOf};
ghost use Rattle.split_seek.specs.Known.{IsPlaceOf};

use crate::kept::{Kept, meets};
use goal_form::same_field;
use goal_tables::{Joint, Tables};
use rx_auto::Scratch;
use std::alloc::Global;
use std::marker::Model;
use text_base::{Field, OutOfMemory};

/// The text that was found last for each field of the tables, and the scratch in which texts are tested. A path has
/// most of its claims from the paths before it, so what is known of a text is kept beside it. Contracts see the tables.
#[derive(Drop)]
pub struct Hints<'a> {
    tables: &'a Tables<'a>,
    kept: Vec<Kept>,
    scratch: Scratch,
}

impl<'a> Model for Hints<'a> {
    ghost use Rattle.std.specs.Coded.{codes};
    ghost use Rattle.rx_term.specs.contracts.terms.Term as of_term;
    ghost use Rattle.goal_tables.specs.Meanings.{TablesMeaning};
    ghost use Rattle.split_seek.specs.Known.{AreHints};

    ghost Value = { TablesMeaning };

    ghost coded = { Prim.hlevel (codes, of_term.the_row.coded) };

    ghost view = { λ h. h.tables.now };

    ghost invariant = { λ h. AreHints h.tables.now h.kept.items h.scratch };
}

/// Where the field's text stands.
fn place_of(kept: &[Kept], field: &Field) -> Option<usize>
    ensures { IfSome result (IsPlaceOf kept.now field.now) }
{
    for (i, entry) in kept.iter().enumerate() {
        if same_field(&entry.field, field) {
            return Some(i);
        }
    }
    None
}

impl<'a> Hints<'a> {
    /// No texts, and a scratch in which they can be tested.
    pub fn new(alloc: Global, tables: &'a Tables<'a>) -> Result<Hints<'a>, OutOfMemory>
        ensures { IfOk result (λ h. h ≡ tables.now) }
    {
        Ok(Hints {
            tables,
            kept: Vec::new(alloc),
            scratch: Scratch::new(alloc, tables.room())?,
        })
    }

    /// The last text of the field, if it is as the choice says.
    pub fn recall(
        &mut self,
        alloc: Global,
        field: &Field,
        joint: &Joint,
        choice: &[(u32, bool)],
    ) -> Result<Option<Vec<u8>>, OutOfMemory>
        requires joint { IsJointOf self.old.fields field.now joint.now }
        requires room { joint.now.room ≤ self.old.room }
        requires choice { AreChosen joint.now.terms choice.now }
        ensures hints { self.new ≡ self.old }
        ensures meets { IfOk result (λ found. IfSome found (λ text. Meets joint.now.valid (chosen joint.now.terms choice.now) text.items)) }
    {
        let Some(place) = place_of(&self.kept, field) else {
            return Ok(None);
        };
        let entry = &mut self.kept[place];
        let text = entry.text.as_slice();
        if meets(joint, choice, text, &mut entry.known, &mut self.scratch) {
            Ok(Some(Vec::from_slice(alloc, text)?))
        } else {
            Ok(None)
        }
    }

    /// Keeps a valid text in place of the field's last one. Nothing is known of it yet.
    pub fn keep(
        &mut self,
        alloc: Global,
        field: &Field,
        joint: &Joint,
        text: &[u8],
    ) -> Result<(), OutOfMemory>
        requires joint { IsJointOf self.old.fields field.now joint.now }
        requires valid { In text.now joint.now.valid }
        ensures { self.new ≡ self.old }
    {
        let entry = Kept::new(alloc, field, joint, text)?;
        match place_of(&self.kept, field) {
            Some(place) => self.kept[place] = entry,
            None => self.kept.push(entry)?,
        }
        Ok(())
    }

    /// Whether the text is in the term of an atom.
    pub fn holds(&mut self, atom: u32, text: &[u8]) -> bool
        ensures { self.new ≡ self.old }
    {
        self.tables.holds(atom, text, &mut self.scratch)
    }
}
