//! The tables of a valid term and of further terms, built once for many searches and tests.

ghost use Rattle.std.specs.Prelude.{◌≡◌, ◌<◌, ◌≤◌, ◌+◌, ◌++◌, ◌∷◌, ◌↔◌, [], ℕ, length, IsTrue, IfOk, IfErr, OnOk};
ghost use Rattle.rx_term.specs.Language.{In};
ghost use Rattle.rx_term.specs.Closing.{Meets, Closes, AreApart};
ghost use Rattle.rx_auto.specs.Node.{term_at};
ghost use Rattle.rx_joint.specs.Claims.{AreChosen, chosen, all_claims, IsJoint};

use crate::chosen::Chosen;
use crate::closing;
use crate::hints::{Hint, hints_of};
use rx_auto::{Scratch, Table, Words, add_sets, first_bytes};
use rx_term::{ByteSet, OutOfMemory, Term};
use std::alloc::{AllocError, Global};
use std::marker::Model;

/// The tables of a valid term and of further terms, with one byte for each class of the alphabet under all their byte
/// sets. A further term's number is its place among these, counted from 0.
#[derive(Drop)]
pub struct Joint {
    tables: Vec<Table>,
    hints: Vec<Vec<Hint>>,
    sets: Vec<ByteSet>,
    bytes: Vec<u8>,
    room: u32,
}

/// Contracts see the terms, and the room that a test of a text needs.
impl Model for Joint {
    ghost use Rattle.std.specs.Coded.{codes};
    ghost use Rattle.rx_term.specs.contracts.terms.Term as of_term;
    ghost use Rattle.rx_joint.specs.Meanings.{JointMeaning, joint_of, IsField};

    ghost Value = { JointMeaning };

    ghost coded = { Prim.hlevel (codes, of_term.the_row.coded) };

    ghost view = { λ j. joint_of j.tables.items j.room };

    ghost invariant = { λ j. IsField j.tables.items j.sets.items j.bytes.items j.room };
}

impl Joint {
    /// The table of the valid term alone.
    pub fn new(alloc: Global, valid: &Term) -> Result<Joint, OutOfMemory>
        ensures valid { IfOk result (λ j. j.valid ≡ valid.now) }
        ensures terms { IfOk result (λ j. j.terms ≡ []) }
    {
        let table = Table::build(alloc, valid)?;
        let room = table.room();
        table.known();
        let mut sets = Vec::new(alloc);
        add_sets(&mut sets, valid)?;
        let bytes = first_bytes(alloc, &sets)?;
        let mut hints = Vec::new(alloc);
        hints.push(hints_of(alloc, &table)?)?;
        let mut tables = Vec::new(alloc);
        tables.push(table)?;
        Ok(Joint {
            tables,
            hints,
            sets,
            bytes,
            room,
        })
    }

    /// Adds the table of one more term, whose number is the count of the terms before it. More than 4,294,967,294
    /// terms are answered as want of memory. After an error all is as before.
    pub fn add(&mut self, alloc: Global, term: &Term) -> Result<(), OutOfMemory>
        ensures added { OnOk result ((self.new.valid ≡ self.old.valid) × (self.new.terms ≡ self.old.terms ++ term.now ∷ [])) }
        ensures kept { IfErr result (λ _. self.new ≡ self.old) }
    {
        if self.tables.len() >= 4294967295 {
            return Err(AllocError);
        }
        let table = Table::build(alloc, term)?;
        table.known();
        let room = self.room.max(table.room());
        let mut sets = Vec::from_slice(alloc, &self.sets)?;
        add_sets(&mut sets, term)?;
        let bytes = first_bytes(alloc, &sets)?;
        self.hints.push(hints_of(alloc, &table)?)?;
        self.tables.push(table)?;
        self.sets = sets;
        self.bytes = bytes;
        self.room = room;
        Ok(())
    }

    /// How many further terms there are. Takes no memory.
    pub fn count(&self) -> u32
        ensures { result ≡ length self.now.terms }
    {
        (self.tables.len() - 1) as u32
    }

    /// The room that the scratch of a test needs. Takes no memory.
    pub fn room(&self) -> u32
        ensures { result ≡ self.now.room }
    {
        self.room
    }

    /// Whether the text is in the valid term. Takes no memory.
    pub fn is_valid(&self, text: &[u8], scratch: &mut Scratch) -> bool
        requires { self.now.room ≤ scratch.old }
        ensures room { scratch.new ≡ scratch.old }
        ensures is_in { IsTrue result ↔ In text.now self.now.valid }
    {
        self.tables[0].matches(text, scratch)
    }

    /// Whether the text is in the term of a number. Takes no memory.
    pub fn has(&self, number: u32, text: &[u8], scratch: &mut Scratch) -> bool
        requires number { number < length self.now.terms }
        requires room { self.now.room ≤ scratch.old }
        ensures room { scratch.new ≡ scratch.old }
        ensures is_in { IsTrue result ↔ In text.now (term_at self.now.terms number) }
    {
        self.tables[number as usize + 1].matches(text, scratch)
    }

    /// Whether the text is valid and in each chosen term exactly where the choice says so. Takes no memory.
    pub fn meets(&self, choice: &[(u32, bool)], text: &[u8], scratch: &mut Scratch) -> bool
        requires choice { AreChosen self.now.terms choice.now }
        requires room { self.now.room ≤ scratch.old }
        ensures room { scratch.new ≡ scratch.old }
        ensures meets { IsTrue result ↔ Meets self.now.valid (chosen self.now.terms choice.now) text.now }
    {
        if !self.is_valid(text, scratch) {
            return false;
        }
        for claim in choice {
            let (number, holds) = *claim;
            if self.has(number, text, scratch) != holds {
                return false;
            }
        }
        true
    }

    /// The tables of the valid term and of the choice, to be stepped together. A number may stand in the choice more
    /// than once. A choice of more than 4,294,967,294 is answered as want of memory.
    pub fn choose(&self, alloc: Global, choice: &[(u32, bool)]) -> Result<Chosen<'_>, OutOfMemory>
        requires { AreChosen self.now.terms choice.now }
        ensures { IfOk result (λ c. IsJoint c.tables c.holds c.bytes (all_claims self.now.valid (chosen self.now.terms choice.now))) }
    {
        if choice.len() >= 4294967295 {
            return Err(AllocError);
        }
        let _ = &self.tables;
        let mut numbers = Vec::new(alloc);
        let mut holds = Vec::new(alloc);
        let mut wanted = Vec::new(alloc);
        numbers.push(0u32)?;
        holds.push(true)?;
        wanted.push(0u32)?;
        for claim in choice {
            let (number, wants) = *claim;
            if wants {
                wanted.push(numbers.len() as u32)?;
            }
            numbers.push(number + 1)?;
            holds.push(wants)?;
        }
        Ok(Chosen {
            tables: &self.tables,
            hints: &self.hints,
            bytes: &self.bytes,
            numbers,
            holds,
            wanted,
        })
    }

    /// Whether the words close over the valid term and the choice, as `closes` tells it over literals.
    pub fn closes(
        &self,
        alloc: Global,
        choice: &[(u32, bool)],
        words: &Words,
    ) -> Result<bool, OutOfMemory>
        requires { AreChosen self.now.terms choice.now }
        ensures { IfOk result (λ yes. IsTrue yes ↔ Closes self.now.valid (chosen self.now.terms choice.now) words.now.list) }
    {
        closing::closed(alloc, &self.choose(alloc, choice)?, words.list.as_slice())
    }

    /// Whether the words have pairwise different states over the valid term and the choice and none meets it, as
    /// `are_apart` tells it over literals.
    pub fn are_apart(
        &self,
        alloc: Global,
        choice: &[(u32, bool)],
        words: &Words,
    ) -> Result<bool, OutOfMemory>
        requires { AreChosen self.now.terms choice.now }
        ensures { IfOk result (λ yes. IsTrue yes ↔ AreApart self.now.valid (chosen self.now.terms choice.now) words.now.list) }
    {
        closing::apart(alloc, &self.choose(alloc, choice)?, words.list.as_slice())
    }
}
