//! Chosen tables of a joint, stepped together.

ghost use Rattle.std.specs.Prelude.{◌≡◌, ◌<◌, ◌↔◌, [], ℕ, List, length, IsTrue, IfOk, OnOk};
ghost use Rattle.rx_auto.specs.Edges.{AddsEdges};
ghost use Rattle.rx_joint.specs.Joint.{AreNumbers, IsLed, Stands};
ghost use Rattle.rx_joint.specs.Claims.{AreReady, MeetsTables};

use crate::hints::Hint;
use crate::places::{PLACES, begin, ends_as, gather};
use rx_auto::{Edge, Table};
use rx_term::{ByteSet, OutOfMemory};
use std::alloc::Global;
use std::marker::Model;

/// The table of the valid term, and the tables that a choice names, in its order. They are borrowed. A table's number
/// is its place among these.
#[derive(Drop)]
pub struct Chosen<'a> {
    pub(crate) tables: &'a [Table],
    pub(crate) hints: &'a [Vec<Hint>],
    pub(crate) bytes: &'a [u8],
    pub(crate) numbers: Vec<u32>,
    pub(crate) holds: Vec<bool>,
    pub(crate) wanted: Vec<u32>,
}

/// How far a state is from a text: how many tables that have to have the text don't end there, and about how many
/// bytes lead to the nearest end of one of these.
#[derive(Clone, Copy)]
struct Distance {
    tables: u32,
    bytes: u32,
}

impl Distance {
    /// The same with one more table, from whose end it is so many bytes.
    fn with(self, bytes: u32) -> Distance {
        if bytes == 0 {
            return self;
        }
        Distance {
            tables: self.tables.saturating_add(1),
            bytes: if self.tables == 0 {
                bytes
            } else {
                self.bytes.min(bytes)
            },
        }
    }
}

/// Contracts see the chosen tables in order, whether each has to have the text, and the bytes to step by.
impl<'a> Model for Chosen<'a> {
    ghost use Rattle.std.specs.Coded.{codes};
    ghost use Rattle.rx_term.specs.contracts.terms.Term as of_term;
    ghost use Rattle.rx_joint.specs.Meanings.{ChosenMeaning, chosen_of, IsChosen};

    ghost Value = { ChosenMeaning };

    ghost coded = { Prim.hlevel (codes, of_term.the_row.coded) };

    ghost view = { λ c. chosen_of c.tables.now c.bytes.now c.numbers.items c.holds.items };

    ghost invariant = { λ c. IsChosen c.tables.now c.bytes.now c.numbers.items c.holds.items c.wanted.items };
}

impl<'a> Chosen<'a> {
    /// The bytes to step by, one for each class: each byte of the alphabet leads from each state to where one of them
    /// does.
    pub fn bytes(&self) -> &[u8]
        ensures { result.now ≡ self.now.bytes }
    {
        self.bytes
    }

    /// The state of the empty word.
    pub fn empty_state(&self, alloc: Global) -> Result<Vec<u64>, OutOfMemory>
        ensures { IfOk result (λ v. Stands self.now.tables v.items []) }
    {
        let mut to = Vec::new(alloc);
        begin(self.numbers.len() as u32, &mut to)?;
        Ok(to)
    }

    /// The edges of a state, in place of what the list held: what its places read, and where that leads.
    pub fn edges(&self, from: &[u64], to: &mut Vec<Edge>) -> Result<(), OutOfMemory>
        requires { AreNumbers self.now.tables from.now }
        ensures { OnOk result (AddsEdges [] to.new.items (λ b x. IsLed self.now.tables from.now b x)) }
    {
        to.clear();
        gather(self.tables, &self.numbers, from, to)
    }

    /// Whether the words that have this state meet the claims.
    pub fn meets(&self, list: &[u64]) -> bool
        requires { AreNumbers self.now.tables list.now }
        ensures { (w : List ℕ) → Stands self.now.tables list.now w → (IsTrue result ↔ MeetsTables self.now.tables self.now.holds w) }
    {
        ends_as(self.tables, &self.numbers, &self.holds, &self.wanted, list)
    }

    /// The hint on a live place.
    fn hint(&self, number: u64) -> Option<Hint> {
        let table = self.numbers.get((number / PLACES) as usize)?;
        let row = self.hints.get(*table as usize)?;
        row.get((number % PLACES) as usize).copied()
    }

    /// How far a state seems from a text that meets the claims, the least number for the nearest. None where no text
    /// can begin so, because a table that has to have the text has no live place, or a table that must not have it is
    /// seen to have each further text. It tells where to look first, and nothing else.
    pub fn score(&self, list: &[u64]) -> Option<u32> {
        let mut distance = Distance {
            tables: 0,
            bytes: 0,
        };
        let mut found: usize = 0;
        let mut last = u64::MAX;
        let mut bytes = 0;
        for number in list {
            let slot = *number / PLACES;
            let hint = self.hint(*number)?;
            if *self.holds.get(slot as usize)? {
                if slot != last {
                    distance = distance.with(bytes);
                    found = found.saturating_add(1);
                    last = slot;
                    bytes = hint.distance;
                }
                bytes = bytes.min(hint.distance);
            } else if hint.all {
                return None;
            }
        }
        if found < self.wanted.len() {
            return None;
        }
        let distance = distance.with(bytes);
        Some(
            distance
                .tables
                .saturating_mul(65536)
                .saturating_add(distance.bytes.min(65535)),
        )
    }

    /// The bytes that each table that has to have the text can read by these edges. It tells which bytes to try
    /// first, and nothing else.
    pub fn readable(&self, edges: &[Edge]) -> ByteSet {
        let mut all = u128::MAX;
        let mut some = u128::MAX;
        let mut last = u64::MAX;
        for edge in edges {
            let slot = edge.to / PLACES;
            if self.holds.get(slot as usize).copied().unwrap_or(false) {
                if slot != last {
                    all &= some;
                    some = 0;
                    last = slot;
                }
                some |= edge.set.0;
            }
        }
        ByteSet(all & some)
    }

    /// The tables can be stepped, and the bytes are of the alphabet.
    pub fn known(&self)
        ensures { AreReady self.now.tables self.now.holds self.now.bytes }
    {
        let _ = &self.tables;
    }
}
