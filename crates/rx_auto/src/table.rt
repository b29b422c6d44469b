//! The table of a term, and the sets of its partial derivatives.

ghost use Rattle.std.specs.Prelude.{◌≡◌, ◌<◌, ◌≤◌, ◌+◌, ◌^◌, ◌↔◌, ◌∷◌, [], ℕ, true, List, length, IfOk, OnOk, IsTrue};
ghost use Rattle.rx_term.specs.declared.terms.Term.{Term};
ghost use Rattle.rx_term.specs.Language.{Has, In, after, accepting, nullable};
ghost use Rattle.rx_auto.specs.Node.{term_at};
ghost use Rattle.rx_auto.specs.Marks.{AreBelow, IsMarked};
ghost use Rattle.rx_auto.specs.Live.{IsBehind, HasPlaces};
ghost use Rattle.rx_auto.specs.Edges.{AddsEdges};
ghost use Rattle.rx_auto.specs.Classes.{sets_of, AreClasses, IsClassOf, IsClassCount};

use crate::classes::Classes;
use crate::dag::Dag;
use crate::edges::{Edge, put_edges};
use crate::firsts::firsts_of;
use crate::marks::advance;
use crate::members::Members;
use crate::parts::{Parts, Spot};
use crate::reach::{enter_from, put_marked, reach};
use crate::sets::add_sets;
use crate::states::{Scratch, StateSet};
use crate::ways::{Way, Ways};
use rx_term::{OutOfMemory, Term};
use std::alloc::Global;
use std::marker::Model;

/// The partial derivatives of a term, one for each position, and where each leads.
#[derive(Drop)]
pub struct Table {
    dag: Dag,
    ways: Ways,
    spots: Vec<Spot>,
    reps: Vec<u32>,
    classes: Classes,
}

/// Contracts see a table as the list of the derivatives, its own term first, and the room of a step.
impl Model for Table {
    ghost use Rattle.std.specs.Coded.{codes};
    ghost use Rattle.rx_term.specs.contracts.terms.Term as of_term;
    ghost use Rattle.rx_auto.specs.Table.{TableMeaning, meaning_of, IsWhole};

    ghost Value = { TableMeaning };

    ghost coded = { Prim.hlevel (codes, of_term.the_row.coded) };

    ghost view = { λ t. meaning_of t.dag t.ways t.spots.items };

    ghost invariant = { λ t. IsWhole t.dag t.ways t.spots.items t.reps.items t.classes.firsts t.classes.numbers };
}

/// The classes of the bytes under the sets of a term.
fn classes_of(alloc: Global, term: &Term) -> Result<Classes, OutOfMemory>
    ensures { IfOk result (λ c. AreClasses (sets_of term.now) c.firsts c.numbers) }
{
    let mut sets = Vec::new(alloc);
    add_sets(&mut sets, term)?;
    Classes::of(alloc, &sets)
}

impl Table {
    /// The table of a term. More than 4,294,967,295 positions, or nodes of their ways, are answered as want of memory.
    pub fn build(alloc: Global, term: &Term) -> Result<Table, OutOfMemory>
        ensures { IfOk result (λ t. (0 < length t.terms) × (term_at t.terms 0 ≡ term.now)) }
    {
        let classes = classes_of(alloc, term)?;
        let parts = Parts::of(alloc, term)?;
        let reps = firsts_of(alloc, &parts)?;
        let Parts { dag, ways, spots } = parts;
        Ok(Table {
            dag,
            ways,
            spots,
            reps,
            classes,
        })
    }

    /// The room that a step needs: a mark for each position and for each node of their ways. Takes no memory.
    pub fn room(&self) -> u32
        ensures room { result ≡ self.now.room }
        ensures enough { length self.now.terms ≤ result }
    {
        self.spots.len().max(self.ways.len()) as u32
    }

    /// How many places there are. Takes no memory.
    pub fn places(&self) -> u32
        ensures { result ≡ length self.now.terms }
    {
        self.spots.len() as u32
    }

    /// How many classes of bytes there are. Takes no memory.
    pub fn classes(&self) -> u8
        ensures count { IsClassCount (sets_of (term_at self.now.terms 0)) result }
        ensures few { result ≤ 129 }
    {
        self.classes.count()
    }

    /// The class of a byte. Two bytes of one class lead from each state to the same state. Takes no memory.
    pub fn class_of(&self, byte: u8) -> u8
        ensures { IsClassOf (sets_of (term_at self.now.terms 0)) byte result }
    {
        self.classes.class_of(byte)
    }

    /// The state after the empty word: the term alone.
    pub fn start(&self, alloc: Global) -> Result<StateSet, OutOfMemory>
        ensures { IfOk result (λ s. (length s.marks ≡ length self.now.terms) × (s.room ≡ self.now.room)
            × IsMarked self.now.terms s.marks (term_at self.now.terms 0 ∷ [])) }
    {
        let mut row = Members::new(alloc, self.spots.len() as u32)?;
        row.put(0);
        Ok(StateSet {
            row,
            nodes: Members::new(alloc, self.room())?,
        })
    }

    /// The state after one more byte. Takes no memory.
    pub fn step(&self, state: &mut StateSet, byte: u8)
        requires row { length state.old.marks ≡ length self.now.terms }
        requires room { state.old.room ≡ self.now.room }
        ensures row { length state.new.marks ≡ length self.now.terms }
        ensures room { state.new.room ≡ self.now.room }
        ensures state { (set : List Term) → IsMarked self.now.terms state.old.marks set → IsMarked self.now.terms state.new.marks (after byte set) }
    {
        self.shift(&mut state.row, &mut state.nodes, byte);
    }

    /// Whether one of the marked derivatives has the empty text.
    fn ends(&self, row: &Members) -> bool
        requires { AreBelow row.now.marks (length self.now.terms) }
        ensures { (set : List Term) → IsMarked self.now.terms row.now.marks set → (IsTrue result ↔ (accepting set ≡ true)) }
    {
        for k in 0..row.count() {
            if self.spots[row.at(k)].ends {
                return true;
            }
        }
        false
    }

    /// Whether the empty text is in one of the set's terms. Takes no memory.
    pub fn accepts(&self, state: &StateSet) -> bool
        requires { length state.now.marks ≡ length self.now.terms }
        ensures { (set : List Term) → IsMarked self.now.terms state.now.marks set → (IsTrue result ↔ (accepting set ≡ true)) }
    {
        self.ends(&state.row)
    }

    /// Marks the table's own term alone.
    fn begin(&self, row: &mut Members)
        requires { length self.now.terms ≤ length row.old.marks }
        ensures long { length row.new.marks ≡ length row.old.marks }
        ensures within { AreBelow row.new.marks (length self.now.terms) }
        ensures state { IsMarked self.now.terms row.new.marks (term_at self.now.terms 0 ∷ []) }
    {
        let _ = &self.spots;
        row.clear();
        row.put(0);
    }

    /// Marks what a byte leads to.
    fn shift(&self, row: &mut Members, nodes: &mut Members, byte: u8)
        requires row { length self.now.terms ≤ length row.old.marks }
        requires nodes { self.now.room ≤ length nodes.old.marks }
        requires within { AreBelow row.old.marks (length self.now.terms) }
        ensures row { length row.new.marks ≡ length row.old.marks }
        ensures nodes { length nodes.new.marks ≡ length nodes.old.marks }
        ensures within { AreBelow row.new.marks (length self.now.terms) }
        ensures state { (set : List Term) → IsMarked self.now.terms row.old.marks set → IsMarked self.now.terms row.new.marks (after byte set) }
    {
        advance(&self.ways, &self.spots, &self.reps, nodes, row, byte);
    }

    /// Whether the text is in the term. Takes no memory.
    pub fn matches(&self, text: &[u8], scratch: &mut Scratch) -> bool
        requires { self.now.room ≤ scratch.old }
        ensures room { scratch.new ≡ scratch.old }
        ensures is_in { IsTrue result ↔ In text.now (term_at self.now.terms 0) }
    {
        let _ = &self.spots;
        self.begin(&mut scratch.row);
        for b in text {
            self.shift(&mut scratch.row, &mut scratch.nodes, *b);
        }
        self.ends(&scratch.row)
    }
}

impl Table {
    /// Adds an edge for each position that may come after the place: what it reads, and its own place, counted from the base.
    pub fn edges(&self, place: u32, base: u64, to: &mut Vec<Edge>) -> Result<(), OutOfMemory>
        requires place { place < length self.now.terms }
        requires room { base + length self.now.terms ≤ 2 ^ 64 }
        ensures { OnOk result (AddsEdges to.old.items to.new.items (λ b x. IsBehind self.now.terms place b base x)) }
    {
        let next = self.spots[place as usize].next;
        match self.ways.at(next) {
            Way::Nowhere => return Ok(()),
            Way::At(position) => {
                return put_edges(&self.spots, &self.reps, &[position], base, to);
            }
            Way::Both(..) => {}
        }
        let ps = self.ways.spread(*to.allocator(), next)?;
        put_edges(&self.spots, &self.reps, ps.as_slice(), base, to)
    }

    /// Adds the edges of several places. A position that may come after several of them is added once, so the time is that
    /// of the places and of what they reach. The scratch has at least the table's room.
    pub fn edges_of(
        &self,
        places: &[u32],
        base: u64,
        scratch: &mut Scratch,
        to: &mut Vec<Edge>,
    ) -> Result<(), OutOfMemory>
        requires places { (p : ℕ) → Has places.now p → p < length self.now.terms }
        requires base { base + length self.now.terms ≤ 2 ^ 64 }
        requires room { self.now.room ≤ scratch.old }
        ensures room { scratch.new ≡ scratch.old }
        ensures edges { OnOk result (AddsEdges to.old.items to.new.items
            (λ b x. (p : ℕ) × Has places.now p × IsBehind self.now.terms p b base x)) }
    {
        let _ = &self.spots;
        scratch.nodes.clear();
        scratch.row.clear();
        enter_from(&self.spots, places, &mut scratch.nodes);
        reach(&self.ways, &mut scratch.nodes, &mut scratch.row);
        put_marked(&self.spots, &self.reps, &scratch.row, base, to)
    }

    /// Whether the empty text is in the term of a place.
    pub fn ends_at(&self, place: u32) -> bool
        requires { place < length self.now.terms }
        ensures { result ≡ nullable (term_at self.now.terms place) }
    {
        self.spots[place as usize].ends
    }

    /// Each partial derivative has a place.
    pub fn known(&self)
        ensures { HasPlaces self.now.terms }
    {
        let _ = &self.spots;
    }
}
