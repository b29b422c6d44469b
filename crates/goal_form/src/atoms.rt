// A list of atoms without doubles.
ghost use Rattle.std.specs.Prelude.{◌≡◌, [], ◌<◌, ◌^◌, ◌↔◌, ℕ, length, slice_get, Some, IsTrue, IfOk, IfSome, IfNone, OnErr, All, Contains, nat_eq};
ghost use Rattle.std.specs.Option.{option_copied};
ghost use Rattle.indexmap.specs.IndexMap.{ContainsKey};
ghost use Rattle.goal_form.specs.Goals.{AreDistinct};
ghost use Rattle.goal_form.specs.Digests.{digest};
ghost use Rattle.goal_form.specs.Numbers.{Numbers};

use crate::atom::{Atom, digest_of, same_atom};
use indexmap::IndexMap;
use std::alloc::Global;
use std::marker::Model;
use text_base::OutOfMemory;

/// Atoms in the order in which they came, each once. Fewer than 2^32 have numbers.
#[derive(Drop)]
pub struct Atoms {
    list: Vec<Atom>,
    /// For each digest of an atom the place of one that has it.
    places: IndexMap<u64, u32>,
}

/// Contracts see the list.
impl Model for Atoms {
    ghost use Rattle.std.specs.Prelude.{◌<◌, ◌^◌, List, All, nat_eq, length};
    ghost use Rattle.std.specs.Coded.{codes};
    ghost use Rattle.rx_term.specs.contracts.terms.Term as of_term;
    ghost use Rattle.goal_form.specs.declared.atom.Atom.{Atom};
    ghost use Rattle.indexmap.specs.IndexMap.{ContainsKey};

    ghost Value = { List Atom };

    ghost coded = { Prim.hlevel (codes, of_term.the_row.coded) };

    ghost use Rattle.goal_form.specs.Digests.{digest};
    ghost use Rattle.goal_form.specs.Numbers.{AreKept};

    ghost view = { λ a. a.list.items };

    ghost invariant = { λ a. AreKept a.places a.list.items };
}

fn find(list: &[Atom], atom: &Atom) -> Option<usize>
    ensures found { IfSome result (λ k. slice_get list.now k ≡ Some atom.now) }
    ensures none { IfNone result (Contains list.now atom.now → ⊥) }
{
    for (i, x) in list.iter().enumerate() {
        if same_atom(x, atom) {
            return Some(i);
        }
    }
    None
}

/// The place of an equal atom. Where no atom has the digest, none is equal; atoms that share one are rare.
fn known(list: &[Atom], places: &IndexMap<u64, u32>, key: u64, atom: &Atom) -> Option<usize>
    requires keyed { All (λ x. ContainsKey nat_eq places.now (digest x)) list.now }
    requires key { key ≡ digest atom.now }
    ensures found { IfSome result (λ k. slice_get list.now k ≡ Some atom.now) }
    ensures none { IfNone result (Contains list.now atom.now → ⊥) }
{
    match places.get(&key) {
        None => None,
        Some(place) => {
            if let Some(other) = list.get(*place as usize) {
                if same_atom(other, atom) {
                    return Some(*place as usize);
                }
            }
            find(list, atom)
        }
    }
}

impl Atoms {
    /// No atoms. Takes no memory.
    pub fn new(alloc: Global) -> Atoms
        ensures { result ≡ [] }
    {
        Atoms {
            list: Vec::new(alloc),
            places: IndexMap::new(alloc),
        }
    }

    /// How many atoms there are. Takes no memory.
    pub fn count(&self) -> u32
        ensures { result ≡ length self.now }
    {
        self.list.len() as u32
    }

    /// The atom of a number. Takes no memory.
    pub fn at(&self, number: u32) -> &Atom
        requires { number < length self.now }
        ensures { slice_get self.now number ≡ Some result.now }
    {
        &self.list[number as usize]
    }

    /// The atom of a number, if there is one. Takes no memory.
    pub fn get(&self, number: u32) -> Option<&Atom>
        ensures { option_copied result ≡ slice_get self.now number }
    {
        self.list.get(number as usize)
    }

    /// The number of an equal atom, if there is one. Takes no memory.
    pub fn find(&self, atom: &Atom) -> Option<u32>
        ensures found { IfSome result (λ k. slice_get self.now k ≡ Some atom.now) }
        ensures none { IfNone result (Contains self.now atom.now → ⊥) }
    {
        let place = known(self.list.as_slice(), &self.places, digest_of(atom), atom)?;
        Some(place as u32)
    }

    /// The atoms in order. No atom stands twice. Takes no memory.
    pub fn as_slice(&self) -> &[Atom]
        ensures list { result.now ≡ self.now }
        ensures apart { AreDistinct self.now }
        ensures few { length self.now < 2 ^ 32 }
    {
        self.list.as_slice()
    }

    /// The place of an equal atom, or the atom's own at the end. More atoms than have numbers are answered as want of memory.
    pub fn number(&mut self, atom: Atom) -> Result<u32, OutOfMemory>
        ensures ok { IfOk result (λ place. Numbers self.old self.new atom place) }
        ensures err { OnErr result (self.new ≡ self.old) }
    {
        let key = digest_of(&atom);
        if let Some(found) = known(self.list.as_slice(), &self.places, key, &atom) {
            return Ok(found as u32);
        }
        if self.list.len() >= u32::MAX as usize {
            return Err(OutOfMemory);
        }
        let place = self.list.len() as u32;
        self.places.insert(key, place)?;
        self.list.push(atom)?;
        Ok(place)
    }
}
