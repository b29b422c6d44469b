//! Byte sets of terms, and which bytes they tell apart.

ghost use Rattle.std.specs.Prelude.{◌↔◌, ℕ, OnOk, IfOk, IsTrue};
ghost use Rattle.rx_term.specs.declared.terms.Term.{Term};
ghost use Rattle.rx_term.specs.Language.{Has};
ghost use Rattle.rx_auto.specs.Classes.{AreAlike, AddsSets, Covers};

use rx_term::{ByteSet, OutOfMemory, Term};
use std::alloc::Global;

/// Whether no set of the list tells the two bytes apart.
pub fn alike(sets: &[ByteSet], first: u8, second: u8) -> bool
    ensures { IsTrue result ↔ AreAlike sets.now first second }
{
    for set in sets {
        if set.has(first) != set.has(second) {
            return false;
        }
    }
    true
}

/// Whether the set is in the list.
fn has_set(sets: &[ByteSet], set: ByteSet) -> bool
    ensures { IsTrue result ↔ Has sets.now set }
{
    for other in sets {
        if *other == set {
            return true;
        }
    }
    false
}

/// Adds the set where the list doesn't have it yet.
fn add_set(sets: &mut Vec<ByteSet>, set: ByteSet) -> Result<(), OutOfMemory>
    ensures { OnOk result (AddsSets sets.old.items sets.new.items (Term.One set)) }
{
    if !has_set(sets, set) {
        sets.push(set)?;
    }
    Ok(())
}

/// Adds each byte set of the term that the list doesn't have yet. A term may be nested deeply to the right.
pub fn add_sets(sets: &mut Vec<ByteSet>, term: &Term) -> Result<(), OutOfMemory>
    ensures { OnOk result (AddsSets sets.old.items sets.new.items term.now) }
{
    let mut rest = term;
    loop {
        match rest {
            Term::Nothing => return Ok(()),
            Term::Empty => return Ok(()),
            Term::One(set) => return add_set(sets, *set),
            Term::Cat(first, second) => {
                add_sets(sets, first.get())?;
                rest = second.get();
            }
            Term::Alt(first, second) => {
                add_sets(sets, first.get())?;
                rest = second.get();
            }
            Term::Star(body) => rest = body.get(),
        }
    }
}

/// Whether one of the bytes is like the given one.
fn has_alike(sets: &[ByteSet], bytes: &[u8], byte: u8) -> bool
    ensures { IsTrue result ↔ ((c : ℕ) × Has bytes.now c × AreAlike sets.now c byte) }
{
    for other in bytes {
        if alike(sets, *other, byte) {
            return true;
        }
    }
    false
}

/// The first byte of each class of the alphabet.
pub fn first_bytes(alloc: Global, sets: &[ByteSet]) -> Result<Vec<u8>, OutOfMemory>
    ensures { IfOk result (λ bytes. Covers sets.now bytes.items) }
{
    let mut bytes = Vec::new(alloc);
    for byte in 32u8..127 {
        if !has_alike(sets, &bytes, byte) {
            bytes.push(byte)?;
        }
    }
    Ok(bytes)
}
