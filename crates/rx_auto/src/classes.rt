//! The classes of bytes by number.

ghost use Rattle.std.specs.Prelude.{◌≡◌, ◌<◌, ◌≤◌, ℕ, length, min, slice_index, IfOk, IfSome, IfNone};
ghost use Rattle.rx_auto.specs.Classes.{AreAlike, AreClasses};

use crate::sets::alike;
use rx_term::{ByteSet, OutOfMemory};
use sqlite_items::Items;
use std::alloc::Global;

/// The last byte that has a number of its own: no set has it or a byte above, so it stands for all of them.
const LAST: u8 = 128;

/// The classes of the bytes under some sets, numbered by their first bytes.
#[derive(Drop)]
pub struct Classes {
    /// The first byte of each class, ascending.
    pub firsts: Items<u8>,
    /// The class of each byte up to 128.
    pub numbers: Items<u8>,
    ghost few: { length firsts ≤ 129 },
    ghost long: { length numbers ≡ 129 },
}

/// The place of the first of the bytes that no set tells apart from the given one.
fn place_of(sets: &[ByteSet], bytes: &[u8], byte: u8) -> Option<usize>
    ensures none { IfNone result ((i : ℕ) → i < length bytes.now → AreAlike sets.now (slice_index bytes.now i) byte → ⊥) }
    ensures some { IfSome result (λ i. (i < length bytes.now) × AreAlike sets.now (slice_index bytes.now i) byte) }
{
    for (i, other) in bytes.iter().enumerate() {
        if alike(sets, *other, byte) {
            return Some(i);
        }
    }
    None
}

impl Classes {
    /// The classes of the bytes under the sets.
    pub fn of(alloc: Global, sets: &[ByteSet]) -> Result<Classes, OutOfMemory>
        ensures { IfOk result (λ classes. AreClasses sets.now classes.firsts classes.numbers) }
    {
        let mut firsts = Items::new(alloc);
        let mut numbers = Items::new(alloc);
        for byte in 0..LAST + 1 {
            match place_of(sets, firsts.as_slice(), byte) {
                Some(number) => numbers.push(number as u8)?,
                None => {
                    numbers.push(firsts.len() as u8)?;
                    firsts.push(byte)?;
                }
            }
        }
        Ok(Classes { firsts, numbers })
    }

    /// How many classes there are, at most 129. Takes no memory.
    pub fn count(&self) -> u8
        ensures { result ≡ length self.now.firsts }
    {
        self.firsts.len() as u8
    }

    /// The class of a byte. Takes no memory.
    pub fn class_of(&self, byte: u8) -> u8
        ensures { result ≡ slice_index self.now.numbers (min byte 128) }
    {
        self.numbers.as_slice()[usize::from(byte.min(LAST))]
    }
}
