//! The text of a listed word.

ghost use Rattle.std.specs.Prelude.{◌≡◌, ◌≤◌, ◌++◌, ◌∷◌, [], length, IfOk};
ghost use Rattle.rx_term.specs.Closing.{AreEntries};
ghost use Rattle.rx_joint.specs.Claims.{word_at};

use rx_term::OutOfMemory;
use std::alloc::Global;

/// The listed word of a number, and one more byte.
pub fn spelled(
    alloc: Global,
    entries: &[(u64, u8)],
    word: usize,
    byte: u8,
) -> Result<Vec<u8>, OutOfMemory>
    requires entries { AreEntries 1 entries.now }
    requires word { word ≤ length entries.now }
    ensures { IfOk result (λ text. text.items ≡ word_at entries.now word ++ byte ∷ []) }
{
    let mut text = Vec::new(alloc);
    text.push(byte)?;
    let mut at = word;
    while at > 0 {
        let (parent, last) = entries[at - 1];
        text.push(last)?;
        at = parent as usize;
    }
    text.reverse();
    Ok(text)
}
