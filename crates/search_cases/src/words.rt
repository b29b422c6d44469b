//! Lists of words that close or don't.

use crate::made::{literals_of, term_of};
use rx_auto::Words;
use rx_joint::{Joint, are_apart, closes, joint_of};
use rx_term::OutOfMemory;
use sqlite_items::Items;
use std::alloc::Global;
use std::test::Fail;

/// The words of the entries: for each the number of the word before it, and its last byte.
fn words_of(alloc: Global, entries: &[(u64, u8)]) -> Result<Words, OutOfMemory> {
    let mut list = Items::new(alloc);
    for entry in entries {
        list.push(*entry)?;
    }
    Ok(Words { list })
}

/// Whether the words of the entries are told apart and whether they close, over `[ab]+` and the literals.
fn told(alloc: Global, literals: &str, entries: &[(u64, u8)]) -> Result<(bool, bool), Fail> {
    let valid = term_of(alloc, "[ab]+")?;
    let literals = literals_of(alloc, literals)?;
    let words = words_of(alloc, entries)?;
    let apart = are_apart(alloc, &valid, &literals, &words)?;
    let closed = closes(alloc, &valid, &literals, &words)?;
    Ok((apart, closed))
}

/// No text of `[ab]+` begins with `c`: this shows in the states of the empty text, `a`, `c` and any byte but these and `b`.
#[test]
fn words_are_told_apart_and_close(rt: HostRuntime) -> Result<(), Fail> {
    let rows: [(&str, &[(u64, u8)], (bool, bool)); 10] = [
        ("+c.*", &[(0, b'a'), (0, b'c'), (0, b' ')], (true, true)),
        ("+c.*", &[(0, b'~'), (0, b'c'), (0, b'b')], (true, true)),
        // a byte that no term reads leads to a state that isn't listed
        ("+c.*", &[(0, b'a'), (0, b'c')], (true, false)),
        ("+c.*", &[], (true, false)),
        ("+c.*", &[(0, b'a'), (0, b'b'), (0, b'c')], (false, false)),
        ("+c.*", &[(0, b'a'), (1, b'b')], (false, false)),
        ("+c.*", &[(1, b'a')], (false, false)),
        ("+c.*", &[(0, 31)], (false, false)),
        ("+c.*", &[(0, 127)], (false, false)),
        ("-c.*", &[(0, b'a'), (0, b'c'), (0, b' ')], (false, false)),
    ];
    for (literals, entries, answer) in rows {
        assert!(rt;
            told(rt.alloc(), literals, entries)? == answer,
            "{literals} {}",
            entries.len()
        );
    }
    Ok(())
}
