//! Worked sets and terms, and the laws of patterns.

use crate::made::{row, term_of};
use rx_auto::{class_law, rows_law};
use rx_parse::answer_law;
use rx_term::{
    ByteSet, OutOfMemory, closing_law, counting_law, derivative_law, membership_law, one_fault,
};
use rx_unique::one_answer_law;
use std::alloc::Global;
use std::test::Fail;

/// Whether each byte is in the set or not, as its row says.
fn has_alone(set: ByteSet, rows: &[(u8, bool)]) -> bool {
    for (byte, is_there) in rows {
        if set.has(*byte) != *is_there {
            return false;
        }
    }
    true
}

#[test]
fn a_set_has_its_bytes_alone(rt: HostRuntime) {
    let rows = [
        (0, true),
        (1, false),
        (97, true),
        (98, false),
        (127, true),
        (128, false),
        (225, false),
        (255, false),
    ];
    assert!(rt; has_alone(ByteSet(1 << 97 | 1 << 127 | 1), &rows));
}

/// Whether the term has so many nodes, equals its copy, and equals `(a|b)*c` only where that is said.
fn is_counted(alloc: Global, text: &str, size: u64, same: bool) -> Result<bool, Fail> {
    let term = term_of(alloc, text)?;
    let copied = term.copy(alloc)?;
    let counted = term.size() == size && term.same(&copied) && copied.same(&term);
    let other = term_of(alloc, "ab|*c.")?;
    Ok(counted && term.same(&other) == same)
}

/// Fails with the first of the texts that isn't so.
fn all_are_counted(alloc: Global, rows: &[(&str, u64, bool)]) -> Result<(), Fail> {
    for (text, size, same) in rows {
        if !is_counted(alloc, *text, *size, *same)? {
            return Err(Fail::new(*text));
        }
    }
    Ok(())
}

#[test]
fn terms_are_counted_copied_and_compared(rt: HostRuntime) -> Result<(), Fail> {
    let rows = [
        ("ab|*c.", 6, true),
        ("0", 1, false),
        ("1", 1, false),
        ("c", 1, false),
        ("ab|*c.*", 7, false),
        ("ab|*c.1.", 8, false),
        ("ab|*c.0|", 8, false),
    ];
    all_are_counted(rt.alloc(), &rows)
}

/// Whether a row of so many letters has so many nodes and equals its copy.
fn row_is_counted(alloc: Global, letters: u32, size: u64) -> Result<bool, OutOfMemory> {
    let row = row(alloc, letters)?;
    let copied = row.copy(alloc)?;
    Ok(row.size() == size && row.same(&copied))
}

#[test]
fn long_rows_need_no_deep_stack(rt: HostRuntime) -> Result<(), Fail> {
    assert!(rt; row_is_counted(rt.alloc(), 1_000_000, 2_000_001)?);
    Ok(())
}

#[test]
fn laws_can_be_called() {
    derivative_law();
    membership_law();
    closing_law();
    one_fault();
    counting_law();
    answer_law();
    one_answer_law();
    rows_law();
    class_law();
}
