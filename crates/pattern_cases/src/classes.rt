//! Worked classes of bytes.

use crate::made::term_of;
use rx_auto::{Classes, add_sets, alike, first_bytes};
use rx_term::{ByteSet, OutOfMemory};
use std::alloc::Global;
use std::test::Fail;

/// The sets of `[a-c]`, of `[c-e]` and of the byte 127.
fn three_sets(alloc: Global) -> Result<Vec<ByteSet>, Fail> {
    let term = term_of(alloc, "23.42.|*")?;
    let mut sets = Vec::new(alloc);
    add_sets(&mut sets, &term)?;
    Ok(sets)
}

/// The sets of the first bytes, each alone.
fn single_bytes(alloc: Global, count: u32) -> Result<Vec<ByteSet>, OutOfMemory> {
    let mut sets = Vec::new(alloc);
    for byte in 0..count.min(128) {
        sets.push(ByteSet(1u128 << byte))?;
    }
    Ok(sets)
}

/// Whether the sets tell two bytes apart or not, as each row says.
fn are_alike(sets: &[ByteSet], rows: &[(u8, u8, bool)]) -> bool {
    for (first, second, answer) in rows {
        if alike(sets, *first, *second) != *answer {
            return false;
        }
    }
    true
}

#[test]
fn sets_are_gathered_once(rt: HostRuntime) -> Result<(), Fail> {
    let rows = [
        (b'a', b'b', true),
        (b'b', b'c', false),
        (0, 255, true),
        (0, 127, false),
    ];
    let sets = three_sets(rt.alloc())?;
    assert!(rt; sets.len() == 3 && are_alike(&sets, &rows));
    Ok(())
}

/// Whether there are so many classes under the sets, and each byte has the class of its row.
fn are_classes(
    alloc: Global,
    sets: &[ByteSet],
    count: u8,
    rows: &[(u8, u8)],
) -> Result<bool, OutOfMemory> {
    let classes = Classes::of(alloc, sets)?;
    for (byte, class) in rows {
        if classes.class_of(*byte) != *class {
            return Ok(false);
        }
    }
    Ok(classes.count() == count)
}

#[test]
fn classes_are_numbered_by_their_first_bytes(rt: HostRuntime) -> Result<(), Fail> {
    let rows = [
        (0, 0),
        (b'`', 0),
        (b'a', 1),
        (b'b', 1),
        (b'c', 2),
        (b'd', 3),
        (b'e', 3),
        (b'f', 0),
        (126, 0),
        (127, 4),
        (128, 0),
        (255, 0),
    ];
    let sets = three_sets(rt.alloc())?;
    assert!(rt; are_classes(rt.alloc(), &sets, 5, &rows)?);
    Ok(())
}

#[test]
fn no_set_gives_one_class_and_128_sets_give_129(rt: HostRuntime) -> Result<(), Fail> {
    assert!(rt; are_classes(rt.alloc(), &[], 1, &[(7, 0)])?);
    let sets = single_bytes(rt.alloc(), 128)?;
    assert!(rt; are_classes(rt.alloc(), &sets, 129, &[(127, 127), (200, 128)])?);
    Ok(())
}

#[test]
fn the_alphabet_is_covered(rt: HostRuntime) -> Result<(), Fail> {
    let bytes = first_bytes(rt.alloc(), &three_sets(rt.alloc())?)?;
    assert!(rt; bytes.as_slice() == b" acd".as_slice());
    Ok(())
}
