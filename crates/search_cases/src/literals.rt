//! Searches for texts that meet literals.

use crate::made::{literals_of, term_of};
use field_seek::{Seen, seek};
use rx_auto::Scratch;
use rx_joint::{Literal, are_apart, closes, joint_of};
use rx_term::{OutOfMemory, Term};
use std::alloc::Global;
use std::test::Fail;

/// What a search has to answer.
#[derive(Clone, Copy)]
enum Wanted {
    /// A text.
    Text,
    /// So many entries of words that close.
    Closed(usize),
    /// So many entries, as many as the cap allows words.
    Capped(usize),
}

/// Whether the text is valid and meets the literals.
fn is_met(
    alloc: Global,
    valid: &Term,
    literals: &[Literal],
    text: &[u8],
) -> Result<bool, OutOfMemory> {
    let (joint, choice) = joint_of(alloc, valid, literals)?;
    let mut scratch = Scratch::new(alloc, joint.room())?;
    Ok(joint.meets(&choice, text, &mut scratch))
}

/// Whether the search answers what is wanted, and its answer stands the test: a text meets the literals, words of the
/// right number close or are told apart.
fn is_right(
    alloc: Global,
    valid: &Term,
    literals: &[Literal],
    cap: Option<u32>,
    wanted: Wanted,
) -> Result<bool, OutOfMemory> {
    match (seek(alloc, literals, valid, cap)?, wanted) {
        (Seen::Found(text), Wanted::Text) => is_met(alloc, valid, literals, &text),
        (Seen::Empty(words), Wanted::Closed(count)) => {
            Ok(words.list.len() == count && closes(alloc, valid, literals, &words)?)
        }
        (Seen::Capped(words), Wanted::Capped(count)) => {
            Ok(words.list.len() == count && are_apart(alloc, valid, literals, &words)?)
        }
        _ => Ok(false),
    }
}

/// Whether a row is right: the pattern of the valid texts, the literals, the cap, and what is wanted.
fn row_is_right(alloc: Global, row: (&str, &str, Option<u32>, Wanted)) -> Result<bool, Fail> {
    let (valid, literals, cap, wanted) = row;
    let valid = term_of(alloc, valid)?;
    let literals = literals_of(alloc, literals)?;
    Ok(is_right(alloc, &valid, &literals, cap, wanted)?)
}

/// The valid texts of a header: printed bytes without a space at either end.
const HEADER: &str = "([!-~](.*[!-~])?)?";

/// The states that are met can be counted by hand. Over `/.*`, `+/api.*` and `-/ap.*` they are those of the empty text,
/// `/`, `/a`, `/ap`, `/api`, `/x`, `/apx` and `x`.
#[test]
fn texts_are_found_words_close_and_caps_are_kept(rt: HostRuntime) -> Result<(), Fail> {
    let rows = [
        ("/.*", "+/ap.* -/api.*", None, Wanted::Text),
        ("/.*", "+/api.* -/ap.*", None, Wanted::Closed(7)),
        ("/.*", "+/api.* -/ap.*", Some(8), Wanted::Closed(7)),
        ("/.*", "+/api.* -/ap.*", Some(7), Wanted::Capped(7)),
        ("/.*", "+/api.* -/ap.*", Some(0), Wanted::Capped(0)),
        (".*", "-a.*", Some(0), Wanted::Text),
        ("/.*", "+.* -/a.*", Some(1), Wanted::Text),
        ("/.*", "+.* -/.*", Some(2), Wanted::Capped(2)),
        ("/.*", "+.* -/.*", Some(3), Wanted::Closed(2)),
        ("[0-9]{6}", "+.*[5-9] -.*[13579]", None, Wanted::Text),
        ("[0-9]{6}", "+.*a.*", None, Wanted::Closed(8)),
        (HEADER, "-.* -a", None, Wanted::Closed(5)),
        (HEADER, "-.*[!-~] -", None, Wanted::Closed(5)),
        (
            HEADER,
            "-.*[ab].{12} +.*a.{12}",
            Some(16),
            Wanted::Capped(16),
        ),
    ];
    for (number, row) in rows.iter().enumerate() {
        assert!(rt; row_is_right(rt.alloc(), *row)?, "row {number}");
    }
    Ok(())
}
