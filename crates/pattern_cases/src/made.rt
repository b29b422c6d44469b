//! Terms of the cases: from texts in postfix order, and long ones.

ghost use Rattle.std.specs.Prelude.{◌<◌};

use rx_term::{ByteSet, OutOfMemory, Term};
use std::alloc::Global;
use std::test::Fail;

/// The set of `[a-c]`.
pub(crate) const LETTERS: ByteSet = ByteSet(7 << 97);

/// The set of a byte alone.
fn alone(byte: u8) -> ByteSet
    requires { byte < 128 }
{
    ByteSet(1u128 << u32::from(byte))
}

/// The set that a byte of a text stands for: `2` is `[a-c]`, `3` is `[c-e]`, `4` is the byte 127, `A` and `B` are letters
/// of both cases, and any other byte below 128 is itself alone.
fn set_of(byte: u8) -> ByteSet {
    match byte {
        b'2' => LETTERS,
        b'3' => ByteSet(7 << 99),
        b'4' => ByteSet(1 << 127),
        b'A' => ByteSet(1 << 65 | 1 << 97),
        b'B' => ByteSet(1 << 66 | 1 << 98),
        0..=127 => alone(byte),
        _ => ByteSet(0),
    }
}

/// The term that was made last.
fn last(terms: &mut Vec<Term>) -> Result<Term, Fail> {
    Ok(terms.pop().ok_or("no term")?)
}

/// The two terms that were made last, in a row or as a choice.
fn joined(alloc: Global, terms: &mut Vec<Term>, in_a_row: bool) -> Result<Term, Fail> {
    let second = last(terms)?;
    let first = last(terms)?;
    let term = if in_a_row {
        Term::cat(alloc, first, second)
    } else {
        Term::alt(alloc, first, second)
    };
    Ok(term?)
}

/// The term of a text in postfix order: `0` has no text, `1` the empty one, `.` makes a row, `|` a choice and `*` an
/// iteration, and any other byte stands for its set.
pub(crate) fn term_of(alloc: Global, text: &str) -> Result<Term, Fail> {
    let mut terms = Vec::new(alloc);
    for byte in text.as_bytes() {
        let term = match *byte {
            b'0' => Term::Nothing,
            b'1' => Term::Empty,
            b'.' => joined(alloc, &mut terms, true)?,
            b'|' => joined(alloc, &mut terms, false)?,
            b'*' => Term::star(alloc, last(&mut terms)?)?,
            byte => Term::one(set_of(byte))?,
        };
        terms.push(term)?;
    }
    last(&mut terms)
}

/// A row of so many letters, nested to the right, behind it the empty text.
pub(crate) fn row(alloc: Global, letters: u32) -> Result<Term, OutOfMemory> {
    let mut row = Term::Empty;
    for _ in 0..letters {
        row = Term::cat(alloc, Term::one(LETTERS)?, row)?;
    }
    Ok(row)
}

/// A row of so many letters that may be left out.
pub(crate) fn optional_row(alloc: Global, letters: u32) -> Result<Term, OutOfMemory> {
    let mut row = Term::Empty;
    for _ in 0..letters {
        let letter = Term::alt(alloc, Term::Empty, Term::one(LETTERS)?)?;
        row = Term::cat(alloc, letter, row)?;
    }
    Ok(row)
}

/// The term, of which the star is taken so many times.
pub(crate) fn starred(alloc: Global, term: Term, stars: u32) -> Result<Term, OutOfMemory> {
    let mut term = term;
    for _ in 0..stars {
        term = Term::star(alloc, term)?;
    }
    Ok(term)
}
