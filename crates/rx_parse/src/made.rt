//! What was read: terms with their positions.

ghost use Rattle.std.specs.Prelude.{◌≡◌, ◌+◌, ◌*◌, ◌++◌, List, ◌∷◌, IfOk, replicate};
ghost use Rattle.rx_term.specs.declared.terms.Term.{Term};
ghost use Rattle.rx_term.specs.Term.{cat as cat_term, alt as alt_term};
ghost use Rattle.rx_term.specs.Pattern.{kept, repeated as repeated_term, multiplied as multiplied_number, row as row_of};
ghost use Rattle.rx_parse.specs.Answer.{made_one, no_frame, times_of, IsRow, IsOrdered, empty_made, joined, row_made, choice_made, frame_made, often_made};

use rx_term::{ByteSet, Term};
use sqlite_items::Items;
use std::alloc::{AllocError, Global};

/// The most positions of a pattern.
pub const LIMIT: u32 = 4000;

/// What a text spells: its term, or none where it has more positions than a pattern may have.
#[derive(Drop)]
pub struct Made {
    pub term: Option<Term>,
    /// At least one, staying at the greatest number.
    pub positions: u32,
}

/// What was read of a choice that isn't at its end.
#[derive(Drop)]
pub struct Frame {
    /// The alternatives that a bar ended.
    pub branches: Items<Made>,
    /// The pieces of the last alternative.
    pub pieces: Items<Made>,
}

/// How often an atom comes.
#[derive(Clone, Copy)]
pub enum Often {
    Star,
    Plus,
    Optional,
    Exactly(u8),
    AtLeast(u8),
    /// From the first number, which isn't the greater one, to the second.
    Between(u8, u8),
}

impl Frame {
    /// A choice of which nothing was read.
    pub fn new(alloc: Global) -> Frame
        ensures { result ≡ no_frame }
    {
        Frame {
            branches: Items::new(alloc),
            pieces: Items::new(alloc),
        }
    }

    /// What the choice spells at its end.
    pub fn finish(self, alloc: Global) -> Result<Made, AllocError>
        ensures { IfOk result (λ made. made ≡ frame_made self) }
    {
        let Frame { branches, pieces } = self;
        let last = row(alloc, pieces)?;
        choice(alloc, branches, last)
    }
}

/// One byte of the set.
pub fn one(set: ByteSet) -> Made
    ensures { result ≡ made_one set }
{
    Made {
        term: Some(Term::One(set)),
        positions: 1,
    }
}

/// The empty text.
fn empty() -> Made
    ensures { result ≡ empty_made }
{
    Made {
        term: Some(Term::Empty),
        positions: 1,
    }
}

/// The positions of two parts.
fn sum(first: u32, second: u32) -> u32
    ensures { result ≡ kept (first + second) }
{
    first.saturating_add(second).max(1)
}

/// The positions of so many copies.
fn product(positions: u32, count: u32) -> u32
    ensures { result ≡ kept (positions * count) }
{
    positions.saturating_mul(count).max(1)
}

/// The first and then the second.
fn then(alloc: Global, first: Made, second: Made) -> Result<Made, AllocError>
    ensures { IfOk result (λ made. made ≡ joined cat_term first second) }
{
    let positions = sum(first.positions, second.positions);
    match (first.term, second.term) {
        (Some(a), Some(b)) => Ok(Made {
            term: Some(Term::cat(alloc, a, b)?),
            positions,
        }),
        _ => Ok(Made {
            term: None,
            positions,
        }),
    }
}

/// The first or the second.
fn either(alloc: Global, first: Made, second: Made) -> Result<Made, AllocError>
    ensures { IfOk result (λ made. made ≡ joined alt_term first second) }
{
    let positions = sum(first.positions, second.positions);
    match (first.term, second.term) {
        (Some(a), Some(b)) => Ok(Made {
            term: Some(Term::alt(alloc, a, b)?),
            positions,
        }),
        _ => Ok(Made {
            term: None,
            positions,
        }),
    }
}

/// The pieces one after the other.
pub fn row(alloc: Global, mut pieces: Items<Made>) -> Result<Made, AllocError>
    ensures { IfOk result (λ made. made ≡ row_made pieces) }
{
    let Some(mut made) = pieces.pop() else {
        return Ok(empty());
    };
    while let Some(piece) = pieces.pop() {
        made = then(alloc, piece, made)?;
    }
    Ok(made)
}

/// The alternatives, and the last one.
fn choice(alloc: Global, mut branches: Items<Made>, last: Made) -> Result<Made, AllocError>
    ensures { IfOk result (λ made. made ≡ choice_made branches last) }
{
    let mut made = last;
    while let Some(branch) = branches.pop() {
        made = either(alloc, branch, made)?;
    }
    Ok(made)
}

/// The term before the others.
fn prepend(alloc: Global, first: Term, rest: Option<Term>) -> Result<Term, AllocError>
    ensures { IfOk result (λ made. (ts : List Term) → IsRow rest ts → IsRow (Some made) (first ∷ ts)) }
{
    match rest {
        Some(rest) => Term::cat(alloc, first, rest),
        None => Ok(first),
    }
}

/// So many copies of the term, and then the rest.
fn copies(
    alloc: Global,
    count: u8,
    term: &Term,
    rest: Option<Term>,
) -> Result<Option<Term>, AllocError>
    ensures { IfOk result (λ made. (ts : List Term) → IsRow rest ts → IsRow made (replicate count term.now ++ ts)) }
{
    let mut made = rest;
    for _ in 0..count {
        let copy = term.copy(alloc)?;
        made = Some(prepend(alloc, copy, made)?);
    }
    Ok(made)
}

/// The row, or the empty text where no term is in it.
fn some_or_empty(made: Option<Term>) -> Term
    ensures { (ts : List Term) → IsRow made ts → result ≡ row_of ts }
{
    match made {
        Some(term) => term,
        None => Term::Empty,
    }
}

/// The term as often as said.
fn repeated(alloc: Global, often: Often, term: Term) -> Result<Term, AllocError>
    requires { IsOrdered often }
    ensures { IfOk result (λ made. made ≡ repeated_term (times_of often) term) }
{
    match often {
        Often::Star => Term::star(alloc, term),
        Often::Plus => {
            let copy = term.copy(alloc)?;
            Term::cat(alloc, copy, Term::star(alloc, term)?)
        }
        Often::Optional => Term::alt(alloc, Term::Empty, term),
        Often::Exactly(n) => Ok(some_or_empty(copies(alloc, n, &term, None)?)),
        Often::AtLeast(n) => {
            let star = Term::star(alloc, term.copy(alloc)?)?;
            Ok(some_or_empty(copies(alloc, n, &term, Some(star))?))
        }
        Often::Between(n, m) => {
            let optional = Term::alt(alloc, Term::Empty, term.copy(alloc)?)?;
            let rest = copies(alloc, m - n, &optional, None)?;
            Ok(some_or_empty(copies(alloc, n, &term, rest)?))
        }
    }
}

/// The positions of an atom that comes as often as said.
fn multiplied(often: Often, positions: u32) -> u32
    ensures { result ≡ multiplied_number (times_of often) positions }
{
    match often {
        Often::Star | Often::Optional => positions.max(1),
        Often::Plus => product(positions, 2),
        Often::Exactly(n) => product(positions, n as u32),
        Often::AtLeast(n) => product(positions, n as u32 + 1),
        Often::Between(_, m) => product(positions, m as u32),
    }
}

/// The atom as often as said. Copies are made only where all of them have no more positions than are allowed.
pub fn repeat(alloc: Global, often: Often, atom: Made) -> Result<Made, AllocError>
    requires { IsOrdered often }
    ensures { IfOk result (λ made. made ≡ often_made (times_of often) atom) }
{
    let positions = multiplied(often, atom.positions);
    if positions > LIMIT {
        return Ok(Made {
            term: None,
            positions,
        });
    }
    match atom.term {
        Some(term) => Ok(Made {
            term: Some(repeated(alloc, often, term)?),
            positions,
        }),
        // so few are positions of an atom that is too large only where there are no copies
        None => Ok(Made {
            term: Some(Term::Empty),
            positions,
        }),
    }
}
