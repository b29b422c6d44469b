//! Goals made from a line of text: guards separated by ` | `, the route's own one first and then the earlier ones, each of
//! atoms separated by `, `.

use goal_form::{Atom, Atoms, Formula, Goal};
use rx_term::{ByteSet, Term};
use sqlite_items::{Boxed, Items};
use std::alloc::Global;
use text_base::{Field, OutOfMemory, Text};

fn byte(byte: u8) -> Term {
    Term::One(ByteSet(1u128 << u32::from(byte % 128)))
}

/// Any printed bytes.
fn any(alloc: Global) -> Result<Term, OutOfMemory> {
    let printed = Term::One(ByteSet(0x7fff_ffff_ffff_ffff_ffff_ffff_0000_0000));
    Term::star(alloc, printed)
}

/// The bytes of the text, and then the last term.
fn row(alloc: Global, text: &str, last: Term) -> Result<Term, OutOfMemory> {
    let mut term = last;
    for c in text.as_bytes().iter().rev() {
        term = Term::cat(alloc, byte(*c), term)?;
    }
    Ok(term)
}

/// Nothing, or `?` and any bytes.
fn query(alloc: Global) -> Result<Term, OutOfMemory> {
    let all = any(alloc)?;
    let more = Term::cat(alloc, byte(b'?'), all)?;
    Term::alt(alloc, Term::Empty, more)
}

fn path_atom(alloc: Global, kind: &str, text: &str) -> Result<Atom, OutOfMemory> {
    let last = if kind == "exact" {
        query(alloc)?
    } else {
        any(alloc)?
    };
    Ok(Atom::Within {
        field: Field::Target,
        term: row(alloc, text, last)?,
        user: false,
    })
}

fn header_atom(alloc: Global, name: &str, text: &str) -> Result<Atom, OutOfMemory> {
    Ok(Atom::Within {
        field: Field::Header(Text::of(alloc, name)?),
        term: row(alloc, text, Term::Empty)?,
        user: false,
    })
}

/// `exact PATH`, `prefix PATH`, `is NAME TEXT` or `present NAME`.
pub(crate) fn atom_of(alloc: Global, words: &str) -> Result<Atom, OutOfMemory> {
    let (kind, rest) = match words.split_once(' ') {
        Some((kind, rest)) => (kind, rest),
        None => (words, ""),
    };
    if kind == "present" {
        return Ok(Atom::Present(Field::Header(Text::of(alloc, rest)?)));
    }
    if kind == "is" {
        return match rest.split_once(' ') {
            Some((name, text)) => header_atom(alloc, name, text),
            None => header_atom(alloc, rest, ""),
        };
    }
    path_atom(alloc, kind, rest)
}

/// The header `x-a` has a byte of the set before twelve others at its end, as by a pattern of the configuration.
pub(crate) fn pattern_atom(alloc: Global, set: ByteSet) -> Result<Atom, OutOfMemory> {
    let mut term = Term::One(ByteSet(0x7fff_ffff_ffff_ffff_ffff_ffff_0000_0000));
    for _ in 0..11 {
        term = Term::cat(
            alloc,
            Term::One(ByteSet(0x7fff_ffff_ffff_ffff_ffff_ffff_0000_0000)),
            term,
        )?;
    }
    let rest = Term::cat(alloc, Term::One(set), term)?;
    let before = any(alloc)?;
    Ok(Atom::Within {
        field: Field::Header(Text::of(alloc, "x-a")?),
        term: Term::cat(alloc, before, rest)?,
        user: true,
    })
}

/// An atom, or after `not ` its opposite.
fn leaf_of(alloc: Global, atoms: &mut Atoms, words: &str) -> Result<Formula, OutOfMemory> {
    match words.strip_prefix("not ") {
        Some(words) => {
            let number = atoms.number(atom_of(alloc, words)?)?;
            Ok(Formula::Not(Boxed::new(alloc, Formula::Leaf(number))?))
        }
        None => Ok(Formula::Leaf(atoms.number(atom_of(alloc, words)?)?)),
    }
}

/// A guard: all of its atoms.
fn guard_of(alloc: Global, atoms: &mut Atoms, line: &str) -> Result<Formula, OutOfMemory> {
    let mut members = Items::new(alloc);
    for words in line.split(", ") {
        members.push(leaf_of(alloc, atoms, words)?)?;
    }
    Ok(Formula::All(members))
}

/// The goal that the own guard holds, and none of the earlier ones.
pub(crate) fn goal_of(alloc: Global, line: &str) -> Result<Goal, OutOfMemory> {
    let mut atoms = Atoms::new(alloc);
    let mut members = Items::new(alloc);
    for guard in line.split(" | ") {
        let formula = guard_of(alloc, &mut atoms, guard)?;
        if members.is_empty() {
            members.push(formula)?;
        } else {
            members.push(Formula::Not(Boxed::new(alloc, formula)?))?;
        }
    }
    Ok(Goal {
        atoms,
        formula: Formula::All(members),
    })
}
