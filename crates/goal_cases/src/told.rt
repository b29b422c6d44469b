// Goals told in texts: the formula, and the atoms by their numbers, with their terms as patterns.
use goal_form::{Atom, Atoms, Formula, Goal};
use rx_rows::printed;
use rx_term::{ByteSet, Term};
use std::alloc::Global;
use text_base::{Field, OutOfMemory};

/// Adds a byte, with `\` before it where it stands for more than itself.
fn add_byte(text: &mut String, byte: u8) -> Result<(), OutOfMemory> {
    if b".*|()[]^-!\\".contains(&byte) {
        text.push('\\')?;
    }
    text.push(char::from(byte))
}

/// Adds the bytes of a set, each run by its first byte and its last one.
fn add_runs(text: &mut String, set: ByteSet) -> Result<(), OutOfMemory> {
    for byte in 0..128u8 {
        if !set.has(byte) {
            continue;
        }
        let begins = byte == 0 || !set.has(byte - 1);
        let ends = !set.has(byte + 1);
        if begins || ends {
            add_byte(text, byte)?;
        }
        if begins && !ends {
            text.push('-')?;
        }
    }
    Ok(())
}

/// Adds a set: `.` is that of all printed bytes, `[^..]` one that lacks at most three of them, a byte stands for itself
/// alone.
fn add_set(text: &mut String, set: ByteSet) -> Result<(), OutOfMemory> {
    let lacking = ByteSet(printed().0 & !set.0);
    if lacking.0 == 0 {
        return text.push('.');
    }
    if set.0.count_ones() == 1 {
        return add_runs(text, set);
    }
    if lacking.0.count_ones() < 4 {
        text.push_str("[^")?;
        add_runs(text, lacking)?;
    } else {
        text.push('[')?;
        add_runs(text, set)?;
    }
    text.push(']')
}

/// How tightly a term is held together: a choice least, then a row.
fn hold_of(term: &Term) -> u8 {
    match term {
        Term::Alt(..) => 0,
        Term::Cat(..) => 1,
        _ => 2,
    }
}

/// Adds a term as a pattern, in brackets where it isn't held together so tightly: `()` is the empty text, `!` no text.
#[cycle(term)]
fn add_held(text: &mut String, term: &Term, hold: u8) -> Result<(), OutOfMemory> {
    if hold <= hold_of(term) {
        return add_term(text, term);
    }
    text.push('(')?;
    add_term(text, term)?;
    text.push(')')
}

#[cycle(term)]
fn add_term(text: &mut String, term: &Term) -> Result<(), OutOfMemory> {
    match term {
        Term::Nothing => text.push('!'),
        Term::Empty => text.push_str("()"),
        Term::One(set) => add_set(text, *set),
        Term::Cat(first, second) => {
            add_held(text, first.get(), 2)?;
            add_held(text, second.get(), 1)
        }
        Term::Alt(first, second) => {
            add_held(text, first.get(), 1)?;
            text.push('|')?;
            add_term(text, second.get())
        }
        Term::Star(body) => {
            add_held(text, body.get(), 2)?;
            text.push('*')
        }
    }
}

/// A field in two parts, of which the second is the name of a header.
fn names_of(field: &Field) -> (&'static str, &str) {
    match field {
        Field::Authority => ("authority", ""),
        Field::Target => ("target", ""),
        Field::Method => ("method", ""),
        Field::Proto => ("proto", ""),
        Field::Random => ("random", ""),
        Field::Runtime => ("runtime", ""),
        Field::Internal => ("internal", ""),
        Field::Header(name) => ("header:", name.as_str()),
    }
}

fn add_field(text: &mut String, field: &Field) -> Result<(), OutOfMemory> {
    let (kind, name) = names_of(field);
    text.push_str(kind)?;
    text.push_str(name)
}

/// Adds an atom: `FIELD` where the field has to be there, `FIELD in TERM`, or `FIELD in pattern TERM`.
fn add_atom(text: &mut String, atom: &Atom) -> Result<(), OutOfMemory> {
    match atom {
        Atom::Present(field) => add_field(text, field),
        Atom::Within { field, term, user } => {
            add_field(text, field)?;
            text.push_str(if *user { " in pattern " } else { " in " })?;
            add_term(text, term)
        }
    }
}

/// Adds a formula, an atom by its number.
#[cycle(formula)]
fn add_formula(alloc: Global, text: &mut String, formula: &Formula) -> Result<(), OutOfMemory> {
    match formula {
        Formula::Yes => text.push_str("yes"),
        Formula::No => text.push_str("no"),
        Formula::Leaf(number) => {
            let number = format!(in alloc; "{number}")?;
            text.push_str(number.as_str())
        }
        Formula::All(members) => {
            text.push_str("all(")?;
            add_members(alloc, text, members.as_slice())
        }
        Formula::Any(members) => {
            text.push_str("any(")?;
            add_members(alloc, text, members.as_slice())
        }
        Formula::Not(member) => {
            text.push_str("not(")?;
            add_formula(alloc, text, member.get())?;
            text.push(')')
        }
    }
}

/// Adds formulas, a space between any two, and a bracket after them.
#[cycle(formula)]
fn add_members(alloc: Global, text: &mut String, members: &[Formula]) -> Result<(), OutOfMemory> {
    let mut first = true;
    for member in members {
        text.push_str(if first { "" } else { " " })?;
        add_formula(alloc, text, member)?;
        first = false;
    }
    text.push(')')
}

/// The formula, and after it each atom.
pub(crate) fn told(alloc: Global, formula: &Formula, atoms: &Atoms) -> Result<String, OutOfMemory> {
    let mut text = String::new(alloc);
    add_formula(alloc, &mut text, formula)?;
    for atom in atoms.as_slice() {
        text.push_str("; ")?;
        add_atom(&mut text, atom)?;
    }
    Ok(text)
}

/// The goal, told so.
pub(crate) fn told_goal(alloc: Global, goal: &Goal) -> Result<String, OutOfMemory> {
    told(alloc, &goal.formula, &goal.atoms)
}
