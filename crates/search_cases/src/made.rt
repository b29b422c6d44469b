//! Terms and literals of the cases, out of patterns.

use rx_joint::Literal;
use rx_parse::parse;
use rx_term::Term;
use std::alloc::Global;
use std::test::Fail;

/// The term of a pattern.
pub(crate) fn term_of(alloc: Global, pattern: &str) -> Result<Term, Fail> {
    let bytes = pattern.as_bytes();
    if bytes.len() > 512 {
        return Err(Fail::from("the pattern is too long"));
    }
    Ok(parse(alloc, bytes).ok().ok_or("no term")?)
}

/// The literal of `+` and a pattern that the text has to be in, or of `-` and one that it must not be in.
fn literal_of(alloc: Global, text: &str) -> Result<Literal, Fail> {
    let (pattern, holds) = match text.strip_prefix('+') {
        Some(pattern) => (pattern, true),
        None => (text.strip_prefix('-').ok_or("no sign")?, false),
    };
    Ok(Literal {
        term: term_of(alloc, pattern)?,
        holds,
    })
}

/// The literals of a text, divided by spaces.
pub(crate) fn literals_of(alloc: Global, text: &str) -> Result<Vec<Literal>, Fail> {
    let mut literals = Vec::new(alloc);
    for word in text.split(' ') {
        literals.push(literal_of(alloc, word)?)?;
    }
    Ok(literals)
}
