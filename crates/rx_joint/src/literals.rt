//! Literals.

use rx_term::Term;

/// A literal: what is claimed of a text.
#[derive(Drop)]
pub struct Literal {
    /// The term.
    pub term: Term,
    /// Whether the text has to be in the term, or must not be in it.
    pub holds: bool,
}
