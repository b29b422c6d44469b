//! What a search answers.

use rx_auto::Words;

/// What a search answers. Words are listed by the earlier word that each one lengthens by a byte; no two of them have
/// the same states, and none of them is a valid text that meets the literals.
#[derive(Drop)]
pub enum Seen {
    /// A valid text that meets the literals.
    Found(Vec<u8>),
    /// Words that close: one more byte leads from each of them to the states of a listed word, so no valid text meets
    /// the literals. With a cap there are at most so many words, the empty word counted.
    Empty(Words),
    /// One word more than the cap, the empty word counted: the list has as many entries as the cap allows words.
    Capped(Words),
}
