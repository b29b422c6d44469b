//! Byte sets by their tests, and terms in rows: what builders of terms are made of.
#![tactic(auto)]

mod alphabets;
mod rows;
mod sets;

pub use alphabets::{authority_bytes, digits, printed, target_bytes, token_bytes, visible};
pub use rows::{all, alt, cat, one_and_more, rest, star, text_then};
pub use sets::{below, either, less, letter, only, printed_but};
