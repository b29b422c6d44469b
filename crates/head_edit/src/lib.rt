//! Header edits of one level over a map of headers, and maps made from headers and read again.
#![tactic(auto)]

mod additions;
mod edits;
mod maps;
mod values;

pub use edits::{MAX_HEADS, apply};
pub use maps::{add_head, add_heads, heads_from, map_of};
pub use text_base::{Heads, OutOfMemory};
