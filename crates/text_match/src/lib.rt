//! Rules on texts, made ready to be asked without memory.
#![tactic(auto)]

mod compare;
mod pattern;
mod text;

pub use compare::{begins, equals};
pub use pattern::PatternTest;
pub use rx_auto::Scratch;
pub use text::TextTest;
