//! Byte sets and regular terms, with the laws of their texts.
#![tactic(auto)]

mod laws;
mod layers;
mod sets;
mod terms;

pub use laws::{closing_law, counting_law, derivative_law, membership_law, one_fault};
pub use sets::ByteSet;
use std::alloc::AllocError;
pub use terms::Term;

/// Want of memory.
pub type OutOfMemory = AllocError;
