//! The messages of a configuration, of a test file and of a report, with the members that each may have.
#![tactic(auto)]

mod carried;
mod fields;
mod laws;
mod message;
mod outside;

pub use carried::carried_of;
pub use fields::fields_of;
pub use laws::{camel_is_met_first, spellings_differ};
pub use message::{Message, Spellings};
pub use outside::outside_of;
