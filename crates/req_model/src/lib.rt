//! Requests that are valid by their type, and what is seen of them.
#![tactic(auto)]

mod bytes;
mod faults;
mod joined;
mod query;
mod request;
mod search;

pub use faults::is_header_name;
pub use joined::{Joined, join};
pub use request::Request;
pub use text_base::{BadRequest, Field, Heads, OutOfMemory, Parts, Text};
