//! What is done with a request whose choice is known: where it is sent and with which headers, or what answers it.
#![tactic(auto)]

mod clusters;
mod headers;
mod hosts;
mod levels;
mod replies;

pub use cfg_types::{Choice, Reply};
pub use replies::answer;
