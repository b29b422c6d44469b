//! Routes and what they do with a request, read from JSON: forwarding, redirects, direct responses and header edits.
#![tactic(auto)]

mod clusters;
mod edits;
mod forward;
mod redirect;
mod route;

pub use edits::read_edits;
pub use route::{PlainRoute, TypedRoute, read_route};
