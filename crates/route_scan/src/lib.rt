//! Routing by trying hosts and routes one after the other, over any test of routes by their numbers.
#![tactic(auto)]

mod router;
mod rules;
mod scan;
mod starts;
mod trees;
mod trial;

pub use cfg_types::{Choice, Reply};
pub use router::Router;
pub use rules::{Rules, room_of, rule_tests};
pub use scan::{Scan, choose_by_rules};
pub use trial::Trial;
