//! The sample configuration, of as many hosts as are asked for, on which the search for requests is shown and measured.
#![tactic(auto)]

mod hosts;
mod laws;
mod routes;

pub use hosts::make;
pub use laws::{count_law, lawful_law};
