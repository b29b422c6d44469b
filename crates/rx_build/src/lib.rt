//! Terms for the tests of routing, with their languages.
#![tactic(auto)]

mod hosts;
mod numbers;
mod parts;
mod paths;
mod queries;
mod rules;
mod texts;

pub use hosts::{host, host_laws};
pub use numbers::{digits_below, number_laws, range};
pub use parts::{empty_law, has_empty};
pub use paths::{
    path_ends, path_exact, path_laws, path_pattern, path_prefix, path_rule_laws, path_separated,
};
pub use queries::{query_first, query_laws};
pub use rules::{is_pattern, text_rule_law, text_term};
pub use texts::{contains, exact, prefix, suffix, text_laws};
