//! Formulas of the rules of routes.
#![tactic(auto)]

mod headers;
mod laws;
mod rules;
mod terms;

pub use headers::header_formula;
pub use laws::rule_laws;
pub use rules::{fraction_formula, grpc_formula, path_formula, query_formula, rule_formula};
pub use terms::path_term;
