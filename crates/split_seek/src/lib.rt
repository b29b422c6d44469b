//! The search for a request that meets a goal, by splits on one atom after the other.
#![tactic(auto)]

mod finding;
mod first;
mod hints;
mod kept;
mod look;
mod made;
mod search;
mod serve;
mod texts;

pub use finding::Finding;
pub use goal_tables::SharedTables;
pub use search::{analyse, analyse_with};
