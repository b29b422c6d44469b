//! The check of a report's rows. It neither searches nor knows an order of splits, and asks no router.
#![tactic(auto)]

mod laws;
mod leaves;
mod nodes;
mod reading;
mod rows;
mod truth;

pub use goal_tables::SharedTables;
pub use laws::one_goal_law;
pub use nodes::{check_nodes, check_unfinished};
pub use rows::{check_goal_row, check_row};
