//! Rows of a report as lines of JSON: writing them, and reading them back.
#![tactic(auto)]

mod fault;
mod field_names;
mod guess;
mod laws;
mod leaves;
mod letter;
mod nodes;
mod pieces;
mod read;
mod request;
mod rows;
mod shapes;
mod utf8;
mod words;
mod write;
mod write_nodes;
mod write_request;

pub use fault::RowFault;
pub use goal_form::{Node, Row, RowBody, Words};
pub use laws::round_trip_law;
pub use read::read_row;
pub use shapes::has_shape;
pub use write::write_row;
