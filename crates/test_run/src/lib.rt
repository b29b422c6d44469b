//! Verdicts on tests, the routes that they cover, and the lines that say so.
#![tactic(auto)]

mod coverage;
mod headers;
mod lines;
mod verdicts;

pub use coverage::count_covered;
pub use lines::{line_of, sum_line, test_line};
pub use verdicts::{Failure, Judged, verdict};
