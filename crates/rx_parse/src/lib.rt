//! Reads a regular expression's text into its term, or says where and how it is at fault.
#![tactic(auto)]

mod braces;
mod bytes;
mod class;
mod fault;
mod laws;
mod made;
mod place;
mod read;
mod reader;
mod step;

pub use fault::RxFault;
pub use laws::answer_law;
pub use read::parse;
