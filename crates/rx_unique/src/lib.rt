//! That the grammar of patterns gives each text one answer.
#![tactic(auto)]

mod laws;

pub use laws::one_answer_law;
