//! Tables of several terms, stepped together: the states after a word are one ascending list of live places. And the
//! check that listed words close, by which no text of any length is in the terms as literals claim.
#![tactic(auto)]

mod chosen;
mod closing;
mod hints;
mod joint;
mod lists;
mod literals;
mod places;
mod replay;

pub use chosen::Chosen;
pub use closing::{are_apart, closes, joint_of};
pub use joint::Joint;
pub use lists::Lists;
pub use literals::Literal;
pub use replay::is_listed;
