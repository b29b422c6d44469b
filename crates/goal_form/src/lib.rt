//! Atoms, formulas over them, goals, and the rows that show what becomes of a goal.
#![tactic(auto)]

mod atom;
mod atoms;
mod claims;
mod compose;
mod copies;
mod fields;
mod formula;
mod goal;
mod laws;
mod sight;
mod trail;
mod valid;
mod wellformed;

pub use atom::{Atom, field_of, same_atom};
pub use atoms::Atoms;
pub use claims::{has_user, is_claimed_absent, is_required};
pub use compose::{all_of, any_of, negated, present, within};
pub use copies::{copy_atom, copy_formula};
pub use fields::{copy_field, is_always, same_field};
pub use formula::{Formula, Standing, Truth, find_standing, value};
pub use goal::{Goal, Node, Row, RowBody};
pub use laws::valid_term_law;
pub use rx_auto::{Scratch, Words};
pub use sight::{Condition, Sight};
pub use trail::Trail;
pub use valid::valid_term;
pub use wellformed::is_well_formed;
