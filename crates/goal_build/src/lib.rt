//! The goals of routes: when a request is sent to a route, as a formula.
#![tactic(auto)]

mod goals;
mod host_goals;
mod host_parts;
mod kept;
mod laws;
mod numbering;
mod rivals;
mod shared;

pub use goals::goal;
pub use host_goals::HostGoals;
pub use kept::KeptGoals;
pub use laws::goal_laws;
