//! The virtual host of an authority.
#![tactic(auto)]

mod authority;
mod domains;
mod hosts;

pub use authority::host_text;
pub use domains::ranks_before;
pub use hosts::Hosts;
