//! Cases of routing: whole replies to requests by configurations, and the calls that no configuration reaches.
#![tactic(auto)]

#[cfg(test)]
mod actions;
#[cfg(test)]
mod edits;
#[cfg(test)]
mod hosts;
#[cfg(test)]
mod parts;
#[cfg(test)]
mod replies;
#[cfg(test)]
mod rules;
#[cfg(test)]
mod texts;
#[cfg(test)]
mod trials;
