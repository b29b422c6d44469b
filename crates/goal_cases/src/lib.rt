//! Cases of goals: the formulas of routes told in texts, what they are worth on paths and at requests, and the calls that
//! they are made by.
#![tactic(auto)]

#[cfg(test)]
mod formulas;
#[cfg(test)]
mod languages;
#[cfg(test)]
mod made;
#[cfg(test)]
mod parts;
#[cfg(test)]
mod sights;
#[cfg(test)]
mod told;
#[cfg(test)]
mod trees;
#[cfg(test)]
mod truths;
#[cfg(test)]
mod values;
