//! Worked cases of searches, as tests: texts that meet literals, words that close or are capped, and goals that are decided,
//! with how many splits.
#![tactic(auto)]

#[cfg(test)]
mod goal_searches;
#[cfg(test)]
mod goals;
#[cfg(test)]
mod literals;
#[cfg(test)]
mod made;
#[cfg(test)]
mod tables;
#[cfg(test)]
mod words;
