//! Cases of reading: configurations and test files, each with what is read of it or its first offence.
#![tactic(auto)]

#[cfg(test)]
mod action_rows;
#[cfg(test)]
mod configs;
#[cfg(test)]
mod host_rows;
#[cfg(test)]
mod limits;
#[cfg(test)]
mod match_rows;
#[cfg(test)]
mod orders;
#[cfg(test)]
mod parts;
#[cfg(test)]
mod rules_told;
#[cfg(test)]
mod test_files;
#[cfg(test)]
mod told;
#[cfg(test)]
mod trees;
