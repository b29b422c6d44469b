//! Cases of the sample configuration, told in rows.
#![tactic(auto)]

#[cfg(test)]
mod hosts;
