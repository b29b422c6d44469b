//! Cases of the check of a report's rows: damaged trees, requests that are sent elsewhere, and budgets.
#![tactic(auto)]

#[cfg(test)]
mod made;
#[cfg(test)]
mod nodes;
#[cfg(test)]
mod rows;
