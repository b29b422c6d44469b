//! Cases of a report's rows: lines that are rows with what is written of them, and lines that are none with their faults.
#![tactic(auto)]

#[cfg(test)]
mod offences;
#[cfg(test)]
mod shapes;
#[cfg(test)]
mod told;
#[cfg(test)]
mod written;
