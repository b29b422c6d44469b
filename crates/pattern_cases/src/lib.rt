//! Worked cases of patterns, as tests: byte sets, terms, those of the builders, classes of bytes, texts that are read, and
//! tables.
#![tactic(auto)]

#[cfg(test)]
mod builders;
#[cfg(test)]
mod classes;
#[cfg(test)]
mod made;
#[cfg(test)]
mod read;
#[cfg(test)]
mod tables;
#[cfg(test)]
mod terms;
