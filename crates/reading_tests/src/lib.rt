//! Tests of the reading and the checks of the two files, over texts: the nested list and its faults, the parts of the files,
//! what they mean, what only a look across their sections can tell, and links between names.
//!
//! They stand apart from the crates that they test, since each proof of a test counts, and those crates are large.
#![tactic(auto)]

#[cfg(test)]
mod checks;
#[cfg(test)]
mod components;
#[cfg(test)]
mod links;
#[cfg(test)]
mod meaning;
#[cfg(test)]
mod parser;
#[cfg(test)]
mod reading;
#[cfg(test)]
mod shapes;
#[cfg(test)]
mod trees;
