//! Tests of the files and the console in memory, and of the real ones.
//!
//! They stand apart from the crate that they test, which would otherwise be proved once more with them.
#![tactic(auto)]

#[cfg(test)]
mod memory;
#[cfg(test)]
mod reading;
#[cfg(test)]
mod real;
