//! Tests of the words of the command line.
//!
//! They stand apart from the crate that they test, which would otherwise be proved once more with them.
#![tactic(auto)]

#[cfg(test)]
mod words;
