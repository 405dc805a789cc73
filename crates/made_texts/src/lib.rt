//! The made texts: a PDDL domain, and a problem for each number of balls, so that a first try needs no file.
#![tactic(auto)]

mod parts;
mod texts;

pub use texts::{domain, problem};
