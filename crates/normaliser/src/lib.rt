//! The normal task of a checked pair.
#![tactic(auto)]

mod axioms;
mod goal;
mod initial;
mod normal;
mod predicates;

pub use normal::normalise;
