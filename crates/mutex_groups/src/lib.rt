//! Groups of facts of which at most one is true (Helmert 2009, invariants).
#![tactic(auto)]

mod grouping;
mod instances;
pub mod laws;
mod tables;

pub use grouping::groups;
