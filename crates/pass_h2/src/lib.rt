//! The h2 pass: a task without what no pair of facts allows. The pairs are marked in a table.
#![tactic(auto)]

mod facts;
mod marks;
mod pruning;
mod search;
mod table;

pub use pruning::prune;
