//! Tasks without what no pair of facts allows: which pairs of facts are possible, what is left of a task, and what that
//! keeps.
#![tactic(auto)]

pub mod laws;
