//! What a run makes of a pair of files without faults: the invariants that it finds, and its task, which translates the pair;
//! and what passes make of such a task, or of a written one.
#![tactic(auto)]

pub mod laws;
mod pair;
mod sizes;

pub use pair::{Made, task_of_pair};
pub use sizes::summary;
