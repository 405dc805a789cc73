//! Reached tasks, and the atoms of ground tasks.
#![tactic(auto)]

mod atoms;
pub mod laws;
mod shown;
mod steps;
mod types;

pub use atoms::Atoms;
pub use shown::facts;
pub use steps::Steps;
pub use types::{Fact, FactNumber, Reached, ReachedAction, ReachedAxiom, ReachedEffect};
