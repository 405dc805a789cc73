//! Guesses of invariants.
#![tactic(auto)]

mod guess;
pub mod laws;
mod types;

pub use guess::find;
pub use types::Found;
