//! Invariants of normal tasks: what candidates are made of, and which are light and balanced (Helmert 2009, section 5).
#![tactic(auto)]

mod adds;
mod balanced;
mod check;
mod extensions;
pub mod laws;
mod light;
mod near;
mod parts;
mod tried;
mod types;

pub use adds::AddTable;
pub use check::{check_candidate, check_with, repairs};
pub use contradictions::{Candidate, Part};
pub use extensions::one_predicate;
pub use types::{AddPlace, Verdict};
