//! A plan that is mapped to operators.

use lists::{List, Name};

/// A step of a plan: the operator's name and its objects, lowered, and what it costs.
#[derive(Drop)]
pub struct Step {
    pub words: List<Name>,
    pub cost: u64,
}

/// The steps of a plan, and what they cost together.
#[derive(Drop)]
pub struct Mapped {
    pub steps: List<Step>,
    pub total: u64,
}
