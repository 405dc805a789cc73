//! What can be wrong with a plan file.

/// A faulty line of a plan file. Lines are counted from 1.
#[derive(Clone, Copy, PartialEq, Eq)]
pub enum PlanFault {
    /// The line is no step and no comment.
    BadLine(u64),
    /// The line is a step whose name no operator has.
    UnknownStep(u64),
}
