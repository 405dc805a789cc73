/// The kinds of passes. What a pass of each kind makes of a task is defined in `specs/Passes`.
#[derive(Clone, Copy, PartialEq, Eq)]
pub enum PassKind {
    /// The variables are ordered by how many operators have an effect on them.
    Order,
    /// What can't influence the goal is left out.
    Relevance,
    /// What no pair of facts allows is left out.
    H2,
}
