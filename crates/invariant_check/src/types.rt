// What the check says of a candidate, and the places of add effects.
use normal_task::Predicate;

/// An add effect, by its predicate and its schema.
#[derive(Clone, Copy)]
pub(crate) struct AddOf {
    pub(crate) predicate: Predicate,
    pub(crate) schema: u64,
}

/// An add effect, by its schema and its effect row.
#[derive(Drop)]
pub struct AddPlace {
    pub schema: u64,
    pub effect: u64,
}

/// What the check says of a candidate.
#[derive(Drop)]
pub enum Verdict {
    /// It is light and balanced.
    Accepted,
    /// It isn't light, or an add isn't balanced and no further part repairs it.
    Dropped,
    /// It is light and can be repaired: this is the first add that isn't balanced.
    Unbalanced(AddPlace),
}
