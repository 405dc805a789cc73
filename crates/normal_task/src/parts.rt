// The parts of conditions, and the predicates that are made of them.

use crate::range::ObjectRange;
use crate::task::Literal;
use lists::List;

/// A list of variables, each by the objects that it ranges over, and a list of literals.
#[derive(Drop)]
pub struct Part {
    pub variables: List<ObjectRange>,
    pub literals: List<Literal>,
}

/// A new derived predicate: what its arguments range over, and the parts of its axioms.
#[derive(Drop)]
pub struct Fresh {
    pub arguments: List<ObjectRange>,
    pub parts: List<Part>,
}
