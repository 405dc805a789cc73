//! What a checked pair of files declares: the numbers of its objects, predicates and functions, and the objects that
//! variables of a type range over.
#![tactic(auto)]

mod asked;
mod below;
mod named;
mod numbering;

pub use numbering::Numbering;
