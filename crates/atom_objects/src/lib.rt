//! The objects of an atom, by their numbers: a short list that stands in the value itself, and is seen as what it holds.
#![tactic(auto)]

mod objects;

pub use objects::Objects;
