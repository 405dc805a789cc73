//! Normal tasks: what they are, what they mean, and the laws of the normal task of a pair of files.
#![tactic(auto)]

mod atom_set;
pub mod laws;
mod parts;
mod range;
mod task;

pub use atom_set::AtomSet;
pub use parts::{Fresh, Part};
pub use range::ObjectRange;
pub use task::{
    AxiomRow, CostRow, EffectRow, GroundAtom, Literal, Normal, Object, Place, Predicate,
    PredicateRow, Schema, ValueRow,
};
