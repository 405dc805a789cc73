//! Which literals of the parts of actions can't hold together for an instance of a candidate for an invariant: their
//! terms, renamed and equated, the classes of equated terms, and what contradicts itself under these.
#![tactic(auto)]

mod common;
mod contradictory;
mod ranges;
mod renaming;
mod rising;
mod terms;
mod types;

pub use common::is_among;
pub use contradictory::{
    Case, are_same, classes, contradicts, is_contradictory, push_copies, push_terms, terms_at,
    zipped,
};
pub use ranges::{Ranges, range_of};
pub use renaming::{Renamed, Renaming, push_denied, push_renamed, renamed_row};
pub use terms::{TermPair, copy, is_same_place, term_at};
pub use types::{Candidate, Part, copies};
