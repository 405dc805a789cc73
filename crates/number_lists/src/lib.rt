//! Sets of lists of numbers, and the keys of atoms, which are such lists.
#![tactic(auto)]

mod keys;
mod number_lists;

pub use keys::{key_of, write_key};
pub use number_lists::NumberLists;
