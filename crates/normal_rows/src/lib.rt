//! The parts and rows of a normal task: how they are copied, moved and joined, which variables are in scope and which of
//! them a quantified condition asks for, and what actions cost. The only error of a call is want of memory, also where
//! numbers would exceed a `u64`.
#![tactic(auto)]

mod behind;
mod changes;
mod free;
mod fresh;
mod increases;
mod made;
mod moved;
mod pairs;
mod parts;
mod rows;
mod scope;
mod slots;
mod variable;

pub use behind::behind_ranges;
pub use changes::{Change, effect_rows};
pub use fresh::with_fresh;
pub use increases::action_cost;
pub use made::{Made, joined_lists, made_behind, nothing_made};
pub use pairs::paired;
pub use parts::{one_part, part_alone};
pub use rows::{copied_literals, joined_ranges, moved_rows, push_axioms};
pub use scope::{Scope, place_of, places_of, scope_inside, scope_of};
pub use slots::{free_slots, renumbered, variables_of};
pub use variable::Variable;
