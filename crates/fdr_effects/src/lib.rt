//! What is reached, over variables and values: the places of facts in the sets of a cover, the ways in which variables
//! satisfy a condition, the effects of an action, and the groups.
#![tactic(auto)]

mod choices;
mod effects;
pub mod flags;
pub mod groups;
mod index;
mod literals;
pub mod on;
mod pools;
mod rivals;
mod splits;

pub use effects::effects_of;
pub use index::Index;
pub use splits::split;
