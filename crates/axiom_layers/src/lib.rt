//! Layers of derived facts.
#![tactic(auto)]

mod arcs;
mod lifting;
mod order;

pub use lifting::layers;
