//! Names of the two files: sets of them, links between them, and which of them are on a cycle; the arcs of a graph.
#![tactic(auto)]

mod arcs;
mod components;
mod cycles;
pub mod laws;
mod links;
mod table;

pub use arcs::{Arc, ArcsBySource};
pub use components::{Place, Searches};
pub use links::Links;
pub use table::Names;
