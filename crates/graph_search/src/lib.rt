//! The numbers that the arcs of a graph lead to from some of them. The nodes of the graph are numbers.
#![tactic(auto)]

mod search;

pub use search::reached;
