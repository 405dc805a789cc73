//! The text of a PDDL file as one nested list, or its first fault.
#![tactic(auto)]

mod builder;
mod fault;
mod laws;
mod position;
mod reader;
mod scanner;
mod tree;
mod words;

pub use fault::{Fault, Kind, ShapePlace};
pub use laws::{has_tree, lowering, one_tree, some_member, worked_examples};
pub use position::At;
pub use reader::read_tree;
pub use scanner::is_word_byte;
pub use tree::Tree;
