//! Writes a task as the text of the planner's output format, version 3.
#![tactic(auto)]

mod lines;
mod operators;
mod rules;
mod sections;
mod text;

pub use text::text_of;
