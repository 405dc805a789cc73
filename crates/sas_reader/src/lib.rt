//! Reads the text of the planner's output format, version 3, back into a task, line by line and section by section, or
//! finds the first line that breaks its rule.
#![tactic(auto)]

mod fault;
mod laws;
mod numbers;
mod operators;
mod parts;
mod reader;
mod requirements;
mod rules;
mod sections;
mod tables;
mod task;
mod values;

pub use fault::{SasFault, SasPlace};
pub use laws::{first_faults, texts};
pub use task::read_task;
