//! The relevance pass: a task without what can't influence its goal.
#![tactic(auto)]

mod influences;
mod reduction;
mod search;

pub use reduction::relevant;
