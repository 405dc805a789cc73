//! A planning task over variables with finitely many values, as the planner's output format, version 3, has it:
//! its parts and their orders, when they are valid, what they mean, and the text that they are written as.
#![tactic(auto)]

mod copy;
pub mod effects;
pub mod laws;
mod order;
pub mod parts;
pub mod task;

pub use effects::{changes, facts_set};
pub use lists::{List, Text};
pub use order::{Ranked, arrange, each_once, list_order, ordered};
pub use parts::{Effect, Group, Operator, Pair, Rule, Value, Var, Variable};
pub use task::{SasTask, is_valid};
