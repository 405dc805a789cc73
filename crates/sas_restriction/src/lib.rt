//! Restrictions of tasks: to some of their variables, in any order, to some of the values of each, and to some of their
//! operators. A pass over tasks chooses, and `restrict` or `into_restriction` does the rest; one law says when the
//! restriction may stand for the task.
#![tactic(auto)]

mod all;
mod chosen;
pub mod laws;
mod parts;
mod whole;

pub use all::{all_marks, all_values, numbers_below};
pub use chosen::{Chosen, Once};
pub use whole::{busy_marks, into_restriction, restrict};
