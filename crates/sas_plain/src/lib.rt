//! One step of a task over variables, computed plainly from the definitions: the values in a state, whether an operator is
//! applicable, and its successor. It is slow and meant for small tasks, at which it shows what the definitions say.
#![tactic(auto)]

mod step;

pub use step::{is_applicable, successor, values};
