//! The translator: the words of a command line, a PDDL domain and a PDDL problem in, the text of a task out.
#![tactic(auto)]

mod command;
mod every_pass;
pub mod laws;
mod plan;
mod process;
mod request;
mod task_file;
mod translation;
mod work;

pub use command::{translate, without_words};
pub use every_pass::translate_by_every_pass;
pub use messages::{Message, Status, Summary};
pub use process::{Ended, run};
