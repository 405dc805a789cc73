//! How a run ends, and the lines that are printed of that: the status, the message on a text that is refused, and the sizes of
//! a written task.
#![tactic(auto)]

mod message;
mod outcome;

pub use message::say_outcome;
pub use outcome::{End, Message, Report, Status, Summary};
