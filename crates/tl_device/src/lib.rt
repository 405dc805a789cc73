//! The outside of the translator: files and a console as traits that count their faults, calls that
//! read or write whole files and texts, an implementation in memory for tests, and the real one.
#![tactic(auto)]

mod calls;
mod device;
mod entries;
mod mem_console;
mod mem_files;
mod real;
mod whole;

pub use calls::FileCall;
pub use device::{Console, Failed, Files};
pub use mem_console::MemConsole;
pub use mem_files::MemFiles;
pub use real::{RealConsole, RealFiles};
pub use whole::{ReadEnd, put_all, read_all, say_all};
