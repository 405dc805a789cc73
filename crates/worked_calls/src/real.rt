//! Calls on the real files and the standard output.

use crate::outside::answer;
use crate::texts::Texts;
use pass_book::Book;
use std::alloc::AllocError;
use std::{fs, io};
use tl_device::{RealConsole, RealFiles};
use translator::Status;

const OUTPUT: &str = "output.sas";

/// How the call with these words ends.
fn status(rt: &HostRuntime, words: &str) -> Result<Status, AllocError> {
    let mut files = RealFiles::new(rt);
    let mut console = RealConsole::new(rt);
    let book = Book::new(rt.alloc());
    let status = answer(rt.alloc(), words, &mut files, &mut console, &book);
    drop(book);
    status
}

fn holds(rt: &HostRuntime, name: &str, text: &str) -> bool {
    matches!(fs::read(rt, name), Ok(held) if held.as_slice() == text.as_bytes())
}

/// Whether an absent problem is told, and this task is written.
fn is_written(rt: &HostRuntime, task: &str) -> Result<bool, AllocError> {
    Ok(
        status(rt, "translate examples/switch/domain.pddl no_file")? == Status::Device
            && status(
                rt,
                "translate examples/switch/domain.pddl examples/switch/problem.pddl",
            )? == Status::Done
            && holds(rt, OUTPUT, task),
    )
}

/// Says whether the switch task takes the place of a longer one, behind what the two calls print.
pub fn tell(rt: &HostRuntime, texts: &Texts) -> io::Result<()> {
    let task = texts.find("switch/output.sas").unwrap_or("");
    fs::write(rt, OUTPUT, task.repeat(rt.alloc(), 2)?.as_bytes())?;
    let verdict = if is_written(rt, task)? {
        "as it stands"
    } else {
        "otherwise"
    };
    fs::remove_file(rt, OUTPUT)?;
    println!(rt; "the switch task in the real output file: {verdict}")
}
