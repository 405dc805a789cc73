//! The translator as a process.

ghost use Rattle.std.specs.Prelude.{◌≡◌};
ghost use Rattle.std.specs.Process.{exit_status};
ghost use Rattle.messages.specs.Outcome.{code_of};

use crate::command::without_words;
use crate::every_pass::translate_by_every_pass;
use messages::Status;
use std::env::Env;
use std::process::{ExitCode, Termination};
use std::{env, io, rt};
use tl_device::{RealConsole, RealFiles};

/// How a run ended. Only `run` makes one, so that a `main` which answers it ends with the run's own exit number.
#[derive(Drop)]
pub struct Ended {
    status: Status,
}

impl Termination for Ended {
    /// The number of the run's status.
    fn report<R: Eprint>(self, _rt: &R) -> ExitCode
        ensures { exit_status result ≡ code_of self.status }
    {
        ExitCode::from(self.status)
    }
}

/// Translates with the runtime's files and its standard output, by the words of its command line. The runtime tells no
/// contents, so no clause says more than the calls in it do.
pub fn run<R: rt::Files + Print + Env + AllocGlobal>(rt: &R) -> Ended {
    let mut files = RealFiles::new(rt);
    let mut console = RealConsole::new(rt);
    let status = match words(rt) {
        Ok(words) => translate_by_every_pass(rt.alloc(), words, &mut files, &mut console),
        Err(error) => without_words(&mut console, error.kind()),
    };
    Ended { status }
}

/// The words of the command line, the program's name first.
fn words<R: Env + AllocGlobal>(rt: &R) -> io::Result<Vec<String>> {
    let mut words = Vec::new(rt.alloc());
    for word in env::args(rt)? {
        words.push(word)?;
    }
    Ok(words)
}
