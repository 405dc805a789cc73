//! How a run ends.

ghost use Rattle.std.specs.Prelude.{◌≡◌};
ghost use Rattle.std.specs.Process.{exit_status};
ghost use Rattle.messages.specs.Messages.{words_of};
ghost use Rattle.messages.specs.Outcome.{code_of, status_of};
ghost use Rattle.messages.specs.declared.outcome.End.TheVariants.{NoMemory};

use pddl_lexer::Fault;
use sas_reader::SasFault;
use std::alloc::AllocError;
use std::process::ExitCode;

/// What the process answers.
#[derive(Clone, Copy, PartialEq, Eq)]
pub enum Status {
    /// The output file is written.
    Done,
    /// The words are refused.
    Usage,
    /// Memory ran out.
    NoMemory,
    /// A file or the console failed, or an input file is absent.
    Device,
    /// The input has a fault.
    InputFault,
}

impl Status {
    /// The exit status of the process, by the README's table.
    pub fn code(self) -> u8
        ensures { result ≡ code_of self }
    {
        match self {
            Status::Done => 0,
            Status::Usage => 2,
            Status::NoMemory => 20,
            Status::Device => 30,
            Status::InputFault => 31,
        }
    }

    /// What the process answers after this end of the work, where the console takes what is said.
    pub fn of(outcome: &Result<Report, End<'_>>) -> Status
        ensures { result ≡ status_of outcome.now }
    {
        match outcome {
            Ok(_) => Status::Done,
            Err(End::Usage) => Status::Usage,
            Err(End::NoMemory) => Status::NoMemory,
            Err(End::CannotRead(_)) | Err(End::CannotWrite(_)) => Status::Device,
            Err(End::Refused(_, _)) => Status::InputFault,
        }
    }
}

impl From<Status> for ExitCode {
    ghost from_gives = { λ status code. exit_status code ≡ code_of status };

    fn from(status: Status) -> ExitCode {
        ExitCode::from(status.code())
    }
}

/// How the search for invariants went, and the sizes of the written task.
#[derive(Clone, Copy)]
pub struct Summary {
    /// How many candidates were tried.
    pub candidates: u64,
    /// How many of them were accepted.
    pub invariants: u64,
    pub variables: u64,
    /// The sum of the ranges of all variables.
    pub facts: u128,
    pub mutex_groups: u64,
    pub operators: u64,
    /// The number of rules.
    pub axioms: u64,
}

/// What is printed of a written task.
#[derive(Drop)]
pub struct Report {
    pub summary: Summary,
    /// The lines on the plan that is mapped back; none where no plan file is named.
    pub plan: Vec<u8>,
}

/// What is said of a text that is refused, and of which place in it. Lines are counted from 1.
#[derive(Clone, Copy)]
pub enum Message {
    /// A fault of the domain or of the problem, or a file that is too long.
    Fault(Fault),
    /// A line of the plan file that is no step and no comment.
    BadPlanLine(u64),
    /// A step of the plan file whose name no operator of the task has.
    UnknownStep(u64),
    /// A line of a written task that breaks its rule.
    TaskLine(SasFault),
}

impl Message {
    /// What it says.
    pub(crate) fn words(&self) -> &'static str
        ensures { result.now ≡ words_of self.now }
    {
        match self {
            Message::Fault(fault) => fault.kind.text(),
            Message::BadPlanLine(_) => "malformed plan line",
            Message::UnknownStep(_) => "unknown step",
            Message::TaskLine(fault) => fault.place.text(),
        }
    }
}

/// Why no task is written. A file is told by its name.
#[derive(Clone, Copy)]
pub enum End<'a> {
    Usage,
    NoMemory,
    CannotRead(&'a str),
    CannotWrite(&'a str),
    Refused(&'a str, Message),
}

impl<'a> From<AllocError> for End<'a> {
    ghost from_gives = { λ _ end. end ≡ NoMemory };

    fn from(_: AllocError) -> End<'a> {
        End::NoMemory
    }
}
