//! What is printed at the end of a run, in pieces that take no memory.

ghost use Rattle.std.specs.Prelude.{◌≡◌, OnOk, OnErr, decimal};
ghost use Rattle.std.specs.List.{flat_map};
ghost use Rattle.std.specs.Io.KnownBytes.{append_known};
ghost use Rattle.tl_device.specs.Causes.{HasCause};
ghost use Rattle.tl_device.specs.Contents.{PrintedInPart};
ghost use Rattle.messages.specs.Messages.{fault_line, named_line, position_text, refusal_line, summary_lines, task_lines};
ghost use Rattle.messages.specs.Outcome.{line_of};
ghost use Rattle.messages.specs.Pieces.{bytes_of, piece_bytes};

use crate::outcome::{End, Message, Report, Summary};
use itoa::Buffer;
use pddl_lexer::At;
use tl_device::{Console, Failed, say_all};

/// A fixed part of what is printed.
#[derive(Clone, Copy)]
pub(crate) enum Phrase {
    Usage,
    OutOfMemory,
    CannotWrite,
    CannotRead,
    Prefix,
    Colon,
    BeforeWords,
    Candidates,
    Invariants,
    Variables,
    Facts,
    MutexGroups,
    Operators,
    Axioms,
    LineFeed,
}

impl Phrase {
    #[tactic(auto, unfolding(crate::specs::Pieces::bytes_of, crate::specs::Messages::usage_line, crate::specs::Messages::memory_line))]
    fn bytes(self) -> &'static [u8]
        ensures { result.now ≡ bytes_of self }
    {
        match self {
            Phrase::Usage => b"usage: translate DOMAIN PROBLEM [options]\n",
            Phrase::OutOfMemory => b"translate: out of memory\n",
            Phrase::CannotWrite => b"translate: cannot write ",
            Phrase::CannotRead => b"translate: cannot read ",
            Phrase::Prefix => b"translate: ",
            Phrase::Colon => b":",
            Phrase::BeforeWords => b": ",
            Phrase::Candidates => b"Translator candidates: ",
            Phrase::Invariants => b"\nTranslator invariants: ",
            Phrase::Variables => b"\nTranslator variables: ",
            Phrase::Facts => b"\nTranslator facts: ",
            Phrase::MutexGroups => b"\nTranslator mutex groups: ",
            Phrase::Operators => b"\nTranslator operators: ",
            Phrase::Axioms => b"\nTranslator axioms: ",
            Phrase::LineFeed => b"\n",
        }
    }
}

/// A part of what is printed.
#[derive(Clone, Copy)]
pub(crate) enum Piece<'a> {
    Fixed(Phrase),
    Name(&'a str),
    Number(u128),
}

fn say_piece<C: Console>(console: &mut C, piece: &Piece<'_>) -> Result<(), Failed>
    ensures ok { OnOk result (C.printed console.new ≡ append_known (C.printed console.old) (piece_bytes piece.now)) }
    ensures err { OnErr result (PrintedInPart (C.printed console.old) (C.printed console.new) (piece_bytes piece.now)) }
    ensures cause { HasCause (C.faults console.old) (C.faults console.new) result }
{
    match piece {
        Piece::Fixed(phrase) => say_all(console, phrase.bytes()),
        Piece::Name(name) => say_all(console, name.as_bytes()),
        Piece::Number(number) => say_all(console, Buffer::new().format(*number).as_bytes()),
    }
}

fn say_pieces<C: Console>(console: &mut C, pieces: &[Piece<'_>]) -> Result<(), Failed>
    ensures ok { OnOk result (C.printed console.new ≡ append_known (C.printed console.old) (flat_map piece_bytes pieces.now)) }
    ensures err { OnErr result (PrintedInPart (C.printed console.old) (C.printed console.new) (flat_map piece_bytes pieces.now)) }
    ensures cause { HasCause (C.faults console.old) (C.faults console.new) result }
{
    for piece in pieces {
        say_piece(console, piece)?;
    }
    Ok(())
}

fn say_summary<C: Console>(console: &mut C, summary: &Summary) -> Result<(), Failed>
    ensures ok { OnOk result (C.printed console.new ≡ append_known (C.printed console.old) (summary_lines summary.now)) }
    ensures err { OnErr result (PrintedInPart (C.printed console.old) (C.printed console.new) (summary_lines summary.now)) }
    ensures cause { HasCause (C.faults console.old) (C.faults console.new) result }
{
    let pieces = [
        Piece::Fixed(Phrase::Candidates),
        Piece::Number(summary.candidates as u128),
        Piece::Fixed(Phrase::Invariants),
        Piece::Number(summary.invariants as u128),
        Piece::Fixed(Phrase::Variables),
        Piece::Number(summary.variables as u128),
        Piece::Fixed(Phrase::Facts),
        Piece::Number(summary.facts),
        Piece::Fixed(Phrase::MutexGroups),
        Piece::Number(summary.mutex_groups as u128),
        Piece::Fixed(Phrase::Operators),
        Piece::Number(summary.operators as u128),
        Piece::Fixed(Phrase::Axioms),
        Piece::Number(summary.axioms as u128),
        Piece::Fixed(Phrase::LineFeed),
    ];
    say_pieces(console, &pieces)
}

/// Says the sizes of a written task, and the lines on the plan that is mapped back.
fn say_report<C: Console>(console: &mut C, report: &Report) -> Result<(), Failed>
    ensures ok { OnOk result (C.printed console.new ≡ append_known (C.printed console.old) (task_lines report.now.summary report.now.plan.items)) }
    ensures err { OnErr result (PrintedInPart (C.printed console.old) (C.printed console.new) (task_lines report.now.summary report.now.plan.items)) }
    ensures cause { HasCause (C.faults console.old) (C.faults console.new) result }
{
    say_summary(console, &report.summary)?;
    say_all(console, &report.plan)
}

/// Says this of the file of this name.
fn say_named<C: Console>(console: &mut C, phrase: Phrase, name: &str) -> Result<(), Failed>
    ensures ok { OnOk result (C.printed console.new ≡ append_known (C.printed console.old) (named_line (bytes_of phrase) name.now)) }
    ensures err { OnErr result (PrintedInPart (C.printed console.old) (C.printed console.new) (named_line (bytes_of phrase) name.now)) }
    ensures cause { HasCause (C.faults console.old) (C.faults console.new) result }
{
    let pieces = [
        Piece::Fixed(phrase),
        Piece::Name(name),
        Piece::Fixed(Phrase::LineFeed),
    ];
    say_pieces(console, &pieces)
}

/// Says this of a position in the text of this name.
fn say_of_position<'a, C: Console>(
    console: &mut C,
    name: &'a str,
    at: At,
    words: &'a str,
) -> Result<(), Failed>
    ensures ok { OnOk result (C.printed console.new ≡ append_known (C.printed console.old) (fault_line name.now (position_text at) words.now)) }
    ensures err { OnErr result (PrintedInPart (C.printed console.old) (C.printed console.new) (fault_line name.now (position_text at) words.now)) }
    ensures cause { HasCause (C.faults console.old) (C.faults console.new) result }
{
    let pieces = [
        Piece::Fixed(Phrase::Prefix),
        Piece::Name(name),
        Piece::Fixed(Phrase::Colon),
        Piece::Number(at.line as u128),
        Piece::Fixed(Phrase::Colon),
        Piece::Number(at.column as u128),
        Piece::Fixed(Phrase::BeforeWords),
        Piece::Name(words),
        Piece::Fixed(Phrase::LineFeed),
    ];
    say_pieces(console, &pieces)
}

/// Says this of a line of the text of this name.
fn say_of_line<'a, C: Console>(
    console: &mut C,
    name: &'a str,
    line: u64,
    words: &'a str,
) -> Result<(), Failed>
    ensures ok { OnOk result (C.printed console.new ≡ append_known (C.printed console.old) (fault_line name.now (decimal line) words.now)) }
    ensures err { OnErr result (PrintedInPart (C.printed console.old) (C.printed console.new) (fault_line name.now (decimal line) words.now)) }
    ensures cause { HasCause (C.faults console.old) (C.faults console.new) result }
{
    let pieces = [
        Piece::Fixed(Phrase::Prefix),
        Piece::Name(name),
        Piece::Fixed(Phrase::Colon),
        Piece::Number(line as u128),
        Piece::Fixed(Phrase::BeforeWords),
        Piece::Name(words),
        Piece::Fixed(Phrase::LineFeed),
    ];
    say_pieces(console, &pieces)
}

/// Says why the text of this name is refused.
fn say_refusal<C: Console>(console: &mut C, name: &str, message: &Message) -> Result<(), Failed>
    ensures ok { OnOk result (C.printed console.new ≡ append_known (C.printed console.old) (refusal_line name.now message.now)) }
    ensures err { OnErr result (PrintedInPart (C.printed console.old) (C.printed console.new) (refusal_line name.now message.now)) }
    ensures cause { HasCause (C.faults console.old) (C.faults console.new) result }
{
    let words = message.words();
    match message {
        Message::Fault(fault) => say_of_position(console, name, fault.at, words),
        Message::BadPlanLine(line) => say_of_line(console, name, *line, words),
        Message::UnknownStep(line) => say_of_line(console, name, *line, words),
        Message::TaskLine(fault) => say_of_line(console, name, fault.line, words),
    }
}

/// Says how the work ended: the lines on the written task, or the one line that says why there is none, as the README has them
/// (`ok`). Where the console fails, a front of them is printed (`err`) and its count of faults rose (`cause`).
pub fn say_outcome<C: Console>(
    console: &mut C,
    outcome: &Result<Report, End<'_>>,
) -> Result<(), Failed>
    ensures ok { OnOk result (C.printed console.new ≡ append_known (C.printed console.old) (line_of outcome.now)) }
    ensures err { OnErr result (PrintedInPart (C.printed console.old) (C.printed console.new) (line_of outcome.now)) }
    ensures cause { HasCause (C.faults console.old) (C.faults console.new) result }
{
    match outcome {
        Ok(report) => say_report(console, report),
        Err(End::Usage) => say_all(console, Phrase::Usage.bytes()),
        Err(End::NoMemory) => say_all(console, Phrase::OutOfMemory.bytes()),
        Err(End::CannotRead(name)) => say_named(console, Phrase::CannotRead, name),
        Err(End::CannotWrite(name)) => say_named(console, Phrase::CannotWrite, name),
        Err(End::Refused(name, message)) => say_refusal(console, name, message),
    }
}
