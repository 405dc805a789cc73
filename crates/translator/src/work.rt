//! The work of a run on its files.

ghost use Rattle.std.specs.Prelude.{◌≡◌, ◌≤◌, ◌⊎◌, [], ◌∷◌, Some, None, map, option_map, length, OnOk, OnErr, IfOk, IfErr};
ghost use Rattle.tl_device.specs.Causes.{HasCause};
ghost use Rattle.tl_device.specs.Contents.{GrownInPart, emptied, grown};
ghost use Rattle.command_line.specs.declared.accepted.Settings.{Settings as MadeBy};
ghost use Rattle.command_line.specs.Accepted.{Files as OfFiles, WrittenTask, source_by};
ghost use Rattle.pass_book.specs.Held.{held_kinds};
ghost use Rattle.pass_book.specs.Passes.{IsChain, first_missing};
ghost use Rattle.messages.specs.Outcome.{status_of, line_of};
ghost use Rattle.sas_task.specs.Output.{text_of as task_text};
ghost use Rattle.run_task.specs.RunTask.{summary_of};
ghost use Rattle.translator.specs.Asked.{asked_of};
ghost use Rattle.translator.specs.Ending.{Gives};
ghost use Rattle.translator.specs.Run.{text, read, of_source, inputs, titles, all_inputs, all_titles, names_read, ComesTo};
ghost use Rattle.translator.specs.Store.{store, IsUntouched, AsksForNoOther};
ghost use Rattle.translator.specs.Call.{Ends};
ghost use Rattle.translator.specs.Plan.{plan_names};
ghost use Rattle.translator.specs.Requests.{asked_by};
ghost use Rattle.translator.specs.Stages.{IsRead, IsMadeOf, StopsReading, of_plan, output_by};

use crate::plan::mapped_lines;
use crate::request::{Request, requested};
use crate::task_file::{nothing_found, written_task};
use crate::translation::{Input, made_task, task_of};
use command_line::{Accepted, Settings, Source};
use lists::Stop;
use messages::{End, Message, Report};
use pass_book::{Book, PassKind};
use pddl_lexer::{At, Fault, Kind};
use run_task::{Made, summary};
use sas_task::SasTask;
use sas_writer::text_of;
use std::alloc::{AllocError, Global};
use tl_device::{Failed, Files, ReadEnd, put_all, read_all};

/// The most bytes of an input file, a plan file or a written task.
const INPUT_LIMIT: u64 = 67_108_864;

/// The text of a task, and what is printed of it.
#[derive(Drop)]
pub(crate) struct Written {
    pub(crate) text: Vec<u8>,
    pub(crate) report: Report,
}

/// Does what the words ask for, but for what is printed. The output file is created once its whole text is made.
pub(crate) fn work<'a, F: Files>(
    alloc: Global,
    words: &'a Vec<String>,
    files: &mut F,
    book: &Book,
) -> Result<Report, End<'a>>
    ensures ends { Ends (store F.Files files.old) (store F.Files files.new) (asked_of book.now words.now.items) (status_of result) (line_of result) }
    ensures asks { AsksForNoOther (store F.Files files.old) (store F.Files files.new) (names_read (asked_of book.now words.now.items)) }
{
    let request = requested(alloc, words, book)?;
    let written = prepared(alloc, &request, files, book)?;
    let output = request.accepted.output;
    match write_output(files, output, &written.text) {
        Ok(()) => Ok(written.report),
        Err(_) => Err(End::CannotWrite(output)),
    }
}

/// What is to be written, before anything is.
fn prepared<'a, F: Files>(
    alloc: Global,
    request: &Request<'a>,
    files: &mut F,
    book: &Book,
) -> Result<Written, End<'a>>
    requires { first_missing (held_kinds book.now) request.now.passes.items ≡ None }
    ensures ok { IfOk result (λ written. IsRead (store F.Files files.old) (store F.Files files.new) (λ held. ComesTo held (asked_by request.now) (Gives (output_by written)))) }
    ensures err { IfErr result (StopsReading (store F.Files files.old) (store F.Files files.new) (all_inputs (asked_by request.now)) (all_titles (asked_by request.now)) (λ held. ComesTo held (asked_by request.now))) }
    ensures untouched { IsUntouched (store F.Files files.old) (store F.Files files.new) }
    ensures asks { AsksForNoOther (store F.Files files.old) (store F.Files files.new) (all_inputs (asked_by request.now)) }
{
    let accepted = &request.accepted;
    let first = made(alloc, accepted, files)?;
    let made = passed(alloc, first, request.passes.as_slice(), book)?;
    let written = to_be_written(alloc, accepted.plan, &made, files);
    drop(made);
    written
}

/// The text of a task, and what is printed of it, with the lines on the plan of the file that is named.
fn to_be_written<'a, F: Files>(
    alloc: Global,
    plan: Option<&'a str>,
    made: &Made,
    files: &mut F,
) -> Result<Written, End<'a>>
    ensures ok { IfOk result (λ written. (written.text.items ≡ task_text made.now.task) × (written.report.summary ≡ summary_of made.now.found made.now.task)
        × IsRead (store F.Files files.old) (store F.Files files.new) (λ held. of_plan held (option_map (λ name. name.now) plan.entry) made.now.task ≡ Gives written.report.plan.items)) }
    ensures err { IfErr result (StopsReading (store F.Files files.old) (store F.Files files.new) (plan_names (option_map (λ name. name.now) plan.entry)) (plan_names (option_map (λ name. name.now) plan.entry)) (λ held e. of_plan held (option_map (λ name. name.now) plan.entry) made.now.task ≡ e)) }
    ensures untouched { IsUntouched (store F.Files files.old) (store F.Files files.new) }
    ensures asks { AsksForNoOther (store F.Files files.old) (store F.Files files.new) (plan_names (option_map (λ name. name.now) plan.entry)) }
{
    let plan = plan_lines(alloc, plan, &made.task, files)?;
    let text = text_of(alloc, &made.task)?;
    let summary = summary(&made.found, &made.task);
    Ok(Written {
        text,
        report: Report { summary, plan },
    })
}

/// The invariants, and what the passes of these kinds make of the task, one after another.
fn passed(alloc: Global, made: Made, kinds: &[PassKind], book: &Book) -> Result<Made, AllocError>
    requires { first_missing (held_kinds book.now) kinds.now ≡ None }
    ensures found { IfOk result (λ new. new.found ≡ made.found) }
    ensures chain { IfOk result (λ new. IsChain kinds.now made.task new.task) }
{
    let Made { found, task } = made;
    match book.apply(alloc, kinds, task) {
        Ok(task) => Ok(Made { found, task }),
        Err(Stop::NoMemory) => Err(AllocError),
        Err(Stop::Fault(_)) => unreachable!(),
    }
}

/// The task that is made of the source.
fn made<'a, F: Files>(
    alloc: Global,
    accepted: &Accepted<'a>,
    files: &mut F,
) -> Result<Made, End<'a>>
    ensures ok { IfOk result (λ made. IsRead (store F.Files files.old) (store F.Files files.new) (λ held. IsMadeOf (of_source held (source_by accepted.now.source)) accepted.now.settings [] made.found made.task)) }
    ensures err { IfErr result (StopsReading (store F.Files files.old) (store F.Files files.new) (inputs (source_by accepted.now.source)) (titles (source_by accepted.now.source)) (λ held e. of_source held (source_by accepted.now.source) ≡ e)) }
    ensures untouched { IsUntouched (store F.Files files.old) (store F.Files files.new) }
    ensures asks { AsksForNoOther (store F.Files files.old) (store F.Files files.new) (inputs (source_by accepted.now.source)) }
{
    match accepted.source {
        Source::Files { domain, problem } => {
            task_of_files(alloc, domain, problem, accepted.settings, files)
        }
        Source::Made { balls } => made_task(alloc, balls, accepted.settings),
        Source::WrittenTask { file } => task_of_file(alloc, file, files),
    }
}

/// The task that the two files mean.
fn task_of_files<'a, F: Files>(
    alloc: Global,
    domain: &'a str,
    problem: &'a str,
    settings: Settings,
    files: &mut F,
) -> Result<Made, End<'a>>
    ensures ok { IfOk result (λ made. IsRead (store F.Files files.old) (store F.Files files.new) (λ held. IsMadeOf (of_source held (OfFiles domain.now problem.now)) settings [] made.found made.task)) }
    ensures err { IfErr result (StopsReading (store F.Files files.old) (store F.Files files.new) (domain.now ∷ problem.now ∷ []) (domain.now ∷ problem.now ∷ []) (λ held e. of_source held (OfFiles domain.now problem.now) ≡ e)) }
    ensures untouched { IsUntouched (store F.Files files.old) (store F.Files files.new) }
    ensures asks { AsksForNoOther (store F.Files files.old) (store F.Files files.new) (domain.now ∷ problem.now ∷ []) }
{
    let domain_bytes = read_input(alloc, files, domain)?;
    let problem_bytes = read_input(alloc, files, problem)?;
    let domain = Input {
        name: domain,
        bytes: &domain_bytes,
    };
    let problem = Input {
        name: problem,
        bytes: &problem_bytes,
    };
    task_of(alloc, &domain, &problem, settings)
}

/// The task that is written in the file of this name. No invariants are searched for, whatever the settings say.
fn task_of_file<'a, F: Files>(alloc: Global, name: &'a str, files: &mut F) -> Result<Made, End<'a>>
    ensures ok { (settings : MadeBy) → IfOk result (λ made. IsRead (store F.Files files.old) (store F.Files files.new) (λ held. IsMadeOf (of_source held (WrittenTask name.now)) settings [] made.found made.task)) }
    ensures err { IfErr result (StopsReading (store F.Files files.old) (store F.Files files.new) (name.now ∷ []) (name.now ∷ []) (λ held e. of_source held (WrittenTask name.now) ≡ e)) }
    ensures untouched { IsUntouched (store F.Files files.old) (store F.Files files.new) }
    ensures asks { AsksForNoOther (store F.Files files.old) (store F.Files files.new) (name.now ∷ []) }
{
    let bytes = read_input(alloc, files, name)?;
    let text = Input {
        name,
        bytes: &bytes,
    };
    let task = written_task(alloc, &text)?;
    let found = nothing_found(alloc);
    Ok(Made { found, task })
}

/// The lines on the plan of the file that is named, mapped back to the task; none where no file is.
fn plan_lines<'a, F: Files>(
    alloc: Global,
    plan: Option<&'a str>,
    task: &SasTask,
    files: &mut F,
) -> Result<Vec<u8>, End<'a>>
    ensures ok { IfOk result (λ lines. IsRead (store F.Files files.old) (store F.Files files.new) (λ held. of_plan held (option_map (λ name. name.now) plan.entry) task.now ≡ Gives lines.items)) }
    ensures err { IfErr result (StopsReading (store F.Files files.old) (store F.Files files.new) (plan_names (option_map (λ name. name.now) plan.entry)) (plan_names (option_map (λ name. name.now) plan.entry)) (λ held e. of_plan held (option_map (λ name. name.now) plan.entry) task.now ≡ e)) }
    ensures untouched { IsUntouched (store F.Files files.old) (store F.Files files.new) }
    ensures asks { AsksForNoOther (store F.Files files.old) (store F.Files files.new) (plan_names (option_map (λ name. name.now) plan.entry)) }
{
    match plan {
        Some(name) => lines_of_file(alloc, name, task, files),
        None => Ok(Vec::new(alloc)),
    }
}

/// The lines on the plan of the file of this name.
fn lines_of_file<'a, F: Files>(
    alloc: Global,
    name: &'a str,
    task: &SasTask,
    files: &mut F,
) -> Result<Vec<u8>, End<'a>>
    ensures ok { IfOk result (λ lines. IsRead (store F.Files files.old) (store F.Files files.new) (λ held. of_plan held (Some name.now) task.now ≡ Gives lines.items)) }
    ensures err { IfErr result (StopsReading (store F.Files files.old) (store F.Files files.new) (name.now ∷ []) (name.now ∷ []) (λ held e. of_plan held (Some name.now) task.now ≡ e)) }
    ensures untouched { IsUntouched (store F.Files files.old) (store F.Files files.new) }
    ensures asks { AsksForNoOther (store F.Files files.old) (store F.Files files.new) (name.now ∷ []) }
{
    let bytes = read_input(alloc, files, name)?;
    let plan = Input {
        name,
        bytes: &bytes,
    };
    mapped_lines(alloc, &plan, task)
}

/// The bytes of a file that is read.
fn read_input<'a, F: Files>(alloc: Global, files: &mut F, name: &'a str) -> Result<Vec<u8>, End<'a>>
    ensures ok { IfOk result (λ bytes. IsRead (store F.Files files.old) (store F.Files files.new) (λ held. read held name.now ≡ Gives (text name.now bytes.items))) }
    ensures err { IfErr result (StopsReading (store F.Files files.old) (store F.Files files.new) (name.now ∷ []) (name.now ∷ []) (λ held e. read held name.now ≡ e)) }
    ensures untouched { IsUntouched (store F.Files files.old) (store F.Files files.new) }
    ensures asks { AsksForNoOther (store F.Files files.old) (store F.Files files.new) (name.now ∷ []) }
    ensures within { IfOk result (λ bytes. length bytes.items ≤ 67108864) }
{
    match read_all(alloc, files, name, INPUT_LIMIT) {
        Ok(bytes) => Ok(bytes),
        Err(ReadEnd::Failed) => Err(End::CannotRead(name)),
        Err(ReadEnd::TooLong) => Err(End::Refused(
            name,
            Message::Fault(Fault {
                kind: Kind::TooLong,
                at: At { line: 1, column: 1 },
            }),
        )),
        Err(ReadEnd::NoMemory) => Err(End::NoMemory),
    }
}

/// Creates the output file and writes the text.
fn write_output<F: Files>(files: &mut F, output: &str, text: &[u8]) -> Result<(), Failed>
    ensures ok { OnOk result (F.files files.new ≡ grown (emptied (F.files files.old) output.now) output.now text.now) }
    ensures err { OnErr result ((F.files files.new ≡ F.files files.old) ⊎ GrownInPart (emptied (F.files files.old) output.now) (F.files files.new) output.now text.now) }
    ensures cause { HasCause (F.write_faults files.old) (F.write_faults files.new) result }
    ensures reads { F.read_faults files.new ≡ F.read_faults files.old }
    ensures asked { F.asked files.new ≡ F.asked files.old }
{
    files.create_file(output)?;
    put_all(files, text)
}
