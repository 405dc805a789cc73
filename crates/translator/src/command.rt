//! The top call.

ghost use Rattle.std.specs.Prelude.{◌≡◌, ◌≢◌, ◌⊎◌, ◌++◌, ◌∷◌, ℕ, List, None, Some, IsSome, IfSome, IsSomeAnd};
ghost use Rattle.std.specs.Io.KnownBytes.{append_known};
ghost use Rattle.tl_device.specs.Causes.{Rose};
ghost use Rattle.tl_device.specs.Contents.{IsTold, OthersStay};
ghost use Rattle.messages.specs.declared.outcome.Message.{Message};
ghost use Rattle.messages.specs.declared.outcome.Summary.{Summary};
ghost use Rattle.messages.specs.Messages.{task_lines, refusal_line, unreadable_line, usage_line, memory_line};
ghost use Rattle.messages.specs.Outcome.{status_of, line_of};
ghost use Rattle.translator.specs.Ending.{Absent, Refused};
ghost use Rattle.translator.specs.Run.{RunsTo, LacksFile, HasFault, names_read};
ghost use Rattle.translator.specs.Asked.{asked_of};
ghost use Rattle.run_task.specs.RunTask.{Output};
ghost use Rattle.translator.specs.Store.{store, screen, IsUntouched, AsksForNoOther};
ghost use Rattle.translator.specs.Call.{Called, Printed, IsWritten, IsWrittenInPart};
ghost use Rattle.translator.specs.Theorem.{HoldsTranslation};

use crate::laws::{one_ending_of_a_run, outputs_translate};
use crate::work::work;
use messages::{End, Report, Status, say_outcome};
use pass_book::Book;
use std::alloc::Global;
use std::io::ErrorKind;
use tl_device::{Console, Files};

/// Translates a PDDL domain and problem into the task of an output file, and answers how that ended.
///
/// `words` are the words of the command line, the program's name first. The passes that they name are those of `book`. The
/// words and what is printed stand in the README, the texts of faults in `docs/LANGUAGE.md`, and the format of the output in `docs/OUTPUT.md`.
///
/// Done means that the output file holds the text of such a task (`theorem`), which is the one that the definition of a run
/// gives, and that its sizes and the lines on the plan are printed (`done`). An absent file gives Device or NoMemory (`absent`). Every answer but Done and Device leaves the files as they
/// were (`untouched`), and each leaves all but the output file so (`others`).
pub fn translate<F: Files, C: Console>(
    alloc: Global,
    words: Vec<String>,
    files: &mut F,
    console: &mut C,
    book: &Book,
) -> Status
    // The words are refused exactly where they ask for nothing, if the console works and memory suffices.
    ensures usage { result ≡ Status.Usage → asked_of book.now words.items ≡ None }
    ensures refuses { asked_of book.now words.items ≡ None
        → (result ≡ Status.Usage) ⊎ ((result ≡ Status.NoMemory) ⊎ ((result ≡ Status.Device) × Rose (C.faults console.old) (C.faults console.new))) }

    // Device comes only where a count has risen or a file is absent; every other answer leaves each count.
    ensures device { result ≡ Status.Device
        → Rose (F.read_faults files.old) (F.read_faults files.new)
        ⊎ (Rose (F.write_faults files.old) (F.write_faults files.new)
        ⊎ (Rose (C.faults console.old) (C.faults console.new) ⊎ LacksFile (F.files files.old) (asked_of book.now words.items))) }
    ensures reads { result ≢ Status.Device → F.read_faults files.new ≡ F.read_faults files.old }
    ensures writes { result ≢ Status.Device → F.write_faults files.new ≡ F.write_faults files.old }
    ensures faults { result ≢ Status.Device → C.faults console.new ≡ C.faults console.old }
    ensures absent { LacksFile (F.files files.old) (asked_of book.now words.items) → (result ≡ Status.Device) ⊎ (result ≡ Status.NoMemory) }

    // InputFault comes exactly where the run has a fault, if nothing fails and memory suffices.
    ensures input_fault { result ≡ Status.InputFault → IsTold (F.files files.old) → HasFault (F.files files.old) (asked_of book.now words.items) }
    ensures refused_input { HasFault (F.files files.old) (asked_of book.now words.items)
        → (result ≡ Status.InputFault) ⊎ ((result ≡ Status.NoMemory)
        ⊎ ((result ≡ Status.Device) × (Rose (F.read_faults files.old) (F.read_faults files.new) ⊎ Rose (C.faults console.old) (C.faults console.new)))) }

    // Where no file is absent and the run has no fault, a task is written, if nothing fails and memory suffices.
    ensures complete { IsTold (F.files files.old) → IsSome (asked_of book.now words.items) → ¬ LacksFile (F.files files.old) (asked_of book.now words.items) → ¬ HasFault (F.files files.old) (asked_of book.now words.items)
        → (result ≡ Status.Done) ⊎ ((result ≡ Status.NoMemory)
        ⊎ ((result ≡ Status.Device) × (Rose (F.read_faults files.old) (F.read_faults files.new)
        ⊎ (Rose (F.write_faults files.old) (F.write_faults files.new) ⊎ Rose (C.faults console.old) (C.faults console.new))))) }
    ensures done { result ≡ Status.Done → IsSomeAnd (asked_of book.now words.items) (λ asked. (output : Output)
        × (IsWritten (F.files files.old) (F.files files.new) asked output × (C.printed console.new ≡ append_known (C.printed console.old) (task_lines output.summary output.plan)))) }

    // The translation theorem: where the files are told, the output file then holds the text of a task that translates the pair of
    // files, or may stand for the written task. `Translates` of `run_task` and `Keeps` of `sas_task` say what that is.
    ensures theorem { result ≡ Status.Done → IfSome (F.files files.old) (λ before. IsSomeAnd (F.files files.new) (λ now. IsSomeAnd (asked_of book.now words.items) (HoldsTranslation before now))) }

    // The name that is asked for last is one of those that the words name, or the one of before: so it is that of before where
    // the words are refused, or name no file to read.
    ensures asks { AsksForNoOther (store F.Files files.old) (store F.Files files.new) (names_read (asked_of book.now words.items)) }

    // What stands afterwards.
    ensures untouched { result ≢ Status.Done → result ≢ Status.Device → IsUntouched (store F.Files files.old) (store F.Files files.new) }
    // So it is, whatever the answer, where the words were refused, a read failed, a file is absent or there is a fault.
    ensures left { (asked_of book.now words.items ≡ None) ⊎ ((F.read_faults files.new ≢ F.read_faults files.old)
        ⊎ (LacksFile (F.files files.old) (asked_of book.now words.items) ⊎ HasFault (F.files files.old) (asked_of book.now words.items)))
        → IsUntouched (store F.Files files.old) (store F.Files files.new) }
    // The output file is as before, or holds a front of the text.
    ensures in_part { (F.files files.new ≡ F.files files.old)
        ⊎ IsSomeAnd (asked_of book.now words.items) (λ asked. (output : Output) × IsWrittenInPart (F.files files.old) (F.files files.new) asked output) }
    ensures others { IfSome (asked_of book.now words.items) (λ asked. OthersStay (F.files files.old) (F.files files.new) asked.output) }

    // What is printed: the text of the answer, or a front of the text of some answer where the console failed.
    ensures printed { Called (store F.Files files.old) (store F.Files files.new) (asked_of book.now words.items) (screen C.Console console.old) (screen C.Console console.new) result }
    // The first fault is printed with its file and its place.
    ensures fault_printed { (name : List ℕ) (message : Message) → RunsTo (F.files files.old) (asked_of book.now words.items) (Refused name message)
        → result ≡ Status.InputFault → C.printed console.new ≡ append_known (C.printed console.old) (refusal_line name message) }
    // `cannot read` names the file that was asked for last, and where no read failed the file that is absent.
    ensures unread_printed { (name : List ℕ) → F.asked files.new ≡ Some name → result ≡ Status.Device
        → ¬ Rose (F.write_faults files.old) (F.write_faults files.new) → ¬ Rose (C.faults console.old) (C.faults console.new)
        → C.printed console.new ≡ append_known (C.printed console.old) (unreadable_line name) }
    ensures absent_printed { (name : List ℕ) → RunsTo (F.files files.old) (asked_of book.now words.items) (Absent name) → result ≡ Status.Device
        → ¬ Rose (F.read_faults files.old) (F.read_faults files.new) → ¬ Rose (C.faults console.old) (C.faults console.new)
        → C.printed console.new ≡ append_known (C.printed console.old) (unreadable_line name) }
    // Where something was printed, and it is a front of the lines on a task, the output file is whole.
    ensures begun { (summary : Summary) (plan before front rest : List ℕ) (byte : ℕ) → C.printed console.old ≡ Some before
        → C.printed console.new ≡ Some (before ++ byte ∷ front) → task_lines summary plan ≡ (byte ∷ front) ++ rest
        → IsSomeAnd (asked_of book.now words.items) (λ asked. (output : Output) × IsWritten (F.files files.old) (F.files files.new) asked output) }
{
    one_ending_of_a_run();
    outputs_translate();
    called(alloc, &words, files, console, book)
}

/// Translates. How the work ended, what was printed and which name was asked for is one clause, and every other clause of the call follows from it.
fn called<F: Files, C: Console>(
    alloc: Global,
    words: &Vec<String>,
    files: &mut F,
    console: &mut C,
    book: &Book,
) -> Status
    ensures called { Called (store F.Files files.old) (store F.Files files.new) (asked_of book.now words.now.items) (screen C.Console console.old) (screen C.Console console.new) result }
    ensures asks { AsksForNoOther (store F.Files files.old) (store F.Files files.new) (names_read (asked_of book.now words.now.items)) }
{
    let outcome = work(alloc, words, files, book);
    told(console, &outcome)
}

/// Says how the work ended, and answers with that status if the console takes it.
fn told<C: Console>(console: &mut C, outcome: &Result<Report, End<'_>>) -> Status
    ensures { Printed (line_of outcome.now) (status_of outcome.now) (screen C.Console console.old) (screen C.Console console.new) result }
{
    match say_outcome(console, outcome) {
        Ok(()) => Status::of(outcome),
        Err(_) => Status::Device,
    }
}

/// Says that there was no memory for the words of the command line (`memory`), or refuses words that aren't UTF-8 (`usage`),
/// each by its line and its status, as `translate` does.
pub fn without_words<C: Console>(console: &mut C, kind: ErrorKind) -> Status
    ensures memory { kind ≡ ErrorKind.OutOfMemory → Printed memory_line Status.NoMemory (screen C.Console console.old) (screen C.Console console.new) result }
    ensures usage { kind ≢ ErrorKind.OutOfMemory → Printed usage_line Status.Usage (screen C.Console console.old) (screen C.Console console.new) result }
{
    if kind == ErrorKind::OutOfMemory {
        told(console, &Err(End::NoMemory))
    } else {
        told(console, &Err(End::Usage))
    }
}
