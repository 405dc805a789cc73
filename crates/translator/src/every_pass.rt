//! The top call by every pass.

ghost use Rattle.std.specs.Prelude.{◌≡◌, IfOk, IfErr};
ghost use Rattle.translator.specs.Asked.{asked_by_words, every_pass};
ghost use Rattle.translator.specs.Run.{names_read};
ghost use Rattle.translator.specs.Store.{store, screen, AsksForNoOther};
ghost use Rattle.translator.specs.Call.{Called};

use crate::command::{translate, without_words};
use messages::Status;
use pass_book::{Book, Pass, PassKind};
use pass_h2::prune;
use pass_relevance::relevant;
use sas_task::SasTask;
use std::alloc::{AllocError, Global};
use std::io::ErrorKind;
use task_simplifier::order_variables;
use tl_device::{Console, Files};

/// Translates by the words of a command line, as `translate` does, with a book that has a pass of each kind: that of the
/// order, that of relevance and that of h2. Where there is no memory for the book, it ends as where memory runs out later. What
/// it answers, prints and leaves is what `translate` does (`called`), and so is which name is asked for last (`asks`).
pub fn translate_by_every_pass<F: Files, C: Console>(
    alloc: Global,
    words: Vec<String>,
    files: &mut F,
    console: &mut C,
) -> Status
    ensures called { Called (store F.Files files.old) (store F.Files files.new) (asked_by_words every_pass words.items) (screen C.Console console.old) (screen C.Console console.new) result }
    ensures asks { AsksForNoOther (store F.Files files.old) (store F.Files files.new) (names_read (asked_by_words every_pass words.items)) }
{
    match with_every_pass(alloc, words, files, console) {
        Ok(status) => status,
        Err(_) => without_words(console, ErrorKind::OutOfMemory),
    }
}

/// Translates with a book of every pass, if there is memory for the book.
fn with_every_pass<F: Files, C: Console>(
    alloc: Global,
    words: Vec<String>,
    files: &mut F,
    console: &mut C,
) -> Result<Status, AllocError>
    ensures called { IfOk result (λ status. Called (store F.Files files.old) (store F.Files files.new) (asked_by_words every_pass words.items) (screen C.Console console.old) (screen C.Console console.new) status
        × AsksForNoOther (store F.Files files.old) (store F.Files files.new) (names_read (asked_by_words every_pass words.items))) }
    ensures files { IfErr result (λ _. files.new ≡ files.old) }
    ensures console { IfErr result (λ _. console.new ≡ console.old) }
{
    let mut book = Book::new(alloc);
    let kind = PassKind::Order;
    let run = Box::new(
        alloc,
        |alloc: Global, task: &SasTask| order_variables(alloc, task),
    )?;
    let has_order = book.add(Pass { kind, run }).is_ok();
    let kind = PassKind::Relevance;
    let run = Box::new(alloc, |alloc: Global, task: &SasTask| relevant(alloc, task))?;
    let has_relevance = book.add(Pass { kind, run }).is_ok();
    let kind = PassKind::H2;
    let run = Box::new(alloc, |alloc: Global, task: &SasTask| prune(alloc, task))?;
    let has_h2 = book.add(Pass { kind, run }).is_ok();
    if !(has_order && has_relevance && has_h2) {
        return Err(AllocError);
    }
    Ok(translate(alloc, words, files, console, &book))
}
