//! Files and a console in memory, and calls on them.

ghost use Rattle.std.specs.Prelude.{◌≤◌};

use crate::texts::of_line;
use pass_book::{Book, Pass, PassKind};
use sas_task::SasTask;
use std::alloc::{AllocError, Global};
use tl_device::{Console, FileCall, Files, MemConsole, MemFiles};
use translator::{Status, translate, translate_by_every_pass};

/// Files and a console in memory.
#[derive(Drop)]
pub struct Outside {
    files: MemFiles,
    console: MemConsole,
}

// None of these calls says what it does, so that no proof of a caller carries it.
impl Outside {
    /// No file and no room.
    pub fn new(alloc: Global) -> Outside {
        Outside {
            files: MemFiles::new(alloc),
            console: MemConsole::new(alloc),
        }
    }

    pub fn add(&mut self, name: &str, bytes: &[u8]) -> Result<(), AllocError> {
        self.files.add(name, bytes)
    }

    /// Makes room for so many bytes in the file of this name.
    pub fn room(&mut self, name: &str, bytes: u64) -> Result<(), AllocError> {
        self.files.room(name, bytes)
    }

    /// Makes room for so many bytes on the console.
    pub fn console_room(&mut self, bytes: u64) -> Result<(), AllocError> {
        self.console.room(bytes)
    }

    /// Does what a setting says, which ends with a number, and answers whether it is understood.
    pub fn set(&mut self, setting: &str) -> Result<bool, AllocError> {
        let (what, number) = setting.rsplit_once(' ').unwrap_or((setting, ""));
        match number.parse::<u64>() {
            Ok(number) => self.set_to(what, number),
            Err(_) => Ok(false),
        }
    }

    fn set_to(&mut self, what: &str, number: u64) -> Result<bool, AllocError> {
        match what {
            "takes" => Ok(self.takes(number.max(1))),
            "room console" => is_set(self.console.room(number)),
            "fails print" => is_set(self.console.fail(number)),
            "fails open" => is_set(self.files.fail(FileCall::OpenFile, number)),
            "fails read" => is_set(self.files.fail(FileCall::Read, number)),
            "fails create" => is_set(self.files.fail(FileCall::CreateFile, number)),
            "fails write" => is_set(self.files.fail(FileCall::Write, number)),
            _ => match what.strip_prefix("room ") {
                Some(name) => is_set(self.files.room(name, number)),
                None => Ok(false),
            },
        }
    }

    /// Sets the most bytes that a call takes.
    fn takes(&mut self, bytes: u64) -> bool
        requires { 1 ≤ bytes }
    {
        self.files.most(bytes);
        self.console.most(bytes);
        true
    }

    /// How the call with these words ends, by this book: `empty`, `wanting memory` or, else, one of every pass.
    pub fn answer(&mut self, alloc: Global, words: &str, book: &str) -> Result<Status, AllocError> {
        match book {
            "empty" => self.answer_by_last(alloc, words, Book::new(alloc)),
            "wanting memory" => self.answer_in_want(alloc, words),
            _ => self.answer_by_all(alloc, words),
        }
    }

    /// How the call ends by a book whose only pass, that of the order, always wants memory.
    fn answer_in_want(&mut self, alloc: Global, words: &str) -> Result<Status, AllocError> {
        let kind = PassKind::Order;
        let run = Box::new(alloc, |_: Global, _: &SasTask| Err(AllocError))?;
        let mut book = Book::new(alloc);
        if book.add(Pass { kind, run }).is_err() {
            return Err(AllocError);
        }
        self.answer_by_last(alloc, words, book)
    }

    /// How the call ends by a book of every pass.
    fn answer_by_all(&mut self, alloc: Global, words: &str) -> Result<Status, AllocError> {
        let words = words_of(alloc, words)?;
        let files = &mut self.files;
        Ok(translate_by_every_pass(alloc, words, files, &mut self.console))
    }

    /// How the call ends by this book, which goes.
    fn answer_by_last(
        &mut self,
        alloc: Global,
        words: &str,
        book: Book,
    ) -> Result<Status, AllocError> {
        let status = answer(alloc, words, &mut self.files, &mut self.console, &book);
        drop(book);
        status
    }

    /// What the file of this name holds, if there is one.
    pub fn content(&self, name: &str) -> Option<&[u8]> {
        self.files.content(name)
    }

    /// Whether the file of this name holds these bytes, or there is none.
    pub fn holds(&self, name: &str, bytes: Option<&[u8]>) -> bool {
        match (self.content(name), bytes) {
            (Some(held), Some(bytes)) => held == bytes,
            (None, None) => true,
            _ => false,
        }
    }

    pub fn printed(&self) -> &[u8] {
        self.console.printed()
    }
}

/// That a setting is understood, unless memory ran out.
fn is_set(outcome: Result<(), AllocError>) -> Result<bool, AllocError> {
    outcome?;
    Ok(true)
}

/// The words of a line, which stand between blanks.
fn words_of(alloc: Global, line: &str) -> Result<Vec<String>, AllocError> {
    let mut words = Vec::new(alloc);
    for word in line.split(' ') {
        words.push(of_line(alloc, word)?)?;
    }
    Ok(words)
}

/// How the call with the words of this line ends.
pub fn answer<F: Files, C: Console>(
    alloc: Global,
    line: &str,
    files: &mut F,
    console: &mut C,
    book: &Book,
) -> Result<Status, AllocError> {
    let words = words_of(alloc, line)?;
    Ok(translate(alloc, words, files, console, book))
}
