//! How a call is read from the lines of its paragraph, and from the items of a row.

use crate::call::{Call, File, Held, Open};
use crate::line::{Line, first_word};
use crate::texts::{Texts, of_line, push_line};
use std::alloc::{AllocError, Global};

/// The text that an item says, if it is understood. What stands behind bars is still to come.
fn text_of(alloc: Global, texts: &Texts, said: &str) -> Result<Option<Held>, AllocError> {
    if said.is_empty() {
        return Ok(Some(Held::Text(String::new(alloc))));
    }
    if said == "anything" {
        return Ok(Some(Held::Anything));
    }
    if let Some(line) = said.strip_prefix("is ") {
        return Ok(Some(Held::Text(of_line(alloc, line)?)));
    }
    match named_text(texts, said) {
        Some(text) => Ok(Some(Held::Text(String::from_str(alloc, text)?))),
        None => Ok(None),
    }
}

/// The text that has the name, or its first bytes.
fn named_text<'t>(texts: &'t Texts, said: &str) -> Option<&'t str> {
    if let Some(name) = said.strip_prefix("of ") {
        return texts.find(name);
    }
    let (count, name) = said.strip_prefix("first ")?.split_once(" of ")?;
    let count = count.parse::<usize>().ok()?;
    let (front, _) = texts.find(name)?.split_at_checked(count)?;
    Some(front)
}

/// Appends a line to the text, if it is one.
fn push_to(held: &mut Held, line: &str) -> Result<bool, AllocError> {
    match held {
        Held::Text(text) => {
            push_line(text, line)?;
            Ok(true)
        }
        _ => Ok(false),
    }
}

/// Appends a line to the text of the last of these files, if there is one.
fn push_to_last(files: &mut [File<'_>], line: &str) -> Result<bool, AllocError> {
    match files.last_mut() {
        Some(file) => push_to(&mut file.held, line),
        None => Ok(false),
    }
}

impl<'a> Call<'a> {
    /// Reads a line of a paragraph, or an item of a row.
    pub fn read(&mut self, alloc: Global, texts: &Texts, line: &'a str) -> Result<(), AllocError> {
        if !self.reads(alloc, texts, line)? {
            self.misread = self.misread.or(Some(line));
        }
        Ok(())
    }

    /// Reads a line, and answers whether it is understood.
    fn reads(&mut self, alloc: Global, texts: &Texts, line: &'a str) -> Result<bool, AllocError> {
        match Line::of(line) {
            Line::Comment => Ok(true),
            Line::Bar(text) => self.reads_bar(text),
            Line::Item("file" | "printed" | "written", _) => self.reads_text(alloc, texts, line),
            Line::Item(word, said) => self.reads_item(alloc, line, word, said),
        }
    }

    fn reads_bar(&mut self, line: &'a str) -> Result<bool, AllocError> {
        match self.open {
            Open::Nothing => Ok(false),
            Open::File => push_to_last(&mut self.files, line),
            Open::Printed => push_to(&mut self.printed, line),
            Open::Left => push_to_last(&mut self.left, line),
        }
    }

    /// Reads an item that has no text.
    fn reads_item(
        &mut self,
        alloc: Global,
        line: &'a str,
        word: &str,
        said: &'a str,
    ) -> Result<bool, AllocError> {
        self.open = Open::Nothing;
        match word {
            // Behind the words another call would take the place of this one.
            "call" if self.words.is_empty() => {}
            "example" if self.words.is_empty() => self.words = "translate domain.pddl problem.pddl",
            "translate" => self.words = line,
            "takes" | "room" | "fails" => self.settings.push(line)?,
            "book" => self.book = said,
            "may" => self.may_be_cut = true,
            "twice" => self.is_twice = true,
            "read" => self.become_read_back(alloc)?,
            "absent" => self.leave_absent(said)?,
            "status" => return Ok(self.reads_status(said)),
            _ => return self.changes(alloc, word, said),
        }
        Ok(true)
    }

    fn reads_status(&mut self, said: &str) -> bool {
        match said.parse::<u8>() {
            Ok(status) => {
                self.status = status;
                true
            }
            Err(_) => false,
        }
    }

    fn leave_absent(&mut self, name: &'a str) -> Result<(), AllocError> {
        let held = Held::NoFile;
        self.left.push(File { name, held })?;
        Ok(())
    }

    /// Reads an item that has a text.
    fn reads_text(
        &mut self,
        alloc: Global,
        texts: &Texts,
        line: &'a str,
    ) -> Result<bool, AllocError> {
        let (word, said) = first_word(line);
        let (name, text) = first_word(said);
        let said = if word == "printed" { said } else { text };
        match text_of(alloc, texts, said)? {
            Some(held) => {
                self.take_text(word, File { name, held })?;
                Ok(true)
            }
            None => Ok(false),
        }
    }

    fn take_text(&mut self, word: &str, file: File<'a>) -> Result<(), AllocError> {
        match word {
            "file" => {
                self.open = Open::File;
                self.files.push(file)?;
            }
            "written" => {
                self.open = Open::Left;
                self.left.push(file)?;
            }
            _ => {
                self.open = Open::Printed;
                self.printed = file.held;
            }
        }
        Ok(())
    }
}
