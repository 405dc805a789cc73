//! The rows behind a call: how each is another one.

use crate::call::{Call, File, Held, place};
use crate::texts::{Texts, of_line};
use std::alloc::{AllocError, Global};

/// The text with one part in the place of another, FROM => TO. None where there is no such part.
fn changed(alloc: Global, text: &str, change: &str) -> Result<Option<String>, AllocError> {
    let Some((from, to)) = change.split_once(" =>") else {
        return Ok(None);
    };
    let from = of_line(alloc, from)?;
    let to = of_line(alloc, to.strip_prefix(' ').unwrap_or(""))?;
    replaced(alloc, text, &from, &to)
}

fn replaced(alloc: Global, text: &str, from: &str, to: &str) -> Result<Option<String>, AllocError> {
    if !text.contains(from) {
        return Ok(None);
    }
    Ok(Some(text.replacen(alloc, from, to, 1)?))
}

/// Changes the text of the file, if it has one, and answers whether it does.
fn is_changed(alloc: Global, file: &mut File<'_>, change: &str) -> Result<bool, AllocError> {
    let Held::Text(text) = &file.held else {
        return Ok(false);
    };
    let Some(text) = changed(alloc, text, change)? else {
        return Ok(false);
    };
    file.held = Held::Text(text);
    Ok(true)
}

/// The status of a call that ends so, and the line that it prints, in two parts.
fn refusal(ending: &str) -> (u8, &str, &str) {
    if ending == "usage" {
        return (2, "usage: translate DOMAIN PROBLEM [options]", "");
    }
    let status = if ending.starts_with("cannot ") {
        30
    } else {
        31
    };
    (status, "translate: ", ending)
}

impl<'a> Call<'a> {
    /// Makes this call the one of the row: its ending first, then the items.
    pub fn vary(&mut self, alloc: Global, texts: &Texts, row: &'a str) -> Result<(), AllocError> {
        let (ending, items) = row.split_once(" | ").unwrap_or((row, "#"));
        self.end(alloc, ending)?;
        for item in items.split(" | ") {
            self.read(alloc, texts, item)?;
        }
        Ok(())
    }

    /// Changes the text of the file of this name, and answers whether there is one to be changed.
    pub fn changes(&mut self, alloc: Global, name: &str, change: &str) -> Result<bool, AllocError> {
        let Some(place) = place(&self.files, name) else {
            return Ok(false);
        };
        match self.files.get_mut(place) {
            Some(file) => is_changed(alloc, file, change),
            None => Ok(false),
        }
    }

    /// Makes this call end so.
    fn end(&mut self, alloc: Global, ending: &str) -> Result<(), AllocError> {
        if ending == "the same" {
            return Ok(());
        }
        let (status, front, said) = refusal(ending);
        self.status = status;
        self.printed = Held::Text(format!(in alloc; "{front}{said}\n")?);
        self.left.clear();
        Ok(())
    }
}
