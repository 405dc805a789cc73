//! What is said of the calls of a file.

use crate::call::Call;
use crate::line::Line;
use crate::perform::Other;
use crate::ranges::{count, row_at};
use crate::texts::{Texts, behind_bars};
use std::alloc::{AllocError, Global};
use std::io;

/// Says how each call of the text ended that ended otherwise, and answers how many ended as they stand.
pub fn tell_all(rt: &HostRuntime, texts: &mut Texts, text: &str) -> io::Result<u64> {
    let mut calls = 0u64;
    for paragraph in text.split("\n\n") {
        calls = calls.saturating_add(tell_paragraph(rt, texts, paragraph)?);
    }
    Ok(calls)
}

fn tell_paragraph(rt: &HostRuntime, texts: &mut Texts, paragraph: &str) -> io::Result<u64> {
    let Some(line) = heading(paragraph) else {
        return Ok(0);
    };
    match Line::of(line) {
        Line::Item("text", name) => add_text(rt, texts, name, paragraph),
        Line::Item("call", name) => tell_calls(rt, texts, name, paragraph, ""),
        Line::Item("example", name) => tell_calls(rt, texts, name, paragraph, OF_AN_EXAMPLE),
        _ => not_understood(rt, line),
    }
}

fn not_understood(rt: &HostRuntime, line: &str) -> io::Result<u64> {
    println!(rt; "not understood: {line}")?;
    Ok(0)
}

/// The first line of the paragraph that is no comment, if there is one.
fn heading(paragraph: &str) -> Option<&str> {
    for line in paragraph.lines() {
        if !line.starts_with('#') {
            return Some(line);
        }
    }
    None
}

/// The first line of a text's paragraph that is an item of a call.
fn stray_item(paragraph: &str) -> Option<&str> {
    for line in paragraph.lines() {
        match Line::of(line) {
            Line::Comment | Line::Bar(_) | Line::Item("text", _) => {}
            Line::Item(..) => return Some(line),
        }
    }
    None
}

/// Names the text of the paragraph, which is no call.
fn add_text(rt: &HostRuntime, texts: &mut Texts, name: &str, paragraph: &str) -> io::Result<u64> {
    if let Some(line) = stray_item(paragraph) {
        return not_understood(rt, line);
    }
    let name = String::from_str(rt.alloc(), name)?;
    texts.add(name, behind_bars(rt.alloc(), paragraph)?)?;
    Ok(0)
}

/// The rows of an example: it is read back, and all passes follow one another.
const OF_AN_EXAMPLE: &str = "the same | read back | translate --from-sas output.sas
the same | translate domain.pddl problem.pddl --pass h2,relevance,order | printed anything | written output.sas anything";

/// Says how the call and each row behind it ended, where that is otherwise, and answers how many ended as they stand.
fn tell_calls(
    rt: &HostRuntime,
    texts: &Texts,
    name: &str,
    paragraph: &str,
    rows: &str,
) -> io::Result<u64> {
    let (lines, rows) = paragraph
        .split_once("\nchanged\n")
        .unwrap_or((paragraph, rows));
    let mut calls = tell_row(rt, texts, name, lines, "the same")?;
    for row in rows.lines() {
        if !row.starts_with('#') {
            let row = row.strip_prefix("| ").unwrap_or(row);
            calls = calls.saturating_add(tell_row(rt, texts, name, lines, row)?);
        }
    }
    Ok(calls)
}

/// Says how each call of a row ended that ended otherwise, and answers how many ended as they stand.
fn tell_row(
    rt: &HostRuntime,
    texts: &Texts,
    name: &str,
    lines: &str,
    row: &str,
) -> io::Result<u64> {
    let mut calls = 0u64;
    for place in 0..count(row) {
        let row = row_at(rt.alloc(), row, place)?;
        match first_other(rt.alloc(), texts, lines, &row)? {
            Some(Other { what, at }) => println!(rt; "{name}: {what} {at}: {row}")?,
            None => calls = calls.saturating_add(1),
        }
    }
    Ok(calls)
}

/// What is other than it should be where the call of these lines is performed, as the row makes it.
fn first_other<'a>(
    alloc: Global,
    texts: &Texts,
    lines: &'a str,
    row: &'a str,
) -> Result<Option<Other<'a>>, AllocError> {
    let mut call = Call::new(alloc);
    let other = call.read_and_perform(alloc, texts, lines, row);
    drop(call);
    other
}

impl<'a> Call<'a> {
    fn read_and_perform(
        &mut self,
        alloc: Global,
        texts: &Texts,
        lines: &'a str,
        row: &'a str,
    ) -> Result<Option<Other<'a>>, AllocError> {
        for line in lines.lines() {
            self.read(alloc, texts, line)?;
        }
        self.vary(alloc, texts, row)?;
        self.first_other(alloc)
    }
}
