//! Texts that have names, and texts of one line.

use crate::line::{Line, first_word};
use crate::ranges::row_at;
use std::alloc::{AllocError, Global};

#[derive(Drop)]
struct Named {
    name: String,
    text: String,
}

/// The texts that were named so far.
#[derive(Drop)]
pub struct Texts {
    named: Vec<Named>,
}

impl Texts {
    pub fn new(alloc: Global) -> Texts {
        Texts {
            named: Vec::new(alloc),
        }
    }

    pub fn find(&self, name: &str) -> Option<&str> {
        for named in &self.named {
            if named.name.as_str() == name {
                return Some(&named.text);
            }
        }
        None
    }

    pub fn add(&mut self, name: String, text: String) -> Result<(), AllocError> {
        self.named.push(Named { name, text })?;
        Ok(())
    }
}

/// The text behind the bars of a paragraph.
pub fn behind_bars(alloc: Global, paragraph: &str) -> Result<String, AllocError> {
    let mut text = String::new(alloc);
    for line in paragraph.lines() {
        if let Line::Bar(line) = Line::of(line) {
            push_line(&mut text, line)?;
        }
    }
    Ok(text)
}

pub fn push_line(text: &mut String, line: &str) -> Result<(), AllocError> {
    text.push_str(line)?;
    text.push_str("\n")
}

/// What stands for a byte in a text of one line.
static MARKS: &[(&str, &str)] = &[
    ("\\s", " "),
    ("\\n", "\n"),
    ("\\t", "\t"),
    ("\\r", "\r"),
    ("\\x7f", "\x7f"),
];

/// The text that stands in one line.
pub fn of_line(alloc: Global, line: &str) -> Result<String, AllocError> {
    let mut text = String::from_str(alloc, line)?;
    for row in MARKS {
        text = text.replace(alloc, row.0, row.1)?;
    }
    with_repeated(alloc, &text)
}

/// The text with each part in braces so many times as it says.
fn with_repeated(alloc: Global, text: &str) -> Result<String, AllocError> {
    let mut whole = String::new(alloc);
    for piece in text.split('{') {
        push_piece(alloc, &mut whole, piece)?;
    }
    Ok(whole)
}

/// Appends what stands behind an opening brace, or before the first one.
fn push_piece(alloc: Global, whole: &mut String, piece: &str) -> Result<(), AllocError> {
    let Some((repeated, rest)) = piece.split_once('}') else {
        return whole.push_str(piece);
    };
    push_repeated(alloc, whole, repeated)?;
    whole.push_str(rest)
}

/// Appends the part behind the number, so many times, each time with its numbers in the place of ranges.
fn push_repeated(alloc: Global, whole: &mut String, repeated: &str) -> Result<(), AllocError> {
    let (count, part) = first_word(repeated);
    let count = count.parse::<u64>().unwrap_or(0);
    let part = part.replace(alloc, "#", "[0 by 1]")?;
    if !part.contains('[') {
        return whole.push_str(&part.repeat(alloc, count as usize)?);
    }
    for place in 0..count {
        whole.push_str(&row_at(alloc, &part, place)?)?;
    }
    Ok(())
}
