//! A call, and how it ends.

use std::alloc::Global;

/// What a name holds, or what is printed.
#[derive(Drop)]
pub enum Held {
    Text(String),
    /// No file has the name.
    NoFile,
    Anything,
}

impl Held {
    /// Whether these bytes are what is held, or there are none.
    pub fn is_met_by(&self, bytes: Option<&[u8]>) -> bool {
        match (self, bytes) {
            (Held::Anything, _) | (Held::NoFile, None) => true,
            (Held::Text(text), Some(bytes)) => is_met(text, bytes),
            _ => false,
        }
    }

    /// Whether this is a text that begins with these bytes and has more.
    pub fn goes_on_behind(&self, bytes: &[u8]) -> bool {
        match self {
            Held::Text(text) => text.len() > bytes.len() && text.as_bytes().starts_with(bytes),
            _ => false,
        }
    }
}

/// Whether the bytes are the text, in which a line of three points stands for any lines.
fn is_met(text: &str, bytes: &[u8]) -> bool {
    let Some((front, back)) = text.split_once("\n...\n") else {
        return text.as_bytes() == bytes;
    };
    let Some(rest) = bytes.strip_prefix(front.as_bytes()) else {
        return false;
    };
    match rest.strip_suffix(back.as_bytes()) {
        Some(between) => between.starts_with(b"\n") && between.ends_with(b"\n"),
        None => false,
    }
}

/// A name and what it holds.
#[derive(Drop)]
pub struct File<'a> {
    pub name: &'a str,
    pub held: Held,
}

/// What a text that begins here goes on with behind the next bar.
#[derive(Clone, Copy)]
pub enum Open {
    Nothing,
    File,
    Printed,
    Left,
}

/// The words of a call, what is set outside, and the files that stand before; and the status, what is printed, and what stands
/// afterwards, where that is something else. Of several files of one name the last one counts.
#[derive(Drop)]
pub struct Call<'a> {
    pub words: &'a str,
    /// Which passes the book has.
    pub book: &'a str,
    pub settings: Vec<&'a str>,
    pub files: Vec<File<'a>>,
    pub status: u8,
    pub printed: Held,
    /// Whether the console may fail in the middle.
    pub may_be_cut: bool,
    pub left: Vec<File<'a>>,
    /// Whether what is written stands before too.
    pub is_read_back: bool,
    /// Whether a second call writes the same.
    pub is_twice: bool,
    /// The part of the call that was begun last.
    pub open: Open,
    /// The first line that isn't understood, or the row.
    pub misread: Option<&'a str>,
}

/// Where the last file of this name stands among these.
pub fn place(files: &[File<'_>], name: &str) -> Option<usize> {
    let mut last = None;
    for (place, file) in files.iter().enumerate() {
        if file.name == name {
            last = Some(place);
        }
    }
    last
}

/// The last file of this name among these.
pub fn find<'f, 'a>(files: &'f [File<'a>], name: &str) -> Option<&'f File<'a>> {
    files.get(place(files, name)?)
}

impl<'a> Call<'a> {
    /// No word and no file, done without a printed line, on a book of every pass.
    pub fn new(alloc: Global) -> Call<'a> {
        Call {
            words: "",
            book: "",
            settings: Vec::new(alloc),
            files: Vec::new(alloc),
            status: 0,
            printed: Held::Text(String::new(alloc)),
            may_be_cut: false,
            left: Vec::new(alloc),
            is_read_back: false,
            is_twice: false,
            open: Open::Nothing,
            misread: None,
        }
    }
}
