//! The lines of a paragraph.

/// What a line is.
#[derive(Clone, Copy)]
pub enum Line<'a> {
    Comment,
    /// What stands behind a bar.
    Bar(&'a str),
    /// A word, and what stands behind it.
    Item(&'a str, &'a str),
}

impl<'a> Line<'a> {
    pub fn of(line: &'a str) -> Line<'a> {
        if line.starts_with('#') {
            return Line::Comment;
        }
        if let Some(text) = line.strip_prefix('|') {
            return Line::Bar(text.strip_prefix(' ').unwrap_or(text));
        }
        let (word, rest) = first_word(line);
        Line::Item(word, rest)
    }
}

/// The text before the first blank, and the text behind it.
pub fn first_word(text: &str) -> (&str, &str) {
    text.split_once(' ').unwrap_or((text, ""))
}
