//! Texts with a line changed, and what reading them gives.

ghost use Rattle.std.specs.Prelude.{◌<◌};

use crate::tasks::{has_text, read, task_of};
use lists::Stop;
use sas_reader::SasPlace;
use std::alloc::{AllocError, Global};
use std::process::Abort;

/// What a text with a change gives: the line that is changed, what stands there instead, and the line and the section
/// of the fault.
pub(crate) type Refused = (usize, &'static [u8], u64, SasPlace);

/// The first lines of the text, with their line feeds, and what is behind them.
fn split_behind_lines(text: &[u8], count: usize) -> (&[u8], &[u8]) {
    let mut left = count;
    for (place, byte) in text.iter().enumerate() {
        if left == 0 {
            return text.split_at(place);
        }
        if *byte == b'\n' {
            left -= 1;
        }
    }
    (text, &[])
}

/// The text from its first line feed on.
fn from_line_feed(text: &[u8]) -> &[u8] {
    for (place, byte) in text.iter().enumerate() {
        if *byte == b'\n' {
            return &text[place..];
        }
    }
    &[]
}

/// The text with this line changed. Lines are counted from 1.
pub(crate) fn with_line(
    alloc: Global,
    text: &[u8],
    line: usize,
    other: &[u8],
) -> Result<Vec<u8>, AllocError> {
    let (before, behind) = split_behind_lines(text, line.saturating_sub(1));
    let mut changed = Vec::from_slice(alloc, before)?;
    changed.extend_from_slice(other)?;
    changed.extend_from_slice(from_line_feed(behind))?;
    Ok(changed)
}

/// Whether the text is refused at this line of this section.
pub(crate) fn is_refused(alloc: Global, text: &[u8], line: u64, place: SasPlace) -> bool {
    match read(alloc, text) {
        Err(Stop::Fault(fault)) => fault.line == line && fault.place == place,
        _ => false,
    }
}

/// Whether the text is that of a task whose text is the other.
pub(crate) fn is_read_as(alloc: Global, text: &[u8], other: &[u8]) -> Result<bool, AllocError> {
    has_text(alloc, task_of(alloc, text)?, other)
}

/// Whether the text is refused as the row says.
fn meets(alloc: Global, text: &[u8], row: &Refused) -> Result<bool, AllocError> {
    let changed = with_line(alloc, text, row.0, row.1)?;
    Ok(is_refused(alloc, changed.as_slice(), row.2, row.3))
}

/// Asserts that the text is refused as each row says.
pub(crate) fn assert_refused(rt: &impl Abort, alloc: Global, text: &[u8], rows: &[Refused]) {
    for row in rows {
        let answer = meets(alloc, text, row);
        assert!(rt; matches!(answer, Ok(true)), "{} {:?}", row.0, row.1);
    }
}

/// Whether the text is refused after so many lines, at the next one, which is missing or has no line feed.
pub(crate) fn is_cut(
    alloc: Global,
    text: &[u8],
    before: u64,
    place: SasPlace,
) -> Result<bool, AllocError>
    requires { before < 89 }
{
    let (lines, _) = split_behind_lines(text, before as usize);
    let is_missing = is_refused(alloc, lines, before + 1, place);
    let mut cut = Vec::from_slice(alloc, lines)?;
    cut.push(b'0')?;
    Ok(is_missing && is_refused(alloc, cut.as_slice(), before + 1, place))
}
