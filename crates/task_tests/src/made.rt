//! Texts that are made of parts, of which some stand many times.

use std::alloc::{AllocError, Global};

/// How often a part stands in a text, and the part. In it `#` stands for the number of the time, from 1 on, and `#'` for the
/// number after it.
pub(crate) type Part = (u64, &'static str);

/// Appends the part with this number.
fn push_part(alloc: Global, text: &mut String, part: &str, number: u64) -> Result<(), AllocError> {
    let next = format!(in alloc; "{}", number.saturating_add(1))?;
    let number = format!(in alloc; "{number}")?;
    let part = part.replace(alloc, "#'", &next)?;
    text.push_str(&part.replace(alloc, "#", &number)?)
}

/// Appends the part so many times.
fn push_parts(alloc: Global, text: &mut String, part: &str, times: u64) -> Result<(), AllocError> {
    for number in 1..=times {
        push_part(alloc, text, part, number)?;
    }
    Ok(())
}

/// The text of these parts, one after another.
pub(crate) fn made(alloc: Global, parts: &[Part]) -> Result<String, AllocError> {
    let mut text = String::new(alloc);
    for part in parts {
        push_parts(alloc, &mut text, part.1, part.0)?;
    }
    Ok(text)
}
