//! Rows that stand for many: where a row has a range of numbers, it is a call for each. So does a part that is repeated.

use std::alloc::{AllocError, Global};
use std::fmt::Write;

/// How many calls a row is: as many as its first range has numbers, and one where it has none.
pub fn count(row: &str) -> u64 {
    match first_range(row) {
        Some((first, last)) => last.saturating_sub(first).saturating_add(1),
        None => 1,
    }
}

/// The first and the last number of the first range.
fn first_range(row: &str) -> Option<(u64, u64)> {
    let (_, rest) = row.split_once('[')?;
    let (range, _) = rest.split_once(']')?;
    let (first, last) = range.split_once(" to ")?;
    Some((first.parse::<u64>().ok()?, last.parse::<u64>().ok()?))
}

/// The row of the call at this place, counted from 0: with a number in the place of each range.
pub fn row_at(alloc: Global, row: &str, place: u64) -> Result<String, AllocError> {
    let mut whole = String::new(alloc);
    for piece in row.split('[') {
        push_piece(&mut whole, piece, place)?;
    }
    Ok(whole)
}

/// Appends what stands behind an opening bracket, or before the first one.
fn push_piece(whole: &mut String, piece: &str, place: u64) -> Result<(), AllocError> {
    let Some((range, rest)) = piece.split_once(']') else {
        return whole.push_str(piece);
    };
    match number_at(range, place) {
        Some(number) => write!(whole, "{number}{rest}"),
        None => whole.push_str(range),
    }
}

/// The number of the range at this place.
fn number_at(range: &str, place: u64) -> Option<u64> {
    let (first, rest) = range.split_once(' ')?;
    let step = match rest.strip_prefix("by ") {
        Some(step) => step.parse::<u64>().ok()?,
        None => 1,
    };
    first
        .parse::<u64>()
        .ok()?
        .checked_add(place.checked_mul(step)?)
}
