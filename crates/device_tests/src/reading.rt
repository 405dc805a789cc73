//! Files that are read, in memory or not.

use std::alloc::Global;
use tl_device::{Files, ReadEnd, read_all};

/// A file, how many bytes it may have, and what reading it comes to.
pub(crate) type Reading<'a> = (&'a str, u32, Result<&'a [u8], ReadEnd>);

/// Whether reading the file comes to this.
fn is_found<F: Files>(alloc: Global, files: &mut F, reading: &Reading<'_>) -> bool {
    let (name, limit, wanted) = reading;
    match (read_all(alloc, files, name, u64::from(*limit)), wanted) {
        (Ok(read), Ok(bytes)) => read.as_slice() == *bytes,
        (Err(found), Err(end)) => found == *end,
        _ => false,
    }
}

/// Whether reading the files in turn comes to this.
pub(crate) fn are_found<F: Files>(alloc: Global, files: &mut F, readings: &[Reading<'_>]) -> bool {
    readings
        .iter()
        .all(|reading| is_found(alloc, files, reading))
}
