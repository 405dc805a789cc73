//! How a call becomes the one that reads back what it writes.

use crate::call::{Call, Held};
use std::alloc::{AllocError, Global};

/// What is printed where a task is read back of which this was printed: no candidate is tried.
fn printed_back(alloc: Global, printed: &str) -> Result<String, AllocError> {
    let (_, sizes) = printed
        .split_once("Translator variables")
        .unwrap_or(("", printed));
    format!(in alloc;
        "Translator candidates: 0\nTranslator invariants: 0\nTranslator variables{sizes}"
    )
}

impl<'a> Call<'a> {
    /// The written files alone are there before.
    pub fn become_read_back(&mut self, alloc: Global) -> Result<(), AllocError> {
        self.files.clear();
        self.is_read_back = true;
        if let Held::Text(printed) = &self.printed {
            self.printed = Held::Text(printed_back(alloc, printed)?);
        }
        Ok(())
    }
}
