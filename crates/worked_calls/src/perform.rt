//! Calls on files and a console in memory.

use crate::call::{Call, File, Held, find};
use crate::outside::Outside;
use std::alloc::{AllocError, Global};
use translator::Status;

/// What is other than it should be, and in which line or file.
#[derive(Clone, Copy)]
pub struct Other<'a> {
    pub what: &'static str,
    pub at: &'a str,
}

const NOT_UNDERSTOOD: &str = "doesn't understand";

const LEAVES: &str = "leaves something else in";

/// The output file, where the words name no other.
const OUTPUT: &str = "output.sas";

/// The bytes for which there is room in a file that is written.
const ROOM: u64 = 4_000_000;

fn differs<'a>(what: &'static str, at: &'a str) -> Option<Other<'a>> {
    Some(Other { what, at })
}

/// Adds the files that have a text.
fn add_all(outside: &mut Outside, files: &[File<'_>]) -> Result<(), AllocError> {
    for file in files {
        if let Held::Text(text) = &file.held {
            outside.add(file.name, text.as_bytes())?;
        }
    }
    Ok(())
}

/// Makes room for the files that have a text.
fn make_room(outside: &mut Outside, files: &[File<'_>]) -> Result<(), AllocError> {
    for file in files {
        if let Held::Text(_) = &file.held {
            outside.room(file.name, ROOM)?;
        }
    }
    Ok(())
}

impl<'a> Call<'a> {
    /// What is other than it should be where this call is performed.
    pub fn first_other(&self, alloc: Global) -> Result<Option<Other<'a>>, AllocError> {
        if let Some(at) = self.misread {
            return Ok(differs(NOT_UNDERSTOOD, at));
        }
        let mut outside = Outside::new(alloc);
        let other = self.first_other_in(alloc, &mut outside);
        drop(outside);
        other
    }

    fn first_other_in(
        &self,
        alloc: Global,
        outside: &mut Outside,
    ) -> Result<Option<Other<'a>>, AllocError> {
        let first = self.perform(alloc, outside)?;
        if self.is_twice && !self.writes_again(alloc, outside)? {
            return Ok(differs(LEAVES, OUTPUT));
        }
        Ok(first)
    }

    /// Whether this call, performed once more, ends as it should and writes what it wrote before.
    fn writes_again(&self, alloc: Global, before: &Outside) -> Result<bool, AllocError> {
        let mut outside = Outside::new(alloc);
        let writes_again = self.writes_again_in(alloc, &mut outside, before);
        drop(outside);
        writes_again
    }

    fn writes_again_in(
        &self,
        alloc: Global,
        outside: &mut Outside,
        before: &Outside,
    ) -> Result<bool, AllocError> {
        let first = self.perform(alloc, outside)?;
        Ok(first.is_none() && outside.holds(OUTPUT, before.content(OUTPUT)))
    }

    fn perform(
        &self,
        alloc: Global,
        outside: &mut Outside,
    ) -> Result<Option<Other<'a>>, AllocError> {
        self.prepare(outside)?;
        for setting in &self.settings {
            if !outside.set(setting)? {
                return Ok(differs(NOT_UNDERSTOOD, setting));
            }
        }
        let status = outside.answer(alloc, self.words, self.book)?;
        Ok(self.compare(outside, status))
    }

    /// Adds the files that stand before, and makes room.
    fn prepare(&self, outside: &mut Outside) -> Result<(), AllocError> {
        add_all(outside, &self.files)?;
        if self.is_read_back {
            add_all(outside, &self.left)?;
        }
        outside.console_room(1000)?;
        outside.room(OUTPUT, ROOM)?;
        make_room(outside, &self.left)
    }

    fn compare(&self, outside: &Outside, status: Status) -> Option<Other<'a>> {
        if !self.is_cut(outside, status) {
            if status.code() != self.status {
                return differs("ends with another status than", "it should");
            }
            if !self.printed.is_met_by(Some(outside.printed())) {
                return differs("prints something else than", "it should");
            }
        }
        if !self.leaves(outside, OUTPUT) {
            return differs(LEAVES, OUTPUT);
        }
        let first = self.first_left(outside, &self.files);
        first.or(self.first_left(outside, &self.left))
    }

    /// Whether the console failed in the middle, where it may.
    fn is_cut(&self, outside: &Outside, status: Status) -> bool {
        self.may_be_cut
            && status == Status::Device
            && self.printed.goes_on_behind(outside.printed())
    }

    /// The first of the files whose name holds something else than it should afterwards.
    fn first_left(&self, outside: &Outside, files: &[File<'a>]) -> Option<Other<'a>> {
        for file in files {
            if !self.leaves(outside, file.name) {
                return differs(LEAVES, file.name);
            }
        }
        None
    }

    /// Whether the name holds what it should afterwards: what the call leaves there, or else what stood there before.
    fn leaves(&self, outside: &Outside, name: &str) -> bool {
        let content = outside.content(name);
        match find(&self.left, name).or(find(&self.files, name)) {
            Some(file) => file.held.is_met_by(content),
            None => content.is_none(),
        }
    }
}
