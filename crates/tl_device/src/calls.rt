// The calls that are made on files or a console in memory, and those of them that are to fail.
ghost use Rattle.std.specs.Prelude.{◌≡◌, ◌==◌, ◌+◌, [], OnOk, OnErr};
ghost use Rattle.std.specs.List.{list_any};
ghost use Rattle.tl_device.specs.memory.CallsState.{next_fails, one_made, one_fails, one_fails_of};

use std::alloc::{AllocError, Global};
use std::marker::Model;

/// A kind of call on files.
#[derive(Clone, Copy)]
pub enum FileCall {
    OpenFile,
    Read,
    CreateFile,
    Write,
}

// The calls of one kind.
#[derive(Drop)]
pub(crate) struct Calls {
    made: u64,
    failing: Vec<u64>,
}

impl Model for Calls {
    ghost use Rattle.tl_device.specs.memory.CallsState.{CallsState};

    ghost Value = { CallsState };

    ghost view = { λ c. record { made = c.made; failing = c.failing.items } };
}

impl Calls {
    // None was made, and none is to fail.
    pub(crate) fn new(alloc: Global) -> Self
        ensures { result ≡ record { made = 0; failing = [] } }
    {
        Calls {
            made: 0,
            failing: Vec::new(alloc),
        }
    }

    // Makes the nth call fail, counted from 1.
    pub(crate) fn fail(&mut self, nth: u64) -> Result<(), AllocError>
        ensures ok { OnOk result (self.new ≡ one_fails self.old nth) }
        ensures err { OnErr result (self.new ≡ self.old) }
    {
        self.failing.push(nth)?;
        Ok(())
    }

    // Counts a call, and answers whether it is to fail.
    pub(crate) fn count(&mut self) -> bool
        ensures fails { result ≡ next_fails self.old }
        ensures counts { self.new ≡ one_made self.old }
    {
        let made = self.made;
        self.made = made.saturating_add(1);
        has_next(&self.failing, made)
    }
}

// Whether the call behind so many is listed.
fn has_next(failing: &[u64], made: u64) -> bool
    ensures { result ≡ list_any (λ nth. nth == made + 1) failing.now }
{
    failing.iter().any(|nth| *nth > made && *nth - made == 1)
}

// The calls on files, by their kinds.
#[derive(Drop)]
pub(crate) struct FileCalls {
    pub(crate) open_file: Calls,
    pub(crate) read: Calls,
    pub(crate) create_file: Calls,
    pub(crate) write: Calls,
}

impl Model for FileCalls {
    ghost use Rattle.tl_device.specs.memory.CallsState.{FileCallsState};

    ghost Value = { FileCallsState };

    ghost view = { λ c. record { open_file = c.open_file; read = c.read; create_file = c.create_file; write = c.write } };
}

impl FileCalls {
    // None was made, and none is to fail.
    pub(crate) fn new(alloc: Global) -> Self
        ensures { result ≡ record {
          open_file = record { made = 0; failing = [] };
          read = record { made = 0; failing = [] };
          create_file = record { made = 0; failing = [] };
          write = record { made = 0; failing = [] };
        } }
    {
        FileCalls {
            open_file: Calls::new(alloc),
            read: Calls::new(alloc),
            create_file: Calls::new(alloc),
            write: Calls::new(alloc),
        }
    }

    // Makes the nth call of the kind fail, counted from 1.
    pub(crate) fn fail(&mut self, what: FileCall, nth: u64) -> Result<(), AllocError>
        ensures ok { OnOk result (self.new ≡ one_fails_of self.old what nth) }
        ensures err { OnErr result (self.new ≡ self.old) }
    {
        match what {
            FileCall::OpenFile => self.open_file.fail(nth),
            FileCall::Read => self.read.fail(nth),
            FileCall::CreateFile => self.create_file.fail(nth),
            FileCall::Write => self.write.fail(nth),
        }
    }
}
