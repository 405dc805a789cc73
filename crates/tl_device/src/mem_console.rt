// A console in memory.
ghost use Rattle.std.specs.Prelude.{◌≡◌, ◌↔◌, ◌≤◌, ◌<◌, ◌-◌, ◌⊎◌, ◌++◌, [], IsErr, IsTrue, IfOk, OnOk, OnErr, length, min, take, Some};
ghost use Rattle.tl_device.specs.Causes.{HasCause, saturating_add};
ghost use Rattle.tl_device.specs.memory.CallsState.{next_fails, one_made, one_fails};

use crate::calls::Calls;
use crate::entries::append_within;
use crate::{Console, Failed};
use std::alloc::{AllocError, Global};
use std::marker::Model;

/// A console that keeps what is printed, up to the bytes that there is room for. The calls that are listed fail.
#[derive(Drop)]
pub struct MemConsole {
    text: Vec<u8>,
    room: u64,
    most: u64,
    calls: Calls,
    faults: u64,
}

impl Model for MemConsole {
    ghost use Rattle.std.specs.Prelude.{◌≤◌, vec_capacity};
    ghost use Rattle.tl_device.specs.memory.ConsoleState.{ConsoleState};

    ghost Value = { ConsoleState };

    ghost view = { λ c. record { printed = c.text.items; room = c.room; most = c.most; calls = c.calls; faults = c.faults } };

    ghost invariant = { λ c. (c.room ≤ vec_capacity c.text) × (1 ≤ c.most) };
}

impl MemConsole {
    /// A console that has no room, limits no call's bytes and lists no call.
    pub fn new(alloc: Global) -> Self
        ensures { result ≡ record {
          printed = [];
          room = 0;
          most = u64.MAX;
          calls = record { made = 0; failing = [] };
          faults = 0;
        } }
    {
        MemConsole {
            text: Vec::new(alloc),
            room: 0,
            most: u64::MAX,
            calls: Calls::new(alloc),
            faults: 0,
        }
    }

    /// Makes room for so many bytes in all.
    pub fn room(&mut self, bytes: u64) -> Result<(), AllocError>
        ensures ok { OnOk result (self.new ≡ record self.old { room = bytes }) }
        ensures err { OnErr result (self.new ≡ self.old) }
    {
        self.text.reserve(bytes as usize)?;
        self.room = bytes;
        Ok(())
    }

    /// Makes the nth call of `write` fail, counted from 1 over all that are made on this console.
    pub fn fail(&mut self, nth: u64) -> Result<(), AllocError>
        ensures ok { OnOk result (self.new ≡ record self.old { calls = one_fails self.old.calls nth }) }
        ensures err { OnErr result (self.new ≡ self.old) }
    {
        self.calls.fail(nth)
    }

    /// Sets the most bytes that a call takes.
    pub fn most(&mut self, bytes: u64)
        requires { 1 ≤ bytes }
        ensures { self.new ≡ record self.old { most = bytes } }
    {
        self.most = bytes;
    }

    /// The bytes printed so far.
    pub fn printed(&self) -> &[u8]
        ensures { result.now ≡ self.now.printed }
    {
        &self.text
    }

    // Counts a fault.
    fn fault(&mut self) -> Failed
        ensures { self.new ≡ record self.old { faults = saturating_add self.old.faults 1 } }
    {
        self.faults = self.faults.saturating_add(1);
        Failed
    }
}

impl Console for MemConsole {
    ghost printed = { λ c. Some c.printed };

    ghost faults = { λ c. c.faults };

    fn write(&mut self, piece: &[u8]) -> Result<usize, Failed>
        // It fails exactly where the call is listed, or there is a piece and the room is full.
        ensures failed { IsErr result ↔ (IsTrue (next_fails self.old.calls)
            ⊎ ((0 < length piece.now) × (self.old.room ≤ length self.old.printed))) }
        ensures refused { OnErr result (self.new ≡ record self.old {
          calls = one_made self.old.calls;
          faults = saturating_add self.old.faults 1;
        }) }

        // Else it takes as much as it may.
        ensures count { IfOk result (λ n.
            n ≡ min (length piece.now) (min self.old.most (self.old.room - length self.old.printed))) }
        ensures prints { IfOk result (λ n. self.new ≡ record self.old {
          calls = one_made self.old.calls;
          printed = self.old.printed ++ take n piece.now;
        }) }

        // As of every console.
        ensures progress { IfOk result (λ n. 0 < length piece.now → 0 < n) }
        ensures cause { HasCause self.old.faults self.new.faults result }
    {
        if self.calls.count() {
            return Err(self.fault());
        }
        let free = self.room.saturating_sub(self.text.len() as u64);
        if free == 0 && !piece.is_empty() {
            return Err(self.fault());
        }
        let taken = piece.len().min(self.most.min(free) as usize);
        append_within(&mut self.text, &piece[..taken]);
        Ok(taken)
    }
}
