// Files in memory.
ghost use Rattle.std.specs.Prelude.{◌≡◌, ◌≢◌, ◌↔◌, ◌≤◌, ◌<◌, ◌+◌, ◌⊎◌, ◌++◌, [], IsErr, IsSome, IsTrue, if◌then◌else◌, IfOk, OnOk, OnErr, length, min, take, is_some, Some, None};
ghost use Rattle.std.specs.FinMap as map;
ghost use Rattle.std.specs.Option.{option_copied, option_map};
ghost use Rattle.tl_device.specs.Causes.{HasCause, HasCauseOr, IsAbsent, saturating_add};
ghost use Rattle.tl_device.specs.Contents.{HoldsCreated, grow};
ghost use Rattle.tl_device.specs.memory.CallsState.{next_fails, one_made, one_fails_of};
ghost use Rattle.tl_device.specs.memory.FilesState.{rest_of, name_read, position_of, name_written, free_room, read_on};

use crate::calls::{FileCall, FileCalls};
use crate::entries::{Cursor, Entries};
use crate::{Failed, Files};
use std::alloc::{AllocError, Global};
use std::marker::Model;

/// Files that a test sets, with room for the names that are to be written. The calls that are listed fail.
///
/// A call of `Files` on them takes no memory. A name that no file has makes `open_file` fail, which
/// isn't counted; reading fails else only where the call is listed.
pub struct MemFiles {
    alloc: Global,
    entries: Entries,
    reading: Option<Cursor>,
    writing: Option<usize>,
    most: u64,
    calls: FileCalls,
    read_faults: u64,
    write_faults: u64,
}

impl Drop for MemFiles {
    fn drop(self) {
        let MemFiles {
            alloc: _,
            entries: _,
            reading: _,
            writing: _,
            most: _,
            calls: _,
            read_faults: _,
            write_faults: _,
        } = self;
    }
}

impl Model for MemFiles {
    ghost use Rattle.tl_device.specs.memory.FilesState.{FilesState, files_state_code};

    ghost Value = { FilesState };

    ghost coded = { files_state_code };

    ghost use Rattle.std.specs.Option.{option_map};
    ghost use Rattle.tl_device.specs.memory.Entries.{contents, rooms, name_at, open_file_at, IsSound};

    ghost view = { λ s. record {
      files = contents s.entries;
      rooms = rooms s.entries;
      reading = option_map (open_file_at s.entries) s.reading;
      writing = option_map (name_at s.entries) s.writing;
      most = s.most;
      calls = s.calls;
      read_faults = s.read_faults;
      write_faults = s.write_faults;
    } };

    ghost invariant = { λ s. IsSound s.entries s.reading s.writing s.most };
}

impl MemFiles {
    /// No file, no room and no listed call, and calls whose bytes aren't limited.
    pub fn new(alloc: Global) -> Self
        ensures { result ≡ record {
          files = map.empty;
          rooms = map.empty;
          reading = None;
          writing = None;
          most = u64.MAX;
          calls = record {
            open_file = record { made = 0; failing = [] };
            read = record { made = 0; failing = [] };
            create_file = record { made = 0; failing = [] };
            write = record { made = 0; failing = [] };
          };
          read_faults = 0;
          write_faults = 0;
        } }
    {
        MemFiles {
            alloc,
            entries: Entries::new(alloc),
            reading: None,
            writing: None,
            most: u64::MAX,
            calls: FileCalls::new(alloc),
            read_faults: 0,
            write_faults: 0,
        }
    }

    /// Sets a file, whose name then has no room.
    pub fn add(&mut self, name: &str, bytes: &[u8]) -> Result<(), AllocError>
        ensures ok { OnOk result (self.new ≡ record self.old {
          files = map.insert self.old.files name.now bytes.now;
          rooms = map.remove self.old.rooms name.now;
        }) }
        ensures err { OnErr result (self.new ≡ self.old) }
    {
        self.entries.set_file(self.alloc, name, bytes)
    }

    /// Makes the room of a name: it can be created, and then hold so many bytes.
    pub fn room(&mut self, name: &str, bytes: u64) -> Result<(), AllocError>
        ensures ok { OnOk result (self.new ≡ record self.old {
          rooms = map.insert self.old.rooms name.now bytes;
        }) }
        ensures err { OnErr result (self.new ≡ self.old) }
    {
        self.entries.set_room(self.alloc, name, bytes)
    }

    /// Makes the nth call of a kind fail, counted from 1 over all of the kind that are made on these files.
    pub fn fail(&mut self, what: FileCall, nth: u64) -> Result<(), AllocError>
        ensures ok { OnOk result (self.new ≡ record self.old { calls = one_fails_of self.old.calls what nth }) }
        ensures err { OnErr result (self.new ≡ self.old) }
    {
        self.calls.fail(what, nth)
    }

    /// Sets the most bytes that a call gives or takes.
    pub fn most(&mut self, bytes: u64)
        requires { 1 ≤ bytes }
        ensures { self.new ≡ record self.old { most = bytes } }
    {
        self.most = bytes;
    }

    /// What the name holds, or `None` where no file has it.
    pub fn content(&self, name: &str) -> Option<&[u8]>
        ensures { option_copied result ≡ map.get self.now.files name.now }
    {
        let entry = self.entries.file_position(name)?;
        Some(self.entries.content(entry))
    }

    // Counts a fault of reading.
    fn read_fault(&mut self) -> Failed
        ensures { self.new ≡ record self.old { read_faults = saturating_add self.old.read_faults 1 } }
    {
        self.read_faults = self.read_faults.saturating_add(1);
        Failed
    }

    // Counts a fault of writing.
    fn write_fault(&mut self) -> Failed
        ensures { self.new ≡ record self.old { write_faults = saturating_add self.old.write_faults 1 } }
    {
        self.write_faults = self.write_faults.saturating_add(1);
        Failed
    }

    // What a call of `read` does that isn't listed: it gives as much as it may, and answers how much.
    fn give(&mut self, into: &mut [u8]) -> usize
        requires { IsSome self.old.reading }
        ensures count { result ≡ min (length into.old) (min self.old.most (length (rest_of self.old))) }
        ensures given { take result into.new ≡ take result (rest_of self.old) }
        ensures moves { self.new ≡ record self.old { reading = read_on self.old.reading result } }
        ensures front { rest_of self.old ≡ take result into.new ++ rest_of self.new }
        ensures end { result ≡ 0 → 0 < length into.new → rest_of self.old ≡ [] }
        ensures taken { position_of self.new ≡ saturating_add (position_of self.old) result }
    {
        let Some(cursor) = self.reading else {
            unreachable!()
        };
        let count = copy_front(into, self.entries.rest(cursor), self.most);
        self.reading = Some(Cursor {
            entry: cursor.entry,
            position: cursor.position + count,
        });
        count
    }

    // What a call of `create_file` does that isn't listed.
    fn create(&mut self, name: &str) -> Result<(), Failed>
        ensures failed { IsErr result ↔ (map.get self.old.rooms name.now ≡ None) }
        ensures empties { OnOk result (self.new ≡ record self.old {
          files = map.insert self.old.files name.now [];
          writing = Some name.now;
        }) }
        ensures refused { OnErr result (self.new ≡ record self.old {
          writing = None;
          write_faults = saturating_add self.old.write_faults 1;
        }) }
        ensures held { HoldsCreated (Some self.new.files) (is_some self.new.writing) (name_written self.new) }
        ensures cause { HasCause self.old.write_faults self.new.write_faults result }
        ensures rest { name_read self.old ≢ name.now → rest_of self.new ≡ rest_of self.old }
    {
        match self.entries.position(name) {
            Some(entry) if self.entries.has_room(entry) => {
                self.entries.empty(entry);
                self.writing = Some(entry);
                Ok(())
            }
            _ => {
                self.writing = None;
                Err(self.write_fault())
            }
        }
    }

    // What a call of `write` does, once it is known whether it is listed.
    fn take(&mut self, piece: &[u8], is_listed: bool) -> Result<usize, Failed>
        requires { IsSome self.old.writing }
        ensures failed { IsErr result ↔ (IsTrue is_listed
            ⊎ ((0 < length piece.now) × (free_room self.old ≡ 0))) }
        ensures refused { OnErr result (self.new ≡ record self.old {
          write_faults = saturating_add self.old.write_faults 1;
        }) }
        ensures count { IfOk result (λ n.
            n ≡ min (length piece.now) (min self.old.most (free_room self.old))) }
        ensures appends { IfOk result (λ n. self.new ≡ record self.old {
          files = grow self.old.files (name_written self.old) (take n piece.now);
        }) }
        ensures held { HoldsCreated (Some self.new.files) (is_some self.new.writing) (name_written self.new) }
        ensures progress { IfOk result (λ n. 0 < length piece.now → 0 < n) }
        ensures cause { HasCause self.old.write_faults self.new.write_faults result }
        ensures rest { name_read self.old ≢ name_written self.old
            → rest_of self.new ≡ rest_of self.old }
    {
        let Some(entry) = self.writing else {
            unreachable!()
        };
        let free = self.entries.free_room(entry);
        if is_listed {
            return Err(self.write_fault());
        }
        if free == 0 && !piece.is_empty() {
            return Err(self.write_fault());
        }
        let taken = piece.len().min(self.most.min(free) as usize);
        self.entries.append(entry, &piece[..taken]);
        Ok(taken)
    }
}

// Copies a front of the bytes, as long as it may be, and answers its length.
fn copy_front(into: &mut [u8], bytes: &[u8], most: u64) -> usize
    ensures count { result ≡ min (length into.old) (min most (length bytes.now)) }
    ensures bytes { take result into.new ≡ take result bytes.now }
{
    let count = into.len().min(bytes.len().min(most as usize));
    into[..count].copy_from_slice(&bytes[..count]);
    count
}

impl Files for MemFiles {
    ghost files = { λ s. Some s.files };

    ghost asked = { λ s. option_map (λ file. file.name) s.reading };

    ghost reading = { name_read };

    ghost rest = { rest_of };

    ghost taken = { position_of };

    ghost writing = { name_written };

    ghost is_begun = { λ s. is_some s.reading };

    ghost is_created = { λ s. is_some s.writing };

    ghost read_faults = { λ s. s.read_faults };

    ghost write_faults = { λ s. s.write_faults };

    fn open_file(&mut self, name: &str) -> Result<(), Failed>
        // It fails exactly where the call is listed or no file has the name. Only the first is counted.
        ensures failed { IsErr result ↔ (IsTrue (next_fails self.old.calls.open_file)
            ⊎ (map.get self.old.files name.now ≡ None)) }
        ensures opens { OnOk result (self.new ≡ record self.old {
          calls = record self.old.calls { open_file = one_made self.old.calls.open_file };
          reading = Some (record { name = name.now; position = 0 });
        }) }
        ensures refused { OnErr result (self.new ≡ record self.old {
          calls = record self.old.calls { open_file = one_made self.old.calls.open_file };
          reading = None;
          read_faults = if next_fails self.old.calls.open_file
              then saturating_add self.old.read_faults 1 else self.old.read_faults;
        }) }

        // As of all files.
        ensures cause { HasCauseOr (IsAbsent (Some self.old.files) name.now)
            self.old.read_faults self.new.read_faults result }
    {
        self.reading = None;
        if self.calls.open_file.count() {
            return Err(self.read_fault());
        }
        let Some(entry) = self.entries.file_position(name) else {
            return Err(Failed);
        };
        self.reading = Some(Cursor { entry, position: 0 });
        Ok(())
    }

    fn read(&mut self, into: &mut [u8]) -> Result<usize, Failed>
        requires { IsSome self.old.reading }

        // It fails exactly where the call is listed.
        ensures failed { IsErr result ↔ IsTrue (next_fails self.old.calls.read) }
        ensures refused { OnErr result (self.new ≡ record self.old {
          calls = record self.old.calls { read = one_made self.old.calls.read };
          read_faults = saturating_add self.old.read_faults 1;
        }) }

        // Else it gives as much as it may.
        ensures count { IfOk result (λ n.
            n ≡ min (length into.old) (min self.old.most (length (rest_of self.old)))) }
        ensures given { IfOk result (λ n. take n into.new ≡ take n (rest_of self.old)) }
        ensures moves { IfOk result (λ n. self.new ≡ record self.old {
          calls = record self.old.calls { read = one_made self.old.calls.read };
          reading = read_on self.old.reading n;
        }) }

        // As of all files.
        ensures bound { IfOk result (λ n. n ≤ length into.new) }
        ensures front { IfOk result (λ n. rest_of self.old ≡ take n into.new ++ rest_of self.new) }
        ensures end { IfOk result (λ n. n ≡ 0 → 0 < length into.new → rest_of self.old ≡ []) }
        ensures taken { IfOk result (λ n. position_of self.new ≡ saturating_add (position_of self.old) n) }
        ensures cause { HasCause self.old.read_faults self.new.read_faults result }
    {
        if self.calls.read.count() {
            return Err(self.read_fault());
        }
        Ok(self.give(into))
    }

    fn create_file(&mut self, name: &str) -> Result<(), Failed>
        // It fails exactly where the call is listed or the name has no room.
        ensures failed { IsErr result ↔ (IsTrue (next_fails self.old.calls.create_file)
            ⊎ (map.get self.old.rooms name.now ≡ None)) }
        ensures empties { OnOk result (self.new ≡ record self.old {
          calls = record self.old.calls { create_file = one_made self.old.calls.create_file };
          files = map.insert self.old.files name.now [];
          writing = Some name.now;
        }) }
        ensures refused { OnErr result (self.new ≡ record self.old {
          calls = record self.old.calls { create_file = one_made self.old.calls.create_file };
          writing = None;
          write_faults = saturating_add self.old.write_faults 1;
        }) }

        // As of all files.
        ensures held { HoldsCreated (Some self.new.files) (is_some self.new.writing) (name_written self.new) }
        ensures cause { HasCause self.old.write_faults self.new.write_faults result }
        ensures rest { name_read self.old ≢ name.now → rest_of self.new ≡ rest_of self.old }
    {
        if self.calls.create_file.count() {
            self.writing = None;
            return Err(self.write_fault());
        }
        self.create(name)
    }

    fn write(&mut self, piece: &[u8]) -> Result<usize, Failed>
        requires { IsSome self.old.writing }

        // It fails exactly where the call is listed, or there is a piece and the room is full.
        ensures failed { IsErr result ↔ (IsTrue (next_fails self.old.calls.write)
            ⊎ ((0 < length piece.now) × (free_room self.old ≡ 0))) }
        ensures refused { OnErr result (self.new ≡ record self.old {
          calls = record self.old.calls { write = one_made self.old.calls.write };
          write_faults = saturating_add self.old.write_faults 1;
        }) }

        // Else it takes as much as it may.
        ensures count { IfOk result (λ n.
            n ≡ min (length piece.now) (min self.old.most (free_room self.old))) }
        ensures appends { IfOk result (λ n. self.new ≡ record self.old {
          calls = record self.old.calls { write = one_made self.old.calls.write };
          files = grow self.old.files (name_written self.old) (take n piece.now);
        }) }

        // As of all files.
        ensures held { HoldsCreated (Some self.new.files) (is_some self.new.writing) (name_written self.new) }
        ensures progress { IfOk result (λ n. 0 < length piece.now → 0 < n) }
        ensures cause { HasCause self.old.write_faults self.new.write_faults result }
        ensures rest { name_read self.old ≢ name_written self.old
            → rest_of self.new ≡ rest_of self.old }
    {
        let is_listed = self.calls.write.count();
        self.take(piece, is_listed)
    }
}
