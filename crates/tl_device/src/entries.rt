// The entries of files in memory: names, what they hold, and the room for them to be written.
ghost use Rattle.std.specs.Prelude.{◌≡◌, ◌↔◌, ◌+◌, ◌-◌, ◌^◌, ◌≤◌, ◌<◌, [], ◌++◌, length, drop, vec_capacity, unwrap_or, IsTrue, IsSome, IfOk, IfSome, IfNone, OnOk, OnErr, Some, None};
ghost use Rattle.std.specs.FinMap as map;
ghost use Rattle.tl_device.specs.Contents.{grow};
ghost use Rattle.tl_device.specs.memory.Entries.{contents, rooms, name_at, file_at, room_at, IsEntryOf, IsFileAt, IsUnknown, KeepsPlaces};
ghost use Rattle.tl_device.specs.memory.FilesState.{held_bytes, free_in};

use std::alloc::{AllocError, Global};
use std::marker::Model;

// A name, what it holds if there is such a file, and how many bytes it can hold when it is written.
#[derive(Drop)]
pub(crate) struct Entry {
    name: String,
    bytes: Vec<u8>,
    exists: bool,
    room: Option<u64>,
}

impl Model for Entry {
    ghost use Rattle.std.specs.Prelude.{◌≤◌, if◌then◌else◌, vec_capacity, string_bytes, Some, None};
    ghost use Rattle.std.specs.Option.{ForSome};
    ghost use Rattle.tl_device.specs.memory.EntryState.{EntryState};

    ghost Value = { EntryState };

    ghost view = { λ e. record {
      name = string_bytes e.name;
      file = if e.exists then Some e.bytes.items else None;
      room = e.room;
    } };

    ghost invariant = { λ e. ForSome e.room (λ room. room ≤ vec_capacity e.bytes) };
}

impl Entry {
    // A file, whose name has no room.
    pub(crate) fn with_file(alloc: Global, name: &str, bytes: &[u8]) -> Result<Self, AllocError>
        ensures { IfOk result (λ entry.
            entry ≡ record { name = name.now; file = Some bytes.now; room = None }) }
    {
        Ok(Entry {
            name: String::from_str(alloc, name)?,
            bytes: bytes.to_vec(alloc)?,
            exists: true,
            room: None,
        })
    }

    // A name that has room, and no file.
    pub(crate) fn with_room(alloc: Global, name: &str, room: u64) -> Result<Self, AllocError>
        ensures { IfOk result (λ entry.
            entry ≡ record { name = name.now; file = None; room = Some room }) }
    {
        Ok(Entry {
            name: String::from_str(alloc, name)?,
            bytes: Vec::with_capacity(alloc, room as usize)?,
            exists: false,
            room: Some(room),
        })
    }

    pub(crate) fn is_named(&self, name: &str) -> bool
        ensures { IsTrue result ↔ (self.now.name ≡ name.now) }
    {
        self.name.as_str() == name
    }

    pub(crate) fn exists(&self) -> bool
        ensures { IsTrue result ↔ IsSome self.now.file }
    {
        self.exists
    }

    // What the file holds.
    pub(crate) fn content(&self) -> &[u8]
        requires { IsSome self.now.file }
        ensures { self.now.file ≡ Some result.now }
    {
        &self.bytes
    }

    pub(crate) fn has_room(&self) -> bool
        ensures { IsTrue result ↔ IsSome self.now.room }
    {
        self.room.is_some()
    }

    // How many bytes more the file can hold.
    pub(crate) fn free_room(&self) -> u64
        requires { IsSome self.now.file }
        ensures { result ≡ unwrap_or self.now.room 0 - length (unwrap_or self.now.file []) }
    {
        let held = self.bytes.len() as u64;
        self.room.unwrap_or(0).saturating_sub(held)
    }

    // Makes room for so many bytes.
    pub(crate) fn make_room(&mut self, room: u64) -> Result<(), AllocError>
        ensures ok { OnOk result (self.new ≡ record self.old { room = Some room }) }
        ensures err { OnErr result (self.new ≡ self.old) }
    {
        self.bytes.reserve(room as usize)?;
        self.room = Some(room);
        Ok(())
    }

    // Makes the file exist, with no bytes.
    pub(crate) fn empty(&mut self)
        ensures { self.new ≡ record self.old { file = Some [] } }
    {
        self.bytes.clear();
        self.exists = true;
    }

    // Appends bytes for which there is room.
    pub(crate) fn append(&mut self, piece: &[u8])
        requires exists { IsSome self.old.file }
        requires room { length piece.now ≤ unwrap_or self.old.room 0 - length (unwrap_or self.old.file []) }
        ensures { self.new ≡ record self.old { file = Some (unwrap_or self.old.file [] ++ piece.now) } }
    {
        if !piece.is_empty() {
            append_within(&mut self.bytes, piece);
        }
    }
}

// The entries by their places. No two have one name.
#[derive(Drop)]
pub(crate) struct Entries {
    items: Vec<Entry>,
}

// A place in the file of an entry.
#[derive(Clone, Copy)]
pub(crate) struct Cursor {
    pub(crate) entry: usize,
    pub(crate) position: usize,
}

impl Model for Entries {
    ghost use Rattle.std.specs.Prelude.{List};
    ghost use Rattle.tl_device.specs.memory.EntryState.{EntryState};

    ghost Value = { List EntryState };

    ghost use Rattle.tl_device.specs.memory.Entries.{HaveOwnNames};

    ghost view = { λ e. e.items.items };

    ghost invariant = { λ e. HaveOwnNames e.items.items };
}

impl Entries {
    pub(crate) fn new(alloc: Global) -> Self
        ensures { result ≡ [] }
    {
        Entries {
            items: Vec::new(alloc),
        }
    }

    // Where the entry of a name stands.
    pub(crate) fn position(&self, name: &str) -> Option<usize>
        ensures found { IfSome result (IsEntryOf self.now name.now) }
        ensures none { IfNone result (IsUnknown self.now name.now) }
    {
        for i in 0..self.items.len() {
            if self.items[i].is_named(name) {
                return Some(i);
            }
        }
        None
    }

    // Where the entry of a name stands that has a file.
    pub(crate) fn file_position(&self, name: &str) -> Option<usize>
        ensures found { IfSome result (IsEntryOf self.now name.now) }
        ensures file { IfSome result (λ i. IsSome (file_at self.now i)) }
        ensures none { IfNone result (map.get (contents self.now) name.now ≡ None) }
    {
        let i = self.position(name)?;
        if self.items[i].exists() {
            Some(i)
        } else {
            None
        }
    }

    pub(crate) fn has_room(&self, i: usize) -> bool
        requires { i < length self.now }
        ensures { IsTrue result ↔ IsSome (room_at self.now i) }
    {
        self.items[i].has_room()
    }

    // What the file of an entry holds.
    pub(crate) fn content(&self, i: usize) -> &[u8]
        requires { IsFileAt self.now i }
        ensures { map.get (contents self.now) (name_at self.now i) ≡ Some result.now }
    {
        self.items[i].content()
    }

    // What is left of a file behind a cursor.
    pub(crate) fn rest(&self, cursor: Cursor) -> &[u8]
        requires { IsFileAt self.now cursor.entry }
        ensures rest { result.now ≡ drop cursor.position
            (held_bytes (contents self.now) (name_at self.now cursor.entry)) }
        ensures end { cursor.position + length result.now < 2 ^ 64 }
    {
        let bytes = self.content(cursor.entry);
        &bytes[cursor.position.min(bytes.len())..]
    }

    // How many bytes more the file of an entry can hold.
    pub(crate) fn free_room(&self, i: usize) -> u64
        requires { IsFileAt self.now i }
        ensures free { result ≡ free_in (contents self.now) (rooms self.now) (name_at self.now i) }
        ensures held { IsSome (map.get (contents self.now) (name_at self.now i)) }
    {
        self.items[i].free_room()
    }

    // Makes the file of an entry exist, with no bytes.
    pub(crate) fn empty(&mut self, i: usize)
        requires { i < length self.old }
        ensures contents { contents self.new ≡ map.insert (contents self.old) (name_at self.old i) [] }
        ensures rooms { rooms self.new ≡ rooms self.old }
        ensures places { KeepsPlaces self.old self.new }
        ensures file { IsSome (file_at self.new i) }
    {
        self.items[i].empty();
    }

    // Appends bytes to the file of an entry.
    pub(crate) fn append(&mut self, i: usize, piece: &[u8])
        requires exists { IsFileAt self.old i }
        requires room { length piece.now ≤ free_in (contents self.old) (rooms self.old) (name_at self.old i) }
        ensures contents { contents self.new ≡ grow (contents self.old) (name_at self.old i) piece.now }
        ensures rooms { rooms self.new ≡ rooms self.old }
        ensures places { KeepsPlaces self.old self.new }
    {
        self.items[i].append(piece);
    }

    // Sets the file of a name, which then has no room.
    pub(crate) fn set_file(
        &mut self,
        alloc: Global,
        name: &str,
        bytes: &[u8],
    ) -> Result<(), AllocError>
        ensures contents { OnOk result
            (contents self.new ≡ map.insert (contents self.old) name.now bytes.now) }
        ensures rooms { OnOk result (rooms self.new ≡ map.remove (rooms self.old) name.now) }
        ensures places { KeepsPlaces self.old self.new }
        ensures err { OnErr result (self.new ≡ self.old) }
    {
        let entry = Entry::with_file(alloc, name, bytes)?;
        match self.position(name) {
            Some(i) => self.items[i] = entry,
            None => self.items.push(entry)?,
        }
        Ok(())
    }

    // Sets the room of a name.
    pub(crate) fn set_room(
        &mut self,
        alloc: Global,
        name: &str,
        room: u64,
    ) -> Result<(), AllocError>
        ensures contents { OnOk result (contents self.new ≡ contents self.old) }
        ensures rooms { OnOk result (rooms self.new ≡ map.insert (rooms self.old) name.now room) }
        ensures places { KeepsPlaces self.old self.new }
        ensures err { OnErr result (self.new ≡ self.old) }
    {
        match self.position(name) {
            Some(i) => self.items[i].make_room(room)?,
            None => self.items.push(Entry::with_room(alloc, name, room)?)?,
        }
        Ok(())
    }
}

// Appends bytes within the capacity, which takes no memory.
pub(crate) fn append_within(bytes: &mut Vec<u8>, piece: &[u8])
    requires { length bytes.old.items + length piece.now ≤ vec_capacity bytes.old }
    ensures items { bytes.new.items ≡ bytes.old.items ++ piece.now }
    ensures capacity { vec_capacity bytes.old ≤ vec_capacity bytes.new }
{
    if bytes.extend_from_slice(piece).is_err() {
        unreachable!()
    }
}
