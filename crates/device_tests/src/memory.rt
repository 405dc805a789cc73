ghost use Rattle.std.specs.Prelude.{◌≤◌, IsSome};
ghost use Rattle.std.specs.Bool.{OnTrue};

use crate::reading::{Reading, are_found};
use std::alloc::{AllocError, Global};
use tl_device::{Console, FileCall, Files, MemConsole, MemFiles, ReadEnd, put_all, say_all};

fn holds(files: &MemFiles, name: &str, bytes: &[u8]) -> bool {
    matches!(files.content(name), Some(content) if content == bytes)
}

fn is_absent(files: &MemFiles, name: &str) -> bool {
    files.content(name).is_none()
}

// The second that is added under a name replaces the first.
static ADDED: &[(&str, &[u8])] = &[
    ("first", b"abcde"),
    ("second", b""),
    ("first", b"vwxyz"),
    ("out", b"older"),
];

fn add_three(files: &mut MemFiles) -> Result<(), AllocError> {
    for (name, bytes) in ADDED {
        files.add(name, bytes)?;
    }
    Ok(())
}

fn three_files(alloc: Global) -> Result<MemFiles, AllocError> {
    let mut files = MemFiles::new(alloc);
    add_three(&mut files)?;
    Ok(files)
}

static READINGS: &[Reading<'static>] = &[
    ("first", 5, Ok(b"vwxyz")),
    ("second", 0, Ok(b"")),
    ("first", 4, Err(ReadEnd::TooLong)),
    ("third", 5, Err(ReadEnd::Failed)),
];

fn are_read(alloc: Global, files: &mut MemFiles) -> bool {
    are_found(alloc, files, READINGS) && holds(files, "second", b"") && is_absent(files, "third")
}

fn is_created(files: &mut MemFiles, name: &str) -> bool
    ensures { OnTrue result (IsSome files.new.writing) }
{
    files.create_file(name).is_ok()
}

fn is_put(files: &mut MemFiles, bytes: &[u8]) -> bool
    requires { IsSome files.old.writing }
    ensures { IsSome files.new.writing }
{
    put_all(files, bytes).is_ok()
}

/// Whether a file without room is left as it is.
fn is_kept(files: &mut MemFiles) -> bool {
    !is_created(files, "out") && holds(files, "out", b"older")
}

/// Whether a file with room for four bytes takes no more, and then nothing.
fn is_filled(files: &mut MemFiles) -> bool {
    is_created(files, "out")
        && is_put(files, b"abc")
        && !is_put(files, b"def")
        && holds(files, "out", b"abcd")
        && is_put(files, b"")
}

/// Whether a file that is created is empty.
fn is_begun_empty(files: &mut MemFiles) -> bool {
    is_created(files, "new") && holds(files, "new", b"")
}

fn is_given_room(files: &mut MemFiles) -> bool {
    files.room("out", 4).is_ok() && files.room("new", 2).is_ok()
}

fn are_written(files: &mut MemFiles) -> bool {
    is_kept(files)
        && is_given_room(files)
        && is_absent(files, "new")
        && is_filled(files)
        && is_begun_empty(files)
}

/// Whether files in memory are read whole and written within their room, where a call takes so many bytes.
fn are_read_and_written(alloc: Global, most: u64) -> bool
    requires { 1 ≤ most }
{
    let Ok(mut files) = three_files(alloc) else {
        return false;
    };
    files.most(most);
    are_read(alloc, &mut files) && are_written(&mut files)
}

// One call that is to fail, whether each of two reads of five bytes succeeds then, of three bytes a call, and what is
// held of five bytes that are written after them. Without a failure a whole read makes one `open_file` and three
// `read`, and the writing one `create_file` and two `write`.
type FailingCall = (FileCall, u64, [bool; 2], &'static [u8]);

static FAILING_CALLS: &[FailingCall] = &[
    (FileCall::OpenFile, 0, [true, true], b"abcde"),
    (FileCall::OpenFile, 1, [false, true], b"abcde"),
    (FileCall::OpenFile, 2, [true, false], b"abcde"),
    (FileCall::OpenFile, 3, [true, true], b"abcde"),
    (FileCall::Read, 1, [false, true], b"abcde"),
    (FileCall::Read, 3, [false, true], b"abcde"),
    (FileCall::Read, 4, [true, false], b"abcde"),
    (FileCall::Read, 6, [true, false], b"abcde"),
    (FileCall::Read, 7, [true, true], b"abcde"),
    (FileCall::CreateFile, 1, [true, true], b"older"),
    (FileCall::CreateFile, 2, [true, true], b"abcde"),
    (FileCall::Write, 1, [true, true], b""),
    (FileCall::Write, 2, [true, true], b"abc"),
    (FileCall::Write, 3, [true, true], b"abcde"),
];

/// That the file is read whole, or a call on it fails.
fn read_or_failed(succeeds: bool) -> Reading<'static> {
    if succeeds {
        ("first", 5, Ok(b"vwxyz"))
    } else {
        ("first", 5, Err(ReadEnd::Failed))
    }
}

/// Whether five bytes are written, up to where a call fails, and this is held then.
fn is_written_so_far(files: &mut MemFiles, held: &[u8]) -> bool {
    let is_written = is_created(files, "out") && is_put(files, b"abcde");
    holds(files, "out", held) && is_written == (held == b"abcde".as_slice())
}

/// Whether the call is listed, and then fails and no other does.
fn fails(alloc: Global, files: &mut MemFiles, call: &FailingCall) -> bool {
    let (what, nth, reads, held) = call;
    files.fail(*what, *nth).is_ok()
        && files.room("out", 5).is_ok()
        && are_found(
            alloc,
            files,
            &[read_or_failed(reads[0]), read_or_failed(reads[1])],
        )
        && is_written_so_far(files, held)
}

/// Whether the listed call fails of those on three files, of which each takes three bytes at most.
fn fails_just_there(alloc: Global, call: &FailingCall) -> bool {
    let Ok(mut files) = three_files(alloc) else {
        return false;
    };
    files.most(3);
    fails(alloc, &mut files, call)
}

/// Bytes that are printed whole or by one call, whether that succeeds, and all that is printed then.
type Printing = (bool, &'static [u8], bool, &'static [u8]);

fn is_printed(console: &mut MemConsole, printing: &Printing) -> bool {
    let (is_whole, bytes, succeeds, printed) = *printing;
    let is_ok = if is_whole {
        say_all(console, bytes).is_ok()
    } else {
        console.write(bytes).is_ok()
    };
    is_ok == succeeds && console.printed() == printed
}

fn are_printed(console: &mut MemConsole, printings: &[Printing]) -> bool {
    printings
        .iter()
        .all(|printing| is_printed(console, printing))
}

// There is room for five bytes.
static FILLING: &[Printing] = &[
    (true, b"abc", true, b"abc"),
    (true, b"def", false, b"abcde"),
    (true, b"", true, b"abcde"),
];

/// Whether a console takes nothing, then the bytes that there is room for, and then nothing.
fn is_filled_console(console: &mut MemConsole) -> bool {
    is_printed(console, &(false, b"x", false, b""))
        && console.room(5).is_ok()
        && are_printed(console, FILLING)
}

/// Whether a console keeps what is printed, where a call takes so many bytes.
fn is_kept_on_console(alloc: Global, most: u64) -> bool
    requires { 1 ≤ most }
{
    let mut console = MemConsole::new(alloc);
    console.most(most);
    is_filled_console(&mut console)
}

#[test]
fn files_and_a_console_in_memory_keep_what_they_have_room_for(rt: HostRuntime) {
    for most in [1, 3, 100] {
        assert!(rt;
            are_read_and_written(rt.alloc(), most) && is_kept_on_console(rt.alloc(), most),
            "{most} bytes a call"
        );
    }
}

// The second and the fourth call fail, and each takes three bytes at most.
static FAILING_TWICE: &[Printing] = &[
    (true, b"abcdef", false, b"abc"),
    (false, b"gh", true, b"abcgh"),
    (false, b"", false, b"abcgh"),
    (true, b"ijklm", true, b"abcghijklm"),
];

fn fails_twice(console: &mut MemConsole) -> bool {
    console.room(100).is_ok()
        && console.fail(4).is_ok()
        && console.fail(2).is_ok()
        && are_printed(console, FAILING_TWICE)
}

fn are_listed_prints_failing(alloc: Global) -> bool {
    let mut console = MemConsole::new(alloc);
    console.most(3);
    fails_twice(&mut console)
}

#[test]
fn a_listed_call_fails_and_no_other(rt: HostRuntime) {
    for (row, call) in FAILING_CALLS.iter().enumerate() {
        assert!(rt; fails_just_there(rt.alloc(), call), "row {row}");
    }
    assert!(rt; are_listed_prints_failing(rt.alloc()), "prints");
}
