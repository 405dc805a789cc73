ghost use Rattle.std.specs.Prelude.{IsErr};

use crate::reading::{Reading, are_found};
use std::alloc::{AllocError, Allocator, Global};
use std::cell::Cell;
use std::fmt::Display;
use std::fs::{Metadata, OpenFile, OpenOptions};
use std::io::{Read, Seek, SeekFrom, Write};
use std::{fs, io, rt};
use tl_device::{Files, ReadEnd, RealConsole, RealFiles, put_all, say_all};

// The files of a test lie where it runs, and it removes them.
static WRITTEN: &str = "tl_device_written";

static BESIDE: &str = "tl_device_beside";

static ABSENT: &str = "tl_device_absent";

static APART: &str = "tl_device_apart";

static STAYING: &str = "tl_device_staying";

/// Bytes that count up from the first one, and begin anew behind 250.
fn counted(alloc: Global, first: u8, length: usize) -> Result<Vec<u8>, AllocError> {
    let mut bytes = Vec::new(alloc);
    let mut next = first;
    for _ in 0..length {
        bytes.push(next)?;
        next = if next < 250 { next + 1 } else { 0 };
    }
    Ok(bytes)
}

fn is_put<R: rt::Files>(rt: &R, name: &str, bytes: &[u8]) -> bool {
    let mut files = RealFiles::new(rt);
    files.create_file(name).is_ok() && put_all(&mut files, bytes).is_ok()
}

fn is_begun(rt: &HostRuntime, name: &str) -> bool {
    RealFiles::new(rt).open_file(name).is_ok()
}

/// Whether the system itself finds these bytes in the file.
fn holds(rt: &HostRuntime, name: &str, bytes: &[u8]) -> bool {
    matches!(fs::read(rt, name), Ok(held) if held.as_slice() == bytes)
}

/// Whether both files are read, one of them in part, and then nothing of a name that no file has.
fn are_read(rt: &HostRuntime, bytes: &[u8]) -> bool {
    let mut files = RealFiles::new(rt);
    let readings: &[Reading<'_>] = &[
        (WRITTEN, 300_000, Ok(bytes)),
        (BESIDE, 6, Ok(b"beside")),
        (BESIDE, 5, Err(ReadEnd::TooLong)),
        (ABSENT, 10, Err(ReadEnd::Failed)),
    ];
    are_found(rt.alloc(), &mut files, readings)
}

fn is_replaced(rt: &HostRuntime, bytes: &[u8]) -> bool {
    is_put(rt, WRITTEN, bytes)
        && holds(rt, WRITTEN, bytes)
        && holds(rt, BESIDE, b"beside")
        && are_read(rt, bytes)
}

fn is_replaced_by(rt: &HostRuntime, first: u8, length: usize) -> bool {
    matches!(counted(rt.alloc(), first, length), Ok(bytes) if is_replaced(rt, &bytes))
}

fn is_set(rt: &HostRuntime) -> bool {
    fs::write(rt, BESIDE, b"beside").is_ok()
}

fn is_removed(rt: &HostRuntime, name: &str) -> bool {
    fs::remove_file(rt, name).is_ok()
}

#[test]
fn a_real_file_is_replaced_and_read_whole_and_a_folder_fails(rt: HostRuntime) {
    let is_set = is_set(&rt);
    for (first, length) in [(0, 200_000), (100, 70_000), (3, 0)] {
        assert!(rt;
            is_set && is_replaced_by(&rt, first, length),
            "{length} bytes"
        );
    }
    assert!(rt; is_removed(&rt, WRITTEN) && is_removed(&rt, BESIDE) && is_refused(&rt));
}

/// Whether a folder can be begun, and nothing is read there and nothing written.
fn is_refused(rt: &HostRuntime) -> bool {
    let mut files = RealFiles::new(rt);
    is_begun(rt, ".")
        && are_found(rt.alloc(), &mut files, &[(".", 10, Err(ReadEnd::Failed))])
        && !is_put(rt, ".", b"x")
}

fn refused<T>() -> io::Result<T>
    ensures { IsErr result }
{
    Err(io::Error::from(io::ErrorKind::Unsupported))
}

/// A file that is read, written and emptied by a second descriptor alone, as one has to be that was opened where a standard
/// stream is closed: its first descriptor has the number of the stream.
#[derive(Drop)]
struct Opened<F> {
    file: F,
    is_second: bool,
    can_double: bool,
}

impl<F: Read> Read for Opened<F> {
    fn read(&mut self, into: &mut [u8]) -> io::Result<usize> {
        if self.is_second {
            self.file.read(into)
        } else {
            refused()
        }
    }
}

impl<F: Write> Write for Opened<F> {
    fn write(&mut self, piece: &[u8]) -> io::Result<usize> {
        if self.is_second {
            self.file.write(piece)
        } else {
            refused()
        }
    }

    fn flush(&mut self) -> io::Result<()> {
        refused()
    }
}

impl<F> Seek for Opened<F> {
    fn seek(&mut self, _: SeekFrom) -> io::Result<u64> {
        refused()
    }
}

impl<F: OpenFile> OpenFile for Opened<F> {
    fn metadata(&self) -> io::Result<Metadata> {
        if self.is_second {
            self.file.metadata()
        } else {
            refused()
        }
    }

    fn set_len(&self, size: u64) -> io::Result<()> {
        if self.is_second {
            self.file.set_len(size)
        } else {
            refused()
        }
    }

    fn sync_all(&self) -> io::Result<()> {
        refused()
    }

    fn sync_data(&self) -> io::Result<()> {
        refused()
    }

    fn try_clone(&self) -> io::Result<Opened<F>> {
        if !self.can_double {
            return refused();
        }
        Ok(Opened {
            file: self.file.try_clone()?,
            is_second: true,
            can_double: true,
        })
    }
}

/// The files of a runtime, each opened by a first descriptor, of which a second may be had or not. Nothing but opening and
/// removing works.
#[derive(Drop)]
struct FirstOpened<'a, R> {
    runtime: &'a R,
    can_double: bool,
}

impl<'a, R: rt::Files> rt::Files for FirstOpened<'a, R> {
    type File = Opened<R::File>;

    type Dir = R::Dir;

    fn open_file(&self, how: &OpenOptions, path: &str) -> io::Result<Opened<R::File>> {
        Ok(Opened {
            file: self.runtime.open_file(how, path)?,
            is_second: false,
            can_double: self.can_double,
        })
    }

    fn open_dir(&self, _: &str) -> io::Result<R::Dir> {
        refused()
    }

    fn metadata(&self, _: &str) -> io::Result<Metadata> {
        refused()
    }

    fn symlink_metadata(&self, _: &str) -> io::Result<Metadata> {
        refused()
    }

    fn copy(&self, _: &str, _: &str) -> io::Result<u64> {
        refused()
    }

    fn rename(&self, _: &str, _: &str) -> io::Result<()> {
        refused()
    }

    fn remove_file(&self, path: &str) -> io::Result<()> {
        self.runtime.remove_file(path)
    }

    fn create_dir(&self, _: &str) -> io::Result<()> {
        refused()
    }

    fn remove_dir(&self, _: &str) -> io::Result<()> {
        refused()
    }

    fn remove_dir_all<B: Allocator>(&self, _: B, _: &str) -> io::Result<()> {
        refused()
    }
}

#[test]
fn a_real_file_is_written_and_read_by_a_second_descriptor(rt: HostRuntime) {
    let opened = FirstOpened {
        runtime: &rt,
        can_double: true,
    };
    let mut files = RealFiles::new(&opened);
    assert!(rt;
        is_put(&opened, APART, b"apart") && holds(&rt, APART, b"apart"),
        "written"
    );
    assert!(rt;
        are_found(rt.alloc(), &mut files, &[(APART, 10, Ok(b"apart"))]),
        "read"
    );
    assert!(rt; is_removed(&rt, APART));
}

#[test]
fn where_no_second_descriptor_is_to_be_had_all_files_stay(rt: HostRuntime) {
    let opened = FirstOpened {
        runtime: &rt,
        can_double: false,
    };
    let is_set = fs::write(&rt, STAYING, b"older").is_ok();
    assert!(rt;
        is_set && !is_put(&opened, STAYING, b"newer") && holds(&rt, STAYING, b"older"),
        "a file"
    );
    assert!(rt; is_removed(&rt, STAYING));
    assert!(rt;
        !is_put(&opened, STAYING, b"newer") && !is_begun(&rt, STAYING),
        "no file"
    );
}

/// A printer that is to print a text. A call takes so many bytes at most, and fails where they aren't the next ones,
/// or where so many were printed as there is room for.
#[derive(Drop)]
struct Paper<'a> {
    text: &'a [u8],
    printed: Cell<usize>,
    most: usize,
    room: usize,
}

impl<'a> Print for Paper<'a> {
    fn print<D: Display + Drop>(&self, _: D) -> io::Result<()> {
        refused()
    }

    fn println<D: Display + Drop>(&self, _: D) -> io::Result<()> {
        refused()
    }

    fn write_all(&self, _: &[u8]) -> io::Result<()> {
        refused()
    }

    fn write_some(&self, bytes: &[u8]) -> io::Result<usize> {
        let printed = self.printed.get();
        let piece = &bytes[..bytes.len().min(self.most)];
        let rest = &self.text[printed.min(self.text.len())..];
        if printed >= self.room || !rest.starts_with(piece) {
            return refused();
        }
        self.printed.set(printed.saturating_add(piece.len()));
        Ok(piece.len())
    }
}

/// Whether printing a text ends so, when this front of it is printed.
fn is_printed(text: &[u8], most: usize, room: usize, whole: bool, length: usize) -> bool {
    let paper = Paper {
        text,
        printed: Cell::new(0),
        most,
        room,
    };
    let is_said = say_all(&mut RealConsole::new(&paper), text).is_ok();
    is_said == whole && paper.printed.get() == length
}

#[test]
fn the_real_console_prints_all_or_a_front(rt: HostRuntime) -> Result<(), AllocError> {
    let text = counted(rt.alloc(), 0, 70_000)?;
    for (most, room, whole, length) in [
        (100_000, 100_000, true, 70_000),
        (999, 100_000, true, 70_000),
        (999, 1000, false, 1998),
        (999, 0, false, 0),
        (0, 100_000, false, 0),
    ] {
        assert!(rt;
            is_printed(&text, most, room, whole, length),
            "{most} bytes a call"
        );
    }
    Ok(())
}
