// The real files and the standard output. They tell no content, and count their failures.
ghost use Rattle.std.specs.Prelude.{◌≡◌, ℕ, ◌≤◌, ◌<◌, false, true, List, [], length, is_some, IsTrue, IfOk, IfSome, OnErr, None};
ghost use Rattle.std.specs.Io.KnownBytes.{ReadConsumes, WriteAppends};
ghost use Rattle.tl_device.specs.Causes.{HasCause, saturating_add};

use crate::{Console, Failed, Files};
use std::fs::{OpenFile, OpenOptions};
use std::io::{Printer, Read, Write};
use std::{fs, io, rt};

/// The files of a runtime. They tell no content.
///
/// Every failure is counted, that of a name with no file too, up to the last value of a `u64`.
#[derive(Drop)]
pub struct RealFiles<'a, R: rt::Files> {
    runtime: &'a R,
    reading: Option<R::File>,
    taken: u64,
    writing: Option<R::File>,
    read_faults: u64,
    write_faults: u64,
}

impl<'a, R: rt::Files> RealFiles<'a, R> {
    /// The files as they stand, of which none is begun or created yet.
    pub fn new(runtime: &'a R) -> Self
        ensures begun { ⟦<RealFiles<'a, R> as Files>⟧.is_begun result ≡ false }
        ensures created { ⟦<RealFiles<'a, R> as Files>⟧.is_created result ≡ false }
        ensures read_faults { ⟦<RealFiles<'a, R> as Files>⟧.read_faults result ≡ 0 }
        ensures write_faults { ⟦<RealFiles<'a, R> as Files>⟧.write_faults result ≡ 0 }
    {
        RealFiles {
            runtime,
            reading: None,
            taken: 0,
            writing: None,
            read_faults: 0,
            write_faults: 0,
        }
    }
}

impl<'a, R: rt::Files> Files for RealFiles<'a, R> {
    ghost files = { λ _. None };

    ghost asked = { λ _. None };

    ghost reading = { λ _. [] };

    ghost rest = { λ _. [] };

    ghost taken = { λ s. s.taken };

    ghost writing = { λ _. [] };

    ghost is_begun = { λ s. is_some s.reading };

    ghost is_created = { λ s. is_some s.writing };

    ghost read_faults = { λ s. s.read_faults };

    ghost write_faults = { λ s. s.write_faults };

    fn open_file(&mut self, name: &str) -> Result<(), Failed> {
        self.taken = 0;
        self.reading = apart(fs::open(self.runtime, name));
        if self.reading.is_none() {
            self.read_faults = self.read_faults.saturating_add(1);
            return Err(Failed);
        }
        Ok(())
    }

    fn read(&mut self, into: &mut [u8]) -> Result<usize, Failed>
        requires { IsTrue (is_some self.old.reading) }

        // What is known of the bytes that are left of the file loses those given, and none at a failure.
        ensures bytes { IfSome self.old.reading (λ old. IfSome self.new.reading (λ new.
            ReadConsumes (⟦<R::File as Read>⟧.remaining old) (⟦<R::File as Read>⟧.remaining new) result into.new)) }

        // As of all files.
        ensures bound { IfOk result (λ n. n ≤ length into.new) }
        ensures taken { IfOk result (λ n. self.new.taken ≡ saturating_add self.old.taken n) }
        ensures none_taken { OnErr result (self.new.taken ≡ self.old.taken) }
        ensures cause { HasCause self.old.read_faults self.new.read_faults result }
        ensures begun { is_some self.new.reading ≡ true }
        ensures created { is_some self.new.writing ≡ is_some self.old.writing }
        ensures write_faults { self.new.write_faults ≡ self.old.write_faults }
    {
        let Some(file) = &mut self.reading else {
            unreachable!()
        };
        match file.read(into) {
            Ok(given) => {
                self.taken = self.taken.saturating_add(given as u64);
                Ok(given)
            }
            Err(_) => {
                self.read_faults = self.read_faults.saturating_add(1);
                Err(Failed)
            }
        }
    }

    fn create_file(&mut self, name: &str) -> Result<(), Failed> {
        self.writing = created(self.runtime, name);
        if self.writing.is_none() {
            self.write_faults = self.write_faults.saturating_add(1);
            return Err(Failed);
        }
        Ok(())
    }

    fn write(&mut self, piece: &[u8]) -> Result<usize, Failed>
        requires { IsTrue (is_some self.old.writing) }

        // What is known of the bytes of the file grows by those taken, and by none at a failure.
        ensures bytes { IfSome self.old.writing (λ old. IfSome self.new.writing (λ new.
            WriteAppends (⟦<R::File as Write>⟧.contents old) (⟦<R::File as Write>⟧.contents new) result piece.now)) }

        // As of all files.
        ensures bound { IfOk result (λ n. n ≤ length piece.now) }
        ensures progress { IfOk result (λ n. 0 < length piece.now → 0 < n) }
        ensures cause { HasCause self.old.write_faults self.new.write_faults result }
        ensures created { is_some self.new.writing ≡ true }
        ensures begun { is_some self.new.reading ≡ is_some self.old.reading }
        ensures taken { self.new.taken ≡ self.old.taken }
        ensures read_faults { self.new.read_faults ≡ self.old.read_faults }
    {
        let Some(file) = &mut self.writing else {
            unreachable!()
        };
        write_counted(file, piece, &mut self.write_faults)
    }
}

// An opened file by a second descriptor, which the system numbers above those of the three standard streams. A file that is
// opened where such a stream is closed gets the stream's number, and what is printed would go into the file.
fn apart<F: OpenFile + Drop>(opened: io::Result<F>) -> Option<F> {
    opened.ok()?.try_clone().ok()
}

// The file of a name, made where there is none, without its bytes. The second descriptor is had before the file is emptied.
fn created<R: rt::Files>(runtime: &R, name: &str) -> Option<R::File> {
    let file = opened_to_write(runtime, name)?;
    if file.metadata().ok()?.is_file() {
        file.set_len(0).ok()?;
    }
    Some(file)
}

// The file of a name, made where there is none, and else as it is. Where no second descriptor is to be had, all files are as
// before: what was made is removed.
fn opened_to_write<R: rt::Files>(runtime: &R, name: &str) -> Option<R::File> {
    let Ok(made) = OpenOptions::new()
        .write(true)
        .create_new(true)
        .open(runtime, name)
    else {
        return apart(
            OpenOptions::new()
                .write(true)
                .create(true)
                .open(runtime, name),
        );
    };
    let second = apart(Ok(made));
    if second.is_none() {
        let _ = fs::remove_file(runtime, name);
    }
    second
}

// Writes a front of the piece. It is a fault to fail, and to take nothing where there is something.
fn write_counted<W: Write>(output: &mut W, piece: &[u8], faults: &mut u64) -> Result<usize, Failed>
    ensures bytes { WriteAppends (W.contents output.old) (W.contents output.new) result piece.now }
    ensures bound { IfOk result (λ n. n ≤ length piece.now) }
    ensures progress { IfOk result (λ n. 0 < length piece.now → 0 < n) }
    ensures cause { HasCause faults.old faults.new result }
{
    match output.write(piece) {
        Ok(taken) if taken > 0 || piece.is_empty() => Ok(taken),
        _ => {
            *faults = faults.saturating_add(1);
            Err(Failed)
        }
    }
}

/// The standard output of a runtime. It doesn't tell what was printed.
///
/// Every failure is counted, up to the last value of a `u64`.
#[derive(Drop)]
pub struct RealConsole<'a, R: Print> {
    output: Printer<'a, R>,
    faults: u64,
}

impl<'a, R: Print> RealConsole<'a, R> {
    /// The standard output as it stands.
    pub fn new(runtime: &'a R) -> Self
        ensures faults { ⟦<RealConsole<'a, R> as Console>⟧.faults result ≡ 0 }
    {
        RealConsole {
            output: io::writer(runtime),
            faults: 0,
        }
    }
}

impl<'a, R: Print> Console for RealConsole<'a, R> {
    ghost printed = { λ _. None };

    ghost faults = { λ s. s.faults };

    fn write(&mut self, piece: &[u8]) -> Result<usize, Failed> {
        write_counted(&mut self.output, piece, &mut self.faults)
    }
}
