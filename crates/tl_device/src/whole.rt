// Whole files and whole texts.
ghost use Rattle.std.specs.Prelude.{◌≡◌, ◌≢◌, ◌⊎◌, ◌↔◌, ℕ, ◌+◌, ◌++◌, ◌^◌, ◌≤◌, ◌<◌, Bool, true, List, length, IsTrue, IsOk, IfOk, OnOk, OnErr, IsErrOf};
ghost use Rattle.std.specs.Io.KnownBytes.{append_known};
ghost use Rattle.tl_device.specs.Causes.{HasCause, HasReadCause, IsAbsent, Rose};
ghost use Rattle.tl_device.specs.Contents.{grown, GrownInPart, PrintedInPart, Holds, HoldsAtMost, HoldsCreated, HoldsMoreThan, IsAskedFor, IsRest, IsTold, OthersStay};
ghost use Rattle.tl_device.specs.declared.whole.ReadEnd.TheVariants.{NoMemory, Failed as ReadFailed};

use crate::{Console, Failed, Files};
use std::alloc::{AllocError, Global};

/// Prints all the bytes. Where it fails, a front of them was printed.
pub fn say_all<C: Console>(console: &mut C, bytes: &[u8]) -> Result<(), Failed>
    ensures ok { OnOk result
        (C.printed console.new ≡ append_known (C.printed console.old) bytes.now) }
    ensures err { OnErr result
        (PrintedInPart (C.printed console.old) (C.printed console.new) bytes.now) }
    ensures cause { HasCause (C.faults console.old) (C.faults console.new) result }
{
    let mut done = 0;
    while done < bytes.len() {
        done += console.write(&bytes[done..])?;
    }
    Ok(())
}

/// Appends all the bytes to the name being written. Where it fails, a front of them was appended.
pub fn put_all<F: Files>(files: &mut F, bytes: &[u8]) -> Result<(), Failed>
    requires { IsTrue (F.is_created files.old) }
    ensures ok { OnOk result
        (F.files files.new ≡ grown (F.files files.old) (F.writing files.old) bytes.now) }
    ensures err { OnErr result
        (GrownInPart (F.files files.old) (F.files files.new) (F.writing files.old) bytes.now) }
    ensures others { OthersStay (F.files files.old) (F.files files.new) (F.writing files.old) }

    // When it fails, by the count of writing.
    ensures cause { HasCause (F.write_faults files.old) (F.write_faults files.new) result }

    // The name holds what it held and these bytes; where there are any, it is no name without a file.
    ensures holds { OnOk result ((held : List ℕ) → Holds (F.files files.old) (F.writing files.old) held
        → Holds (F.files files.new) (F.writing files.old) (held ++ bytes.now)) }
    ensures held { 0 < length bytes.now → HoldsCreated (F.files files.old) true (F.writing files.old) }

    // What it leaves as it was.
    ensures asked { F.asked files.new ≡ F.asked files.old }
    ensures created { F.is_created files.new ≡ true }
    ensures writing { F.writing files.new ≡ F.writing files.old }
    ensures begun { F.is_begun files.new ≡ F.is_begun files.old }
    ensures reading { F.reading files.new ≡ F.reading files.old }
    ensures rest { F.reading files.old ≢ F.writing files.old → F.rest files.new ≡ F.rest files.old }
    ensures taken { F.taken files.new ≡ F.taken files.old }
    ensures read_faults { F.read_faults files.new ≡ F.read_faults files.old }
{
    let mut done = 0;
    while done < bytes.len() {
        done += files.write(&bytes[done..])?;
    }
    Ok(())
}

/// How a read of a whole file ends without its bytes.
#[derive(Clone, Copy)]
pub enum ReadEnd {
    /// A call on the files failed.
    Failed,
    /// The file has more bytes than the limit.
    TooLong,
    /// There was no memory for the bytes.
    NoMemory,
}

impl From<Failed> for ReadEnd {
    ghost from_gives = { λ _ end. end ≡ ReadFailed };

    fn from(_: Failed) -> Self {
        ReadEnd::Failed
    }
}

impl From<AllocError> for ReadEnd {
    ghost from_gives = { λ _ end. end ≡ NoMemory };

    fn from(_: AllocError) -> Self {
        ReadEnd::NoMemory
    }
}

// The most bytes that one read asks for.
const PIECE: usize = 65_536;

/// Reads a whole file, which may have up to `limit` bytes.
///
/// It is too long where one byte more could be taken, and no more are taken.
pub fn read_all<F: Files>(
    alloc: Global,
    files: &mut F,
    name: &str,
    limit: u64,
) -> Result<Vec<u8>, ReadEnd>
    requires { limit < 2 ^ 32 }
    ensures asked { IsAskedFor (F.asked files.new) name.now }
    ensures whole { IfOk result (λ bytes. Holds (F.files files.old) name.now bytes.items) }
    ensures within { IfOk result (λ bytes. length bytes.items ≤ limit) }
    ensures taken { IfOk result (λ bytes. F.taken files.new ≡ length bytes.items) }

    // It is too long exactly where one byte more was taken than it may have, and no more are taken.
    ensures too_long { IsErrOf result ReadEnd.TooLong ↔ (F.taken files.new ≡ limit + 1) }
    ensures longer { IsErrOf result ReadEnd.TooLong → HoldsMoreThan (F.files files.old) name.now limit }
    ensures no_more { F.taken files.new ≤ limit + 1 }

    // When it fails, by the count of reading.
    ensures absent { IsAbsent (F.files files.old) name.now → IsErrOf result ReadEnd.Failed }
    ensures cause { HasReadCause (IsAbsent (F.files files.old) name.now)
        (F.read_faults files.old) (F.read_faults files.new) result }

    // Where the files are told and reading didn't fail, the length decides, but for want of memory.
    ensures short_file { HoldsAtMost (F.files files.old) name.now limit → IsTold (F.files files.old)
        → ¬ Rose (F.read_faults files.old) (F.read_faults files.new)
        → IsOk result ⊎ IsErrOf result ReadEnd.NoMemory }
    ensures long_file { HoldsMoreThan (F.files files.old) name.now limit → IsTold (F.files files.old)
        → ¬ Rose (F.read_faults files.old) (F.read_faults files.new)
        → IsErrOf result ReadEnd.TooLong ⊎ IsErrOf result ReadEnd.NoMemory }

    // Where reading didn't fail, the file stays begun behind the bytes that were taken.
    ensures begun { ¬ IsErrOf result ReadEnd.Failed → IsTrue (F.is_begun files.new) }
    ensures rest { ¬ IsErrOf result ReadEnd.Failed
        → IsRest (F.files files.old) name.now (F.taken files.new) (F.rest files.new) }

    // What it leaves as it was.
    ensures files { F.files files.new ≡ F.files files.old }
    ensures created { F.is_created files.new ≡ F.is_created files.old }
    ensures writing { F.writing files.new ≡ F.writing files.old }
    ensures write_faults { F.write_faults files.new ≡ F.write_faults files.old }
{
    files.open_file(name)?;
    let mut all = Vec::new(alloc);
    let mut buffer = [0; PIECE];
    loop {
        let wanted = PIECE.min(limit as usize - all.len() + 1);
        let taken = files.read(&mut buffer[..wanted])?;
        if taken == 0 {
            return Ok(all);
        }
        if all.len() + taken > limit as usize {
            return Err(ReadEnd::TooLong);
        }
        all.extend_from_slice(&buffer[..taken])?;
    }
}
