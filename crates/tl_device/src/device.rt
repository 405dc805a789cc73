// Files and a console, by what they hold, where they tell it, and by how often they have failed.
ghost use Rattle.std.specs.Prelude.{◌≡◌, ◌≢◌, ℕ, ◌≤◌, ◌<◌, Bool, true, List, [], ◌++◌, length, take, is_ok, IsTrue, IsErr, IfOk, OnOk, OnErr};
ghost use Rattle.std.specs.declared.option.Option.{Option};
ghost use Rattle.std.specs.Io.KnownBytes.{append_known};
ghost use Rattle.tl_device.specs.Contents.{Contents, Holds, HoldsCreated, IsAskedFor, IsTold, emptied, grown};
ghost use Rattle.tl_device.specs.Causes.{HasCause, HasCauseOr, IsAbsent, saturating_add};

/// A call on the files or the console failed. Its count of faults has risen.
#[derive(Clone, Copy)]
pub struct Failed;

/// Files, of which one is read and one is written at a time.
///
/// A store may tell what its files hold, as one in memory does, or not, as the real files.
/// Its two counts of faults, of reading and of writing, never fall, and stay where they can't rise.
pub trait Files {
    /// What each name holds, where it is told.
    ghost files: { Self → Option Contents };

    /// The name that was asked for last to be read, whether it could be begun or not, where it is told.
    ///
    /// What works on every store is held to it, whether the store at hand tells it or not.
    ghost asked: { Self → Option (List ℕ) };

    /// The name being read. It means nothing where the files aren't told or no file is begun.
    ghost reading: { Self → List ℕ };

    /// What is left of the file being read. It means nothing where `reading` doesn't.
    ghost rest: { Self → List ℕ };

    /// How many bytes were given since a file was last begun, up to the last value of a `u64`.
    ghost taken: { Self → ℕ };

    /// The name being written. It means nothing where the files aren't told or none is created.
    ghost writing: { Self → List ℕ };

    /// Whether a file is begun, and so can be read.
    ghost is_begun: { Self → Bool };

    /// Whether a file is created, and so can be written.
    ghost is_created: { Self → Bool };

    /// How often reading has failed.
    ghost read_faults: { Self → ℕ };

    /// How often writing has failed.
    ghost write_faults: { Self → ℕ };

    /// Begins reading a file at its first byte. Where it fails, no file is begun.
    ///
    /// It fails at a name that no file has. A store that tells its files needn't count that.
    fn open_file(&mut self, name: &str) -> Result<(), Failed>
        ensures asked { IsAskedFor (asked self.new) name.now }
        ensures begun { is_begun self.new ≡ is_ok result }
        ensures name { OnOk result (IsTold (files self.old) → reading self.new ≡ name.now) }
        ensures whole { OnOk result (Holds (files self.old) name.now (rest self.new)) }
        ensures taken { taken self.new ≡ 0 }

        // When it fails, by the count of reading.
        ensures absent { IsAbsent (files self.old) name.now → IsErr result }
        ensures cause { HasCauseOr (IsAbsent (files self.old) name.now)
            (read_faults self.old) (read_faults self.new) result }

        // What it leaves as it was.
        ensures files { files self.new ≡ files self.old }
        ensures created { is_created self.new ≡ is_created self.old }
        ensures writing { writing self.new ≡ writing self.old }
        ensures write_faults { write_faults self.new ≡ write_faults self.old };

    /// Gives a front of the rest, which loses it, and answers how many bytes it gave.
    ///
    /// To give no byte into a buffer that isn't empty is the end of the file.
    fn read(&mut self, into: &mut [u8]) -> Result<usize, Failed>
        requires { IsTrue (is_begun self.old) }
        ensures bound { IfOk result (λ n. n ≤ length into.new) }
        ensures front { IfOk result (λ n. IsTold (files self.old)
            → rest self.old ≡ take n into.new ++ rest self.new) }
        ensures end { IfOk result (λ n. n ≡ 0 → 0 < length into.new → IsTold (files self.old)
            → rest self.old ≡ []) }
        ensures nothing { OnErr result (rest self.new ≡ rest self.old) }
        ensures taken { IfOk result (λ n. taken self.new ≡ saturating_add (taken self.old) n) }
        ensures none_taken { OnErr result (taken self.new ≡ taken self.old) }

        // When it fails, by the count of reading.
        ensures cause { HasCause (read_faults self.old) (read_faults self.new) result }

        // What it leaves as it was.
        ensures files { files self.new ≡ files self.old }
        ensures asked { asked self.new ≡ asked self.old }
        ensures begun { is_begun self.new ≡ true }
        ensures reading { reading self.new ≡ reading self.old }
        ensures created { is_created self.new ≡ is_created self.old }
        ensures writing { writing self.new ≡ writing self.old }
        ensures write_faults { write_faults self.new ≡ write_faults self.old };

    /// Makes the name hold no bytes and begins writing it. Where it fails, none is created.
    fn create_file(&mut self, name: &str) -> Result<(), Failed>
        ensures ok { OnOk result (files self.new ≡ emptied (files self.old) name.now) }
        ensures err { OnErr result (files self.new ≡ files self.old) }
        ensures created { is_created self.new ≡ is_ok result }
        ensures name { OnOk result (IsTold (files self.old) → writing self.new ≡ name.now) }
        ensures held { HoldsCreated (files self.new) (is_created self.new) (writing self.new) }

        // When it fails, by the count of writing.
        ensures cause { HasCause (write_faults self.old) (write_faults self.new) result }

        // What it leaves as it was. Of the name being read, nothing more is said if it is emptied.
        ensures asked { asked self.new ≡ asked self.old }
        ensures begun { is_begun self.new ≡ is_begun self.old }
        ensures reading { reading self.new ≡ reading self.old }
        ensures rest { reading self.old ≢ name.now → rest self.new ≡ rest self.old }
        ensures taken { taken self.new ≡ taken self.old }
        ensures read_faults { read_faults self.new ≡ read_faults self.old };

    /// Appends a front of the piece to the name being written, and answers its length.
    ///
    /// To take nothing of a piece that isn't empty is a failure.
    fn write(&mut self, piece: &[u8]) -> Result<usize, Failed>
        requires { IsTrue (is_created self.old) }
        ensures bound { IfOk result (λ n. n ≤ length piece.now) }
        ensures progress { IfOk result (λ n. 0 < length piece.now → 0 < n) }
        ensures ok { IfOk result (λ n.
            files self.new ≡ grown (files self.old) (writing self.old) (take n piece.now)) }
        ensures err { OnErr result (files self.new ≡ files self.old) }
        ensures held { HoldsCreated (files self.new) (is_created self.new) (writing self.new) }

        // When it fails, by the count of writing.
        ensures cause { HasCause (write_faults self.old) (write_faults self.new) result }

        // What it leaves as it was. Of the name being read, nothing more is said if it grows.
        ensures asked { asked self.new ≡ asked self.old }
        ensures created { is_created self.new ≡ true }
        ensures writing { writing self.new ≡ writing self.old }
        ensures begun { is_begun self.new ≡ is_begun self.old }
        ensures reading { reading self.new ≡ reading self.old }
        ensures rest { reading self.old ≢ writing self.old → rest self.new ≡ rest self.old }
        ensures taken { taken self.new ≡ taken self.old }
        ensures read_faults { read_faults self.new ≡ read_faults self.old };
}

/// A console, to which bytes are printed. Its count of faults never falls.
pub trait Console {
    /// The bytes printed so far, where they are told.
    ghost printed: { Self → Option (List ℕ) };

    /// How often printing has failed.
    ghost faults: { Self → ℕ };

    /// Prints a front of the piece, and answers its length.
    ///
    /// To take nothing of a piece that isn't empty is a failure.
    fn write(&mut self, piece: &[u8]) -> Result<usize, Failed>
        ensures bound { IfOk result (λ n. n ≤ length piece.now) }
        ensures progress { IfOk result (λ n. 0 < length piece.now → 0 < n) }
        ensures ok { IfOk result (λ n.
            printed self.new ≡ append_known (printed self.old) (take n piece.now)) }
        ensures err { OnErr result (printed self.new ≡ printed self.old) }

        // When it fails, by the count of faults.
        ensures cause { HasCause (faults self.old) (faults self.new) result };
}
