//! What every host of files promises.
ghost use Rattle.std.specs.Prelude.{◌≡◌, ◌≤◌, ◌<◌, ◌+◌, ◌∷◌, [], ℕ, length, IfOk, OnOk, OnErr};
ghost use Rattle.teco_base.specs.declared.TheConstants.{LIMIT};
ghost use Rattle.teco_hosts.specs.HostFiles.{Telling, Becomes, after_dropping};
ghost use Rattle.teco_hosts.specs.HostCalls.{Counts, OpensIn, ReadsSome, OpensOut, WritesSome, Closes, Measures};
ghost use Rattle.teco_hosts.specs.Events.{dropped};
ghost use Rattle.teco_hosts.specs.Noting.{NotesJust, noted_open_in, noted_read, noted_open_out, noted_write};
ghost use Rattle.teco_hosts.specs.Noting.{noted_close_out, noted_left};

use crate::fault::Failed;

/// Files outside: those that have names, one input and one output at a time. A name is any bytes.
///
/// An output takes its name when it is closed, whole and in one move; until then a file of that
/// name is as it was. A call that fails changes no file, but after a failed `close_out` or
/// `drop_out` the output is dropped. A host that can tell its files does so to contracts; another,
/// as one of real files, notes what each call did.
pub trait Host {
    // its files, or what its calls did
    ghost files: { Self → Telling };

    // how many of its calls have failed
    ghost failures: { Self → ℕ };

    // how many bytes it has given of the input that was opened last
    ghost given: { Self → ℕ };

    /// Opens the file of a name as the input, in the place of the one before.
    ///
    /// # Errors
    ///
    /// `Failed` where there is no such file, or it cannot be opened.
    fn open_in(&mut self, name: &[u8]) -> Result<(), Failed>
        ensures files { OpensIn name.now result (files self.old) (files self.new) }
        ensures noted { NotesJust (noted_open_in name.now result) (files self.old) (files self.new) }
        ensures counted { Counts result (failures self.old) (failures self.new) }
        ensures given { OnOk result (given self.new ≡ 0) }
        ensures err { OnErr result (given self.new ≡ given self.old) };

    /// Reads the next bytes of the input, one at least unless it is at its end; of one input at
    /// most `LIMIT`.
    ///
    /// # Errors
    ///
    /// `Failed` where the input cannot be read, or has more than `LIMIT` bytes.
    fn read(&mut self, buf: &mut [u8]) -> Result<usize, Failed>
        ensures files { ReadsSome buf.new result (files self.old) (files self.new) }
        ensures noted { NotesJust (noted_read buf.new result) (files self.old) (files self.new) }
        ensures counted { Counts result (failures self.old) (failures self.new) }
        ensures bound { IfOk result (λ n. n ≤ length buf.new) }
        ensures given { IfOk result (λ n. given self.new ≡ given self.old + n) }
        ensures limit { OnOk result (given self.new ≤ LIMIT) }
        ensures err { OnErr result (given self.new ≡ given self.old) };

    /// Opens an output that will have this name.
    ///
    /// # Errors
    ///
    /// `Failed` where an output of this name cannot be made.
    fn open_out(&mut self, name: &[u8]) -> Result<(), Failed>
        ensures files { OpensOut name.now result (files self.old) (files self.new) }
        ensures noted { NotesJust (noted_open_out name.now result) (files self.old) (files self.new) }
        ensures counted { Counts result (failures self.old) (failures self.new) }
        ensures given { given self.new ≡ given self.old };

    /// Writes the first of some bytes to the output, one of them at least.
    ///
    /// # Errors
    ///
    /// `Failed` where nothing can be written.
    fn write(&mut self, bytes: &[u8]) -> Result<usize, Failed>
        ensures files { WritesSome bytes.now result (files self.old) (files self.new) }
        ensures noted { NotesJust (noted_write bytes.now result) (files self.old) (files self.new) }
        ensures counted { Counts result (failures self.old) (failures self.new) }
        ensures bound { IfOk result (λ n. n ≤ length bytes.now) }
        ensures some { IfOk result (λ n. 0 < length bytes.now → 0 < n) }
        ensures given { given self.new ≡ given self.old };

    /// Gives the output its name, in the place of a file that has it. A failure drops the output.
    ///
    /// # Errors
    ///
    /// `Failed` where the output cannot take its name.
    fn close_out(&mut self) -> Result<(), Failed>
        ensures files { Closes result (files self.old) (files self.new) }
        ensures noted { NotesJust (noted_close_out result) (files self.old) (files self.new) }
        ensures counted { Counts result (failures self.old) (failures self.new) }
        ensures given { given self.new ≡ given self.old };

    /// Drops the output, which leaves no trace. A failure drops it too.
    ///
    /// # Errors
    ///
    /// `Failed` where the output cannot be removed.
    fn drop_out(&mut self) -> Result<(), Failed>
        ensures files { Becomes after_dropping (files self.old) (files self.new) }
        ensures noted { NotesJust (dropped ∷ []) (files self.old) (files self.new) }
        ensures counted { Counts result (failures self.old) (failures self.new) }
        ensures given { given self.new ≡ given self.old };

    /// How many bytes of the input were not given yet, at most, if that can be told.
    fn left_of_input(&mut self) -> Option<u64>
        ensures files { Measures result (files self.old) (files self.new) }
        ensures noted { NotesJust (noted_left result) (files self.old) (files self.new) }
        ensures counted { failures self.new ≡ failures self.old }
        ensures given { given self.new ≡ given self.old };
}
