//! What a host needs of the system beside its files and its clock.
ghost use Rattle.std.specs.Prelude.{◌≤◌, length, IfOk};

use std::fs::{File, Files};
use std::os::unix::fs::{FileExt, fchown};
use std::os::unix::io::AsRawFd;
use std::time::Clock;
use std::{io, process};

/// The last number of a standard stream.
const LAST_STANDARD: i32 = 2;

/// The files and the clock of a system, and what else a host needs of it.
pub trait System: Files + Clock + Drop {
    /// Gives an open file an owner and a group; what is none stays.
    fn give_owner(
        &self,
        file: &Self::File,
        owner: Option<u32>,
        group: Option<u32>,
    ) -> io::Result<()>;

    /// Reads bytes of an open file from a place on. Where it is read next stays as it was.
    fn read_at(&self, file: &Self::File, buf: &mut [u8], place: u64) -> io::Result<usize>
        ensures bound { IfOk result (λ n. n ≤ length buf.new) };

    /// Does an open file have the number of a standard stream?
    fn is_standard(&self, file: &Self::File) -> bool;

    /// The number of this process.
    fn process_number(&self) -> u32;
}

impl System for HostRuntime {
    fn give_owner(&self, file: &File, owner: Option<u32>, group: Option<u32>) -> io::Result<()> {
        fchown(file, owner, group)
    }

    fn read_at(&self, file: &File, buf: &mut [u8], place: u64) -> io::Result<usize> {
        FileExt::read_at(file, buf, place)
    }

    fn is_standard(&self, file: &File) -> bool {
        file.as_raw_fd() <= LAST_STANDARD
    }

    fn process_number(&self) -> u32 {
        process::id(self.process())
    }
}
