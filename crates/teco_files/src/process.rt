//! What the hosts of a process have in common.
ghost use Rattle.std.specs.Prelude.{◌≡◌, ◌↔◌, IsTrue, true, IfOk};
ghost use Rattle.teco_files.specs.Strays.{IsOutputName};

use crate::size_limit::size_limit;
use crate::system::System;
use std::alloc::{AllocError, Global};
use std::fs::{Files, Metadata};
use std::io::Read;
use std::os::unix::fs::MetadataExt;
use std::{fs, io, str};

// What tells one run of a system from others.
const BOOT: &str = "/proc/sys/kernel/random/boot_id";

// What tells which processes see each other's numbers.
const SPACE: &str = "/proc/self/ns/pid";

// Where the processes that run have their folders, and what is there for this one and the first.
const PROCESSES: &str = "/proc";

const OWN: &str = "/proc/self";

const FIRST: &str = "/proc/1";

// More than the name of a run of the system takes.
const ROOM: usize = 64;

// What the names of unfinished outputs begin with.
pub const FRONT: &str = ".somleut-";

/// What the hosts of a process have in common. It is read once for all of them.
#[derive(Clone, Copy)]
pub struct ProcessFacts {
    // the number of the process
    number: u32,
    // a number of the run of the system, and of the processes that see each other's numbers
    system: Option<u64>,
    // the user that it runs as
    user: Option<u32>,
    /// The most bytes that a file may have.
    pub size_limit: u64,
}

impl ProcessFacts {
    /// Reads what hosts of this process need to know.
    pub fn read<R: System>(rt: &R, alloc: Global) -> ProcessFacts {
        ProcessFacts {
            number: rt.process_number(),
            system: system_number(rt, alloc),
            user: user_of(rt),
            size_limit: size_limit(rt),
        }
    }

    /// The name in the folder of a path for an unfinished output: it tells the process, and has a
    /// number of its own.
    pub fn name_beside(self, alloc: Global, path: &str, n: u64) -> Result<String, AllocError> {
        let (folder, slash) = match path.rsplit_once('/') {
            Some((folder, _)) => (folder, "/"),
            None => ("", ""),
        };
        let number = self.number;
        let system = self.system.unwrap_or(0);
        format!(in alloc; "{folder}{slash}{FRONT}{number}-{system:x}-{n:x}")
    }

    /// Is a name that of an unfinished output, and its process gone? What another run of the system
    /// left, or a process whose number says nothing here, can't be told from what is in use.
    pub fn is_stray<R: Files>(self, rt: &R, alloc: Global, name: &str) -> Result<bool, AllocError>
        ensures { IfOk result (λ is. is ≡ true → IsOutputName name.now) }
    {
        if !is_output_name(name) {
            return Ok(false);
        }
        let Some((number, system)) = owner_in(name) else {
            return Ok(false);
        };
        if self.system != Some(system) || number == self.number {
            return Ok(false);
        }
        Ok(is_gone(rt, alloc, number)?)
    }

    /// Is a file this user's own? What another left is not ours to remove.
    pub fn owns(self, file: &Metadata) -> bool {
        file.is_file() && self.user == Some(file.uid())
    }
}

/// Does a name begin as those of unfinished outputs do?
pub fn is_output_name(name: &str) -> bool
    ensures { IsTrue result ↔ IsOutputName name.now }
{
    let front = FRONT.as_bytes();
    let name = name.as_bytes();
    name.len() >= front.len() && &name[..front.len()] == front
}

// The process and the system that the name of an unfinished output tells.
fn owner_in(name: &str) -> Option<(u32, u64)> {
    let (number, behind) = name.strip_prefix(FRONT)?.split_once('-')?;
    let (system, _) = behind.split_once('-')?;
    Some((number.parse().ok()?, u64::from_str_radix(system, 16).ok()?))
}

// Does no process of a number run? That is not known where those of others are hidden: then the first
// one is too.
fn is_gone<R: Files>(rt: &R, alloc: Global, number: u32) -> Result<bool, AllocError> {
    let folder = format!(in alloc; "{PROCESSES}/{number}")?;
    let are_shown = is_there(rt, OWN) && is_there(rt, FIRST);
    Ok(are_shown && matches!(fs::exists(rt, &folder), Ok(false)))
}

// Is something at a path, for sure?
fn is_there<R: Files>(rt: &R, path: &str) -> bool {
    matches!(fs::exists(rt, path), Ok(true))
}

// The user that this process runs as, if that is told.
fn user_of<R: Files>(rt: &R) -> Option<u32> {
    Some(fs::metadata(rt, OWN).ok()?.uid())
}

// A number that hardly any two texts have in common.
fn mixed(so_far: u64, bytes: &[u8]) -> u64 {
    let mut number = so_far;
    for byte in bytes {
        number = (number ^ u64::from(*byte)).wrapping_mul(0x0000_0100_0000_01b3);
    }
    number
}

// The number of the run of the system and of the processes that see each other, if both are told.
fn system_number<R: Files>(rt: &R, alloc: Global) -> Option<u64> {
    let mut boot = [0; ROOM];
    let length = read_start(rt, &mut boot).ok()?;
    let space = rt.read_link(alloc, SPACE).ok()?;
    let number = mixed(0xcbf2_9ce4_8422_2325, boot.get(..length)?);
    Some(mixed(number, space.as_str().as_bytes()))
}

// Reads the name of the run of the system, and answers how many bytes came.
fn read_start<R: Files>(rt: &R, room: &mut [u8]) -> io::Result<usize> {
    let mut file = fs::open(rt, BOOT)?;
    file.read(room)
}
