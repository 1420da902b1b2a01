//! What kept a host of the system's files from its last call that failed.
use std::alloc::{AllocError, AllocFailed, Global};
use std::str::Utf8Error;
use std::{fmt, io};
use thiserror::Error;

/// Why a file of the system could not be used.
#[derive(Debug, Drop, Error)]
pub enum TroubleReason {
    /// The system refused.
    #[error("{0}")]
    System(io::Error),
    /// The name is no UTF-8.
    #[error("its name is no UTF-8 text")]
    Name,
    /// The name is that of a folder.
    #[error("it is a folder")]
    Folder,
    /// The file exists and is no regular file.
    #[error("it exists and is no regular file")]
    NotRegular,
    /// The name leads to a file that a process has open, as `/dev/stdout` does.
    #[error("it leads to a file that a process has open")]
    InUse,
    /// The name leads through too many links, or no name beside it is free.
    #[error("it has too many links, or no free name beside it")]
    NoPlace,
    /// The file has more bytes than an input may have.
    #[error("it has more than 268,435,456 bytes")]
    Long,
    /// The file has more bytes than it had when it was opened.
    #[error("it grew while it was read")]
    Grown,
    /// The file would pass the limit that the system sets on the size of files.
    #[error("it would pass the limit on the size of files")]
    SizeLimit,
    /// Another file took the name of the unfinished output.
    #[error("another file took the place of what was written")]
    Taken,
    /// The name stands for another file than the one that was read.
    #[error("its name stands for another file now than the one that was read")]
    Replaced,
    /// The file was changed between its opening and its replacement.
    #[error("it was changed by somebody else while it was edited")]
    Changed,
    /// The edit would do what it must not.
    #[error("the edit would break a policy")]
    Broken,
    /// A file has the name under which the old file was to be kept.
    #[error("the name of its backup is taken")]
    Kept,
    /// The old file could not be kept under its other name.
    #[error("its backup cannot be made: {0}")]
    Backup(io::Error),
    /// No such file is open.
    #[error("it is not open")]
    NotOpen,
    /// A growth was refused.
    #[error("out of memory")]
    Memory,
}

impl From<AllocError> for TroubleReason {
    fn from(_refused: AllocError) -> TroubleReason {
        TroubleReason::Memory
    }
}

impl<T: Drop> From<AllocFailed<T>> for TroubleReason {
    fn from(_refused: AllocFailed<T>) -> TroubleReason {
        TroubleReason::Memory
    }
}

impl From<io::Error> for TroubleReason {
    fn from(error: io::Error) -> TroubleReason {
        TroubleReason::System(error)
    }
}

impl From<Utf8Error> for TroubleReason {
    fn from(_error: Utf8Error) -> TroubleReason {
        TroubleReason::Name
    }
}

/// What was to be done with a file.
#[derive(Clone, Copy)]
pub enum Purpose {
    OpenInput,
    ReadInput,
    OpenOutput,
    WriteOutput,
    CloseOutput,
    DropOutput,
}

impl fmt::Display for Purpose {
    fn fmt<W: fmt::Write>(&self, f: &mut fmt::Formatter<W>) -> fmt::Result {
        let words = match self {
            Purpose::OpenInput => "open input",
            Purpose::ReadInput => "read input",
            Purpose::OpenOutput => "open output",
            Purpose::WriteOutput => "write output",
            Purpose::CloseOutput => "close output",
            Purpose::DropOutput => "drop output",
        };
        write!(f, "{words}")
    }
}

/// What could not be done with which file, and why.
#[derive(Drop)]
pub struct Trouble {
    pub purpose: Purpose,
    /// The name of the file; empty where memory for it was refused.
    pub name: Vec<u8>,
    pub reason: TroubleReason,
}

impl Trouble {
    /// What could not be done with the file of a name.
    pub fn of(alloc: Global, purpose: Purpose, name: &[u8], reason: TroubleReason) -> Trouble {
        Trouble {
            purpose,
            name: name_to_tell(alloc, name),
            reason,
        }
    }
}

/// A name for messages: empty where memory is refused.
pub fn name_to_tell(alloc: Global, name: &[u8]) -> Vec<u8> {
    match name.to_vec(alloc) {
        Ok(name) => name,
        Err(AllocError) => Vec::new(alloc),
    }
}
