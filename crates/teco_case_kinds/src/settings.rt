//! What cases are run over: stores of a text, and hosts of files.
use std::fmt;
use teco_hosts::{HostCall, MemHost, TestHost};

/// A store of a text.
#[derive(Clone, Copy)]
pub enum Store {
    /// In one vector.
    Vector,
    /// In one block with a gap.
    Gap,
}

impl fmt::Display for Store {
    fn fmt<W: fmt::Write>(&self, f: &mut fmt::Formatter<W>) -> fmt::Result {
        match self {
            Store::Vector => write!(f, "a text in a vector"),
            Store::Gap => write!(f, "a text with a gap"),
        }
    }
}

/// Where files are.
#[derive(Clone, Copy)]
pub enum FilePlace {
    /// In memory.
    Memory,
    /// In memory, with so many bytes a call at most.
    Pieces(usize),
    /// In a folder of the system.
    Folder,
}

impl fmt::Display for FilePlace {
    fn fmt<W: fmt::Write>(&self, f: &mut fmt::Formatter<W>) -> fmt::Result {
        match self {
            FilePlace::Memory => write!(f, "files in memory"),
            FilePlace::Pieces(piece) => write!(f, "files in memory, {piece} bytes a call"),
            FilePlace::Folder => write!(f, "files of the system"),
        }
    }
}

/// What a case is run over.
#[derive(Clone, Copy)]
pub struct CaseSetting(pub Store, pub FilePlace);

impl fmt::Display for CaseSetting {
    fn fmt<W: fmt::Write>(&self, f: &mut fmt::Formatter<W>) -> fmt::Result {
        let CaseSetting(store, place) = self;
        write!(f, "{store}, {place}")
    }
}

/// Over files in memory: each store with each host.
pub const IN_MEMORY: &[CaseSetting] = &[
    CaseSetting(Store::Vector, FilePlace::Memory),
    CaseSetting(Store::Vector, FilePlace::Pieces(1)),
    CaseSetting(Store::Vector, FilePlace::Pieces(2)),
    CaseSetting(Store::Vector, FilePlace::Pieces(4096)),
    CaseSetting(Store::Gap, FilePlace::Memory),
    CaseSetting(Store::Gap, FilePlace::Pieces(1)),
    CaseSetting(Store::Gap, FilePlace::Pieces(2)),
    CaseSetting(Store::Gap, FilePlace::Pieces(4096)),
];

/// Over files of the system: each store.
pub const IN_FOLDER: &[CaseSetting] = &[
    CaseSetting(Store::Vector, FilePlace::Folder),
    CaseSetting(Store::Gap, FilePlace::Folder),
];

/// Over how much sessions are run.
#[derive(Clone, Copy)]
pub enum Extent {
    /// Over each store and each host.
    Whole,
    /// Over the store that the program has, with files in memory at once and with files of the system.
    Quick,
}

impl Extent {
    /// The settings with files in memory.
    pub fn in_memory(self) -> &'static [CaseSetting] {
        match self {
            Extent::Whole => IN_MEMORY,
            Extent::Quick => &[CaseSetting(Store::Gap, FilePlace::Memory)],
        }
    }

    /// The settings with files of the system.
    pub fn in_folder(self) -> &'static [CaseSetting] {
        match self {
            Extent::Whole => IN_FOLDER,
            Extent::Quick => &[CaseSetting(Store::Gap, FilePlace::Folder)],
        }
    }
}

/// A host over files in memory that moves so many bytes in a call, at least one.
pub fn by_pieces(files: MemHost, piece: usize) -> TestHost {
    TestHost::new(files, piece.max(1), HostCall::Read, 0)
}
