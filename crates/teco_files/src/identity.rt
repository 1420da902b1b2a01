//! Which file a name stands for.
use std::fs::Metadata;
use std::os::unix::fs::MetadataExt;

/// Which file a name stands for, and what tells that it changed: its length, and the times when its
/// bytes and when its other properties last changed, in seconds and nanoseconds since 1970.
#[derive(Clone, Copy, PartialEq, Eq)]
pub struct Identity {
    device: u64,
    number: u64,
    length: u64,
    modified: [i64; 2],
    changed: [i64; 2],
}

impl Identity {
    /// The file of some metadata.
    pub fn of(metadata: &Metadata) -> Identity {
        Identity {
            device: metadata.dev(),
            number: metadata.ino(),
            length: metadata.len(),
            modified: [metadata.mtime(), metadata.mtime_nsec()],
            changed: [metadata.ctime(), metadata.ctime_nsec()],
        }
    }

    /// How many bytes it had.
    pub fn length(self) -> u64 {
        self.length
    }

    /// Is it the same file, changed or not?
    pub fn is_same_file(self, other: Identity) -> bool {
        self.device == other.device && self.number == other.number
    }
}
