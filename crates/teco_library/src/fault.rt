//! Why no library is read.
ghost use Rattle.std.specs.Prelude.{◌≡◌};
ghost use Rattle.teco_library.specs.declared.fault.LibraryFault.TheVariants.{Memory};

use std::alloc::AllocError;
use thiserror::Error;

/// Why no library is read.
#[derive(Clone, Copy, Debug, Error)]
pub enum LibraryFault {
    /// An element that a library can't have; the first such element begins at this place.
    #[error("the element at {place} cannot stand in a library")]
    NotALibrary {
        /// The place of its first byte.
        place: usize,
    },
    /// A growth was refused.
    #[error("out of memory")]
    Memory,
}

impl From<AllocError> for LibraryFault {
    ghost from_gives = { λ _ e. e ≡ Memory };

    fn from(_refused: AllocError) -> LibraryFault {
        LibraryFault::Memory
    }
}
