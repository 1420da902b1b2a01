//! What keeps the program from an answer.
use std::alloc::{AllocError, AllocFailed};
use std::io;
use thiserror::Error;

/// Why there is no answer, beside refusals.
#[derive(Debug, Drop, Error)]
pub enum AnswerFault {
    /// A file can't be read.
    #[error("cannot read {name}: {reason}")]
    Read {
        /// Its name, as a terminal can show it.
        name: String,
        /// What the system says.
        reason: io::Error,
    },
    /// A file has more than `LIMIT` bytes.
    #[error("cannot read {name}: it has more than 268,435,456 bytes")]
    Long {
        /// Its name, as a terminal can show it.
        name: String,
    },
    /// A macro that stands alone has every byte.
    #[error("a macro without @^UA has every byte, so that none can end its text")]
    NoDelimiter,
    /// Texts of the command line are the macro A, and the file beside them has one.
    #[error("-e gives the text of A, and {name} has one")]
    Twice {
        /// The file's name, as a terminal can show it.
        name: String,
    },
    /// A text was given for a register of the library.
    #[error("--set {register}: the library has a text for this register")]
    Taken {
        /// The register's name.
        register: char,
    },
    /// The answer can't be written.
    #[error("cannot write the answer: {0}")]
    Write(io::Error),
    /// A growth was refused.
    #[error("out of memory")]
    Memory,
}

/// What came of writing an answer.
pub fn written(wrote: io::Result<()>) -> Result<(), AnswerFault> {
    Ok(wrote?)
}

impl From<AllocError> for AnswerFault {
    fn from(_refused: AllocError) -> AnswerFault {
        AnswerFault::Memory
    }
}

impl<T: Drop> From<AllocFailed<T>> for AnswerFault {
    fn from(_refused: AllocFailed<T>) -> AnswerFault {
        AnswerFault::Memory
    }
}

impl From<io::Error> for AnswerFault {
    fn from(error: io::Error) -> AnswerFault {
        AnswerFault::Write(error)
    }
}
