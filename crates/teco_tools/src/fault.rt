//! What keeps the program from what it is asked for.
use std::alloc::{AllocError, AllocFailed};
use std::io;
use teco_console::AnswerFault;
use teco_session::SessionFault;
use thiserror::Error;

/// Why a word of the program is not obeyed, beside refusals and codes.
#[derive(Debug, Drop, Error)]
pub enum ToolFault {
    /// There is no answer.
    #[error("{0}")]
    Answer(AnswerFault),
    /// A session could not go on.
    #[error("{0}")]
    Session(SessionFault),
    /// Files were to be kept with a suffix that none can have.
    #[error("--backup takes what the names of kept files end with: one byte at least, and no slash")]
    Suffix,
    /// A file was to be kept under the name of another that is edited.
    #[error("--backup would keep a file as {path}, which is to be edited too; nothing is changed")]
    Kept {
        /// The path, as messages have it.
        path: String,
    },
    /// A run was to be within its promise, and the length of the input can't be told.
    #[error("--strict wants an input whose length is known, and this one is no regular file")]
    Unsized,
}

impl From<AnswerFault> for ToolFault {
    fn from(fault: AnswerFault) -> ToolFault {
        ToolFault::Answer(fault)
    }
}

impl From<AllocError> for ToolFault {
    fn from(_refused: AllocError) -> ToolFault {
        ToolFault::Answer(AnswerFault::Memory)
    }
}

impl<T: Drop> From<AllocFailed<T>> for ToolFault {
    fn from(_refused: AllocFailed<T>) -> ToolFault {
        ToolFault::Answer(AnswerFault::Memory)
    }
}

impl From<io::Error> for ToolFault {
    fn from(error: io::Error) -> ToolFault {
        ToolFault::Answer(AnswerFault::Write(error))
    }
}

impl From<SessionFault> for ToolFault {
    fn from(fault: SessionFault) -> ToolFault {
        ToolFault::Session(fault)
    }
}
