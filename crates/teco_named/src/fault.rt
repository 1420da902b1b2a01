//! Why a macro that is called by name is not run.
use std::alloc::{AllocError, AllocFailed};
use std::io;
use teco_console::AnswerFault;
use thiserror::Error;

/// Why there is no macro of a name, or no text for one of its parameters.
#[derive(Debug, Drop, Error)]
pub enum NamedFault {
    /// No file has the macro. The places are those that were tried, and the names those near to it.
    #[error("no macro and no file is called {name}: there is no {places}; teco list prints all names{near}")]
    Unfound {
        name: String,
        places: String,
        near: String,
    },
    /// A comment is meant to declare a parameter, and declares none.
    #[error("{site}: TAKES: write !TAKES Q name: what it is for!, as the manual says")]
    Unread {
        site: String,
    },
    /// A comment declares a register or a name once more.
    #[error("{site}: TAKES: an earlier comment declares this register, or this name")]
    Again {
        site: String,
    },
    /// The texts that are given are not those that the macro takes.
    #[error("{name} takes {parameters}: {what}")]
    Texts {
        name: String,
        parameters: String,
        what: String,
    },
    /// Its library can't be read.
    #[error("{0}")]
    Answer(AnswerFault),
    /// The names of macros can't be printed.
    #[error("{0}")]
    System(io::Error),
    /// A growth was refused.
    #[error("out of memory")]
    Memory,
}

// Was memory refused?
fn is_memory(fault: &AnswerFault) -> bool {
    match fault {
        AnswerFault::Memory => true,
        AnswerFault::Read { reason, .. } => reason.kind() == io::ErrorKind::OutOfMemory,
        _ => false,
    }
}

impl From<AnswerFault> for NamedFault {
    fn from(fault: AnswerFault) -> NamedFault {
        if is_memory(&fault) {
            NamedFault::Memory
        } else {
            NamedFault::Answer(fault)
        }
    }
}

impl From<io::Error> for NamedFault {
    fn from(error: io::Error) -> NamedFault {
        NamedFault::System(error)
    }
}

impl From<AllocError> for NamedFault {
    fn from(_refused: AllocError) -> NamedFault {
        NamedFault::Memory
    }
}

impl<T: Drop> From<AllocFailed<T>> for NamedFault {
    fn from(_refused: AllocFailed<T>) -> NamedFault {
        NamedFault::Memory
    }
}
