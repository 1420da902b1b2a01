//! What keeps the program from obeying its words.
use std::alloc::{AllocError, AllocFailed};
use std::io;
use teco_console::AnswerFault;
use teco_named::NamedFault;
use teco_tools::ToolFault;
use teco_words::WordsFault;
use thiserror::Error;

/// Why the program ends with its status of failure.
#[derive(Debug, Drop, Error)]
pub enum ProgramFault {
    /// The command line is not valid.
    #[error("{0}")]
    Words(WordsFault),
    /// A macro is called by a name, and there is none, or one that takes other texts.
    #[error("{0}")]
    Named(NamedFault),
    /// What was asked for can't be done.
    #[error("{0}")]
    Tool(ToolFault),
    /// The system failed.
    #[error("{0}")]
    System(io::Error),
    /// A growth was refused.
    #[error("out of memory")]
    Memory,
}

impl ProgramFault {
    /// Did who reads the answer close it, as `head` does?
    pub fn is_closed_pipe(&self) -> bool {
        match self {
            ProgramFault::System(error)
            | ProgramFault::Tool(ToolFault::Answer(AnswerFault::Write(error))) => {
                error.kind() == io::ErrorKind::BrokenPipe
            }
            _ => false,
        }
    }
}

impl From<WordsFault> for ProgramFault {
    fn from(fault: WordsFault) -> ProgramFault {
        ProgramFault::Words(fault)
    }
}

impl From<NamedFault> for ProgramFault {
    fn from(fault: NamedFault) -> ProgramFault {
        match fault {
            NamedFault::System(error) => ProgramFault::System(error),
            other => ProgramFault::Named(other),
        }
    }
}

impl From<ToolFault> for ProgramFault {
    fn from(fault: ToolFault) -> ProgramFault {
        ProgramFault::Tool(fault)
    }
}

impl From<AnswerFault> for ProgramFault {
    fn from(fault: AnswerFault) -> ProgramFault {
        ProgramFault::Tool(ToolFault::Answer(fault))
    }
}

impl From<io::Error> for ProgramFault {
    fn from(error: io::Error) -> ProgramFault {
        ProgramFault::System(error)
    }
}

impl From<AllocError> for ProgramFault {
    fn from(_refused: AllocError) -> ProgramFault {
        ProgramFault::Memory
    }
}

impl<T: Drop> From<AllocFailed<T>> for ProgramFault {
    fn from(_refused: AllocFailed<T>) -> ProgramFault {
        ProgramFault::Memory
    }
}
