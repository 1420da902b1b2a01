//! What keeps files of cases from being run.
use std::alloc::{AllocError, AllocFailed};
use std::{fmt, io};
use teco_console::AnswerFault;
use teco_linear::LinearFault;
use teco_session::SessionFault;
use teco_simplex::SimplexFault;

/// How many characters a line has at most.
pub const WIDTH: usize = 120;

/// Why a line is none of a file of cases, or a case none of its kind.
#[derive(Clone, Copy)]
pub enum Mistake {
    /// The first line names no kind of cases.
    Kind,
    /// A control character stands in the line.
    Control,
    /// The line ends in a blank.
    Blank,
    /// The line is longer than it is to be.
    Long,
    /// Something stands before the first case.
    NoCase,
    /// An indented line follows none that begins a text.
    NoText,
    /// A backslash says no byte.
    Escape,
    /// A case has the name of one before it.
    NameTwice,
    /// A case has a key, with the same name, twice.
    KeyTwice,
    /// No case of the kind has this key, with a name or without one as it stands here.
    UnknownKey,
    /// No text stands behind the key or below it.
    Bare,
    /// A case lacks a key.
    Missing(&'static str),
    /// The text of a key is none of those that it may have.
    Value(&'static str),
}

impl Mistake {
    // What is wrong, but for keys and numbers.
    fn words(self) -> &'static str {
        match self {
            Mistake::Kind => "the first line names no kind of cases",
            Mistake::Control => "a control character stands here",
            Mistake::Blank => "the line ends in a blank",
            Mistake::Long => "the line is too long",
            Mistake::NoCase => "no case begins before this line",
            Mistake::NoText => "no text begins before this line",
            Mistake::Escape => "a backslash says no byte",
            Mistake::NameTwice => "a case before this one has the name",
            Mistake::KeyTwice => "the case has this already",
            Mistake::UnknownKey => "no case of this kind has this key",
            Mistake::Bare => "the key has no text",
            Mistake::Missing(_) => "the case lacks a key",
            Mistake::Value(_) => "this is no text of its key",
        }
    }
}

impl fmt::Display for Mistake {
    fn fmt<W: fmt::Write>(&self, f: &mut fmt::Formatter<W>) -> fmt::Result {
        match self {
            Mistake::Long => write!(f, "the line has more than {WIDTH} characters"),
            Mistake::Missing(key) => write!(f, "the case lacks {key}"),
            Mistake::Value(key) => write!(f, "this is no {key}"),
            _ => write!(f, "{}", self.words()),
        }
    }
}

/// Why cases are not run.
#[derive(Drop)]
pub enum CaseFault {
    /// A line, or the case that it begins, is not as it is to be.
    Format {
        /// The line's number, from 1 on.
        line: usize,
        /// What is wrong.
        mistake: Mistake,
    },
    /// A file or a folder failed.
    Files(io::Error),
    /// A session failed for another reason than its commands.
    Session(SessionFault),
    /// A verdict was not given.
    Answer(AnswerFault),
    /// A form is refused.
    Linear(LinearFault),
    /// A growth was refused.
    Memory,
}

impl fmt::Display for CaseFault {
    fn fmt<W: fmt::Write>(&self, f: &mut fmt::Formatter<W>) -> fmt::Result {
        match self {
            CaseFault::Format { line, mistake } => write!(f, "line {line}: {mistake}"),
            CaseFault::Files(fault) => write!(f, "{fault}"),
            CaseFault::Session(fault) => write!(f, "{fault}"),
            CaseFault::Answer(fault) => write!(f, "{fault}"),
            CaseFault::Linear(fault) => write!(f, "{fault}"),
            CaseFault::Memory => write!(f, "out of memory"),
        }
    }
}

impl From<AllocError> for CaseFault {
    fn from(_refused: AllocError) -> CaseFault {
        CaseFault::Memory
    }
}

impl<T: Drop> From<AllocFailed<T>> for CaseFault {
    fn from(_refused: AllocFailed<T>) -> CaseFault {
        CaseFault::Memory
    }
}

impl From<io::Error> for CaseFault {
    fn from(error: io::Error) -> CaseFault {
        CaseFault::Files(error)
    }
}

impl From<SessionFault> for CaseFault {
    fn from(fault: SessionFault) -> CaseFault {
        CaseFault::Session(fault)
    }
}

impl From<AnswerFault> for CaseFault {
    fn from(fault: AnswerFault) -> CaseFault {
        CaseFault::Answer(fault)
    }
}

impl From<LinearFault> for CaseFault {
    fn from(fault: LinearFault) -> CaseFault {
        CaseFault::Linear(fault)
    }
}

impl From<SimplexFault> for CaseFault {
    fn from(_fault: SimplexFault) -> CaseFault {
        CaseFault::Memory
    }
}
