//! Why words are not obeyed.
use std::alloc::{AllocError, AllocFailed};
use teco_policy::PolicyRefusal;
use thiserror::Error;

// The words that say what an edit must not do.
const POLICY_WORDS: &str = "--keep takes text, size, lines or others=PATTERN; \
    --add nothing or only=CHARACTERS; --take only=CHARACTERS; --most 10 or 5%";

/// Why words are not obeyed.
#[derive(Debug, Drop, Error)]
pub enum WordsFault {
    /// A word that is no UTF-8 stands where a text is wanted.
    #[error("the word {word} is no UTF-8 text")]
    NotText {
        /// The word, as messages have it.
        word: String,
    },
    /// Options name a register and no library.
    #[error("-r names a macro of -f LIB or of -e TEXT, and there is neither")]
    NoMacro,
    /// A register has another name.
    #[error("a register is A to Z or 0 to 9")]
    Register,
    /// The word behind that of the library is no register.
    #[error("a register is A to Z or 0 to 9, and stands behind LIB; a macro itself goes behind -e")]
    RegisterWord,
    /// A word stands behind a name where none may.
    #[error("nothing stands behind the name of a macro here: its register is A, and ./NAME is a file")]
    BehindName,
    /// Behind the name of a macro that is applied stand other files than are wanted.
    #[error("behind the name of a macro and its texts stand the files, {0} here")]
    Applied(&'static str),
    /// An argument is another number.
    #[error("an argument is a number of decimal digits, 0 to 2147483647")]
    Argument,
    /// A file's name has an ESC in it, or is too long.
    #[error("a file's name holds no ESC and at most 4096 bytes")]
    FileName,
    /// What stands for ESC is more than a character, or no ASCII.
    #[error("--esc takes one ASCII character, or none")]
    Escape,
    /// A word is neither a code nor a refusal.
    #[error("explain takes a code, as POP, a refusal, as X7, a command, as FS, a macro, or a file and a register")]
    Unknown,
    /// The examples of a library are to be tried that can't be read twice.
    #[error("--tested wants a file as LIB, since standard input can't be read twice")]
    Tested,
    /// Searches are to be exact and to find either case.
    #[error("--exact and --any-case can't both be asked for")]
    Case,
    /// A pattern has a class of characters.
    #[error("in a pattern * is any text and ? any byte; there are no classes in brackets")]
    Pattern,
    /// A stream is to be edited in place.
    #[error("edit changes files; teco apply .. - - edits standard input, and ./- is a file of that name")]
    EditStream,
    /// Files of folders are chosen, and no folder is looked through.
    #[error("--include and --exclude choose among the files of folders: give --recursive too")]
    Unlooked,
    /// The character for ESC is named, and command strings come from standard input as they are.
    #[error("--esc is not for what is typed; with - as FILE it is for standard input: teco run --esc '$' -")]
    EscapeStream,
    /// Neither a word nor a list names files.
    #[error("no file is named: give FILE or --files-from")]
    NoFile,
    /// No word behind those of the library and the register names a file, and no list does.
    #[error("no file is named behind LIB and the register: give FILE or --files-from; a macro itself goes behind -e")]
    NoFileBehind,
    /// When colours are used is none of the three words for that.
    #[error("--color takes always, never or auto")]
    Color,
    /// Standard input is to be a library and a list.
    #[error("LIB and the list of files cannot both be standard input")]
    ListStream,
    /// What an edit must not do is said by other words than those for that.
    #[error("{}: {}", .0, POLICY_WORDS)]
    Policy(PolicyRefusal),
    /// Which pages are edited is none of the three words for that.
    #[error("--pages takes first, each or whole")]
    Pages,
    /// The edition of the rules is neither of the two.
    #[error("--rules takes 1 or 2")]
    Rules,
    /// The effort of a search is no number, or too large a one.
    #[error("--effort takes a number from 1 to 1000000")]
    Effort,
    /// A text of a register is none.
    #[error("--set takes a register and its text, as B=TEXT, and --set-file a register and a file, as B=PATH")]
    Setting,
    /// Standard input is to be two things.
    #[error("LIB and IN cannot both be standard input")]
    TwoStreams,
    /// A stream is to be edited within the promise, which wants its length.
    #[error("--strict wants a file as IN, since the length of standard input is not known")]
    Strict,
    /// A growth was refused.
    #[error("out of memory")]
    Memory,
}

impl From<PolicyRefusal> for WordsFault {
    fn from(refusal: PolicyRefusal) -> WordsFault {
        match refusal {
            PolicyRefusal::Memory => WordsFault::Memory,
            other => WordsFault::Policy(other),
        }
    }
}

impl From<AllocError> for WordsFault {
    fn from(_refused: AllocError) -> WordsFault {
        WordsFault::Memory
    }
}

impl<T: Drop> From<AllocFailed<T>> for WordsFault {
    fn from(_refused: AllocFailed<T>) -> WordsFault {
        WordsFault::Memory
    }
}
