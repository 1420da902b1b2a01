//! How files are edited, and what is printed of them.
ghost use Rattle.std.specs.Prelude.{◌≡◌};
ghost use Rattle.teco_options.specs.Names.{are_named};

/// How many bytes the name of a file has, at most.
pub const NAME: usize = 4096;

/// Which pages of a file a macro edits.
#[derive(Clone, Copy)]
pub enum PageChoice {
    /// The first; the others are copied.
    First,
    /// Each in turn, as long as bytes are unread.
    Each,
    /// All as one, with the form feeds between them.
    Whole,
}

/// How files are kept as they were.
#[derive(Clone, Copy)]
pub struct Keeping<'a> {
    /// What the name of a file has behind it that is kept: some bytes, and no slash among them.
    pub suffix: &'a str,
    /// May one take the place of a file that has its name?
    pub replaces: bool,
}

/// What is done with files that would change.
#[derive(Clone, Copy)]
pub enum Change {
    /// They are replaced.
    Made,
    /// Their names are printed.
    Listed,
    /// Their names are printed, and it is a code where there are any.
    Checked,
}

/// How differences are printed.
#[derive(Clone, Copy)]
pub enum Look {
    /// As bytes, for `patch`.
    Plain,
    /// In colours, safe for a terminal.
    Coloured,
}

/// Where the name of a file stands before what is typed over it, in each line.
#[derive(Clone, Copy)]
pub enum Naming {
    /// Where more than one file is edited.
    Several,
    /// In any case.
    Always,
    Never,
}

impl Naming {
    /// Does it stand there where so many files are edited?
    pub fn holds_for(self, files: usize) -> bool
        ensures { result ≡ are_named self files }
    {
        match self {
            Naming::Several => files > 1,
            Naming::Always => true,
            Naming::Never => false,
        }
    }
}
