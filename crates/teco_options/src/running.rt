//! What is run, and how searches begin.

/// What command strings are read from.
#[derive(Clone, Copy)]
pub enum Script<'a> {
    /// Standard input.
    Stream,
    /// The file of a name.
    File(&'a str),
    /// A word of the command line. It gets the two ESC at its end that it lacks.
    Word(&'a str),
}

/// How searches treat the case of letters.
#[derive(Clone, Copy)]
pub enum LetterCase {
    /// A letter matches itself alone.
    Exact,
    /// A letter matches itself in either case.
    Any,
}
