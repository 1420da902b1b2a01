//! What a search looks for, and what it finds.
use teco_base::Reg;

/// What one character may be.
#[derive(Clone, Copy)]
pub enum Class {
    /// This byte.
    Literal(u8),
    /// This upper case letter, or the same in lower case: a literal letter where case is ignored.
    EitherCase(u8),
    /// `^X`: any character.
    Any,
    /// `^S`: no letter or digit.
    Separator,
    /// `^EA`: a letter.
    Letter,
    /// `^ED`: a digit.
    Digit,
    /// `^ER`: a letter or digit.
    LetterOrDigit,
    /// `^EV`: a lower case letter.
    Lower,
    /// `^EW`: an upper case letter.
    Upper,
    /// `^EL`: a line end.
    LineEnd,
}

/// An element of a pattern.
#[derive(Clone, Copy)]
pub enum Item {
    /// One character of the class.
    Is(Class),
    /// `^N`: one character that is not of the class.
    IsNot(Class),
    /// `^ES`: the longest run of spaces and tabs, at least one.
    Blanks,
}

/// What is written in a search text.
#[derive(Clone, Copy)]
pub enum Part {
    /// An element.
    Item(Item),
    /// `^EQ`: the text of a register, each byte a literal.
    Register(Reg),
}

/// A part of a text, from its first character up to the place behind its last.
#[derive(Clone, Copy)]
pub struct Span {
    /// The place of its first character.
    pub start: usize,
    /// The place behind its last character.
    pub end: usize,
}

/// What a number of matches, one behind the other, come to.
#[derive(Clone, Copy)]
pub enum Sought {
    /// The last of them.
    Last(Span),
    /// There are fewer: so many more are wanted.
    Wanted(u32),
}
