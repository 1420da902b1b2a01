//! Changes of a text.
ghost use Rattle.std.specs.Prelude.{◌≡◌};

use std::marker::Model;
use teco_base::Reg;

/// A text that is put, or one that is searched.
#[derive(Drop)]
pub struct Text {
    bytes: Vec<u8>,
}

impl Model for Text {
    ghost use Rattle.std.specs.Prelude.{List, ℕ};

    ghost Value = { List ℕ };

    ghost view = { λ t. t.bytes.items };
}

impl Text {
    /// The text of these bytes.
    pub fn of(bytes: Vec<u8>) -> Text
        ensures { result ≡ bytes.items }
    {
        Text { bytes }
    }

    /// Its bytes.
    pub fn as_slice(&self) -> &[u8]
        ensures { result.now ≡ self.now }
    {
        self.bytes.as_slice()
    }
}

/// The characters from the first to the last.
#[derive(Clone, Copy)]
pub struct Range {
    pub first: u8,
    pub last: u8,
}

/// What is known of the characters at the pointer and before it: they are of these ranges.
#[derive(Clone, Copy)]
pub struct Characters {
    pub at: Option<Range>,
    pub before: Option<Range>,
}

/// A class of characters, given by ranges.
#[derive(Drop)]
pub struct Class {
    ranges: Vec<Range>,
}

impl Model for Class {
    ghost use Rattle.std.specs.Prelude.{List};
    ghost use Rattle.teco_changes.specs.declared.change.Range.{Range};

    ghost Value = { List Range };

    ghost view = { λ c. c.ranges.items };
}

impl Class {
    /// The characters of these ranges.
    pub fn of(ranges: Vec<Range>) -> Class
        ensures { result ≡ ranges.items }
    {
        Class { ranges }
    }

    /// Its ranges.
    pub fn as_slice(&self) -> &[Range]
        ensures { result.now ≡ self.now }
    {
        self.ranges.as_slice()
    }
}

/// What an element can do to a text: where a piece stood that it takes, it puts another.
#[derive(Drop)]
pub enum Change {
    /// Puts a text that is written in the macro.
    Puts(Text),
    /// Puts a number, in decimal.
    PutsNumber,
    /// Puts a character.
    PutsByte,
    /// Puts the text of a register.
    PutsText(Reg),
    /// Takes a character of a class.
    Takes(Class),
    /// Takes a match of a search text.
    TakesMatch(Text),
    /// Takes any piece.
    TakesAny,
    /// Puts the second text in the stead of a match of the first, a search text.
    Swaps(Text, Text),
}
