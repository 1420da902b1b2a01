//! Elements, as they are read from a text.
use crate::kind::Kind;

/// An element of a text. What it says of the text is borrowed from there.
#[derive(Clone, Copy)]
pub struct Element<'a> {
    /// What it is.
    pub kind: Kind,
    /// How many `:` stand before it.
    pub colons: u8,
    /// Does `@` stand before it?
    pub at: bool,
    /// Its text, or the digits of a number.
    pub text: &'a [u8],
    /// The second text of a replacement.
    pub second: &'a [u8],
    /// The place of its first byte, after the blanks.
    pub place: usize,
    /// The place behind it.
    pub next: usize,
}
