//! What the letters of an element say, before a register's name and texts are read.
use crate::kind::Kind;

/// What the letters of an element name.
#[derive(Clone, Copy)]
pub enum Head {
    /// An element of this kind.
    Kind(Kind),
    /// An element on the register whose name follows.
    OnRegister(OnRegister),
}

/// An element whose register is not yet read.
#[derive(Clone, Copy)]
pub enum OnRegister {
    /// `U`
    SetNumber,
    /// `%`
    Add,
    /// `Q`
    Number,
    /// `X`
    Copy,
    /// `^U`
    SetText,
    /// `G`
    Get,
    /// `[`
    Push,
    /// `]`
    Pop,
    /// `M`
    Call,
}

/// Which texts an element has.
#[derive(Clone, Copy)]
pub enum TextShape {
    /// Its own bytes.
    Itself,
    /// One that ends at this byte.
    EndedBy(u8),
    /// Two that each end at ESC.
    Two,
    /// The element has no text.
    NoText,
}
