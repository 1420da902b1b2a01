//! The terms of claims, and the measures that they speak of.
use teco_base::Reg;

/// The highest power of N that a term may have.
pub const MAX_POWER: u32 = 64;

/// The most terms that a claim may have.
pub const MAX_TERMS: usize = 4096;

/// A measure that a state has once.
#[derive(Clone, Copy)]
pub enum ClaimSingle {
    /// How many steps were done.
    Steps,
    /// The pointer.
    Pointer,
    /// The length of the buffer.
    Size,
    /// The length of the buffer and of what is unread.
    Held,
    /// The line place of 1: the place behind the pointer's line.
    LineEnd,
    /// The line place of 0: the place where the pointer's line starts.
    LineStart,
    /// The length of the last text found or inserted.
    LastLength,
    /// How many bytes were typed since the entry.
    Typed,
    /// The length of the buffer and of what was unread at the entry.
    EntryHeld,
}

/// A measure of a state.
#[derive(Clone, Copy)]
pub enum ClaimMeasure {
    /// One that a state has once.
    One(ClaimSingle),
    /// The number of a register.
    Number(Reg),
    /// The length of a register's text.
    Length(Reg),
    /// The turns still to come of the iteration that begins at an element.
    Turns(u32),
    /// The number of a pair pushed since the entry, by how many were pushed before it.
    PushedNumber(u32),
    /// The length of that pair's text.
    PushedLength(u32),
}

/// A fraction that is not negative.
#[derive(Clone, Copy)]
pub struct Fraction {
    pub numerator: u128,
    pub divisor: u128,
}

/// A fraction times a power of N times a measure, added or taken away.
#[derive(Clone, Copy)]
pub struct ClaimTerm {
    /// Whether it is taken away.
    pub is_negative: bool,
    pub coefficient: Fraction,
    pub power: u32,
    /// The measure; `None` where there is only the power of N.
    pub measure: Option<ClaimMeasure>,
}
