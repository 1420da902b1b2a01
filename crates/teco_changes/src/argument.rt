//! What is known of the arguments that are pending.

/// What is known of the numeric argument that is pending where an element is read.
#[derive(Clone, Copy)]
pub enum NumericArgument {
    /// No run comes there.
    Unreached,
    /// Nothing is known.
    Unknown,
    /// No operator waits for its second number.
    Complete,
    /// A number is pending.
    Number,
    /// A number is pending, with no operator behind it.
    Value,
    /// This number is pending, with no operator behind it.
    Exactly(i32),
}

/// A character that a macro can ask for.
#[derive(Clone, Copy)]
pub enum Side {
    /// The one at the pointer.
    At,
    /// The one before it.
    Before,
}

/// What a test tells of a number.
#[derive(Clone, Copy)]
pub enum Sign {
    /// It is 0.
    Equal,
    /// It is below 0.
    Below,
    /// It is not below 0.
    NotBelow,
    /// It is above 0.
    Above,
    /// It is not above 0.
    NotAbove,
}

/// What is pending near the pointer, as far as deletions and tests of characters ask.
#[derive(Clone, Copy)]
pub enum Pending {
    /// Nothing is known.
    Anything,
    /// Neither a number nor an operator.
    Empty,
    /// A minus alone.
    Negative,
    /// This number, with no operator behind it.
    Number(i32),
    /// The length of the last text, below 0.
    Length,
    /// The place of the last text: a range.
    Place,
    /// The code of a character, with no operator behind it.
    Asked(Side),
    /// That, and a minus.
    AskedMinus(Side),
    /// That less a number.
    AskedLess(Side, i32),
}
