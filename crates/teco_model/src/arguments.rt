/// What joins two values; operators are taken from left to right.
#[derive(Clone, Copy)]
pub enum Operator {
    /// `+`
    Plus,
    /// `-`
    Minus,
    /// `*`
    Times,
    /// `/`
    Over,
    /// `&`
    And,
    /// `#`
    Or,
}

/// What is pending at one depth of parentheses.
#[derive(Clone, Copy, Default)]
pub struct Level {
    /// The value before a comma.
    pub first: Option<i32>,
    /// The value so far.
    pub value: Option<i32>,
    /// The operator that waits for a value.
    pub operator: Option<Operator>,
}

/// The arguments that a command takes.
#[derive(Clone, Copy)]
pub struct Taken {
    /// The value before the comma; it is there only where `value` is.
    pub first: Option<i32>,
    /// The value.
    pub value: Option<i32>,
}
