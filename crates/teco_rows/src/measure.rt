//! The measures of a state, each a whole number.
ghost use Rattle.std.specs.Prelude.{◌≡◌, ◌<◌};
ghost use Rattle.teco_rows.specs.Measures.{single_code, family_code, place};

/// A measure that a state has once.
#[derive(Clone, Copy)]
pub enum Single {
    /// How many steps were done.
    Steps,
    /// The pointer.
    Pointer,
    /// The length of the buffer.
    Size,
    /// The length of the buffer and of what is unread.
    Held,
    /// The line place of 1: the place behind the pointer's line.
    LineEnd,
    /// The line place of 0: the place where the pointer's line starts.
    LineStart,
    /// The length of the last text found or inserted.
    LastLength,
    /// One more than the code of the character at the pointer, and 0 at the end of the buffer.
    CodeHere,
    /// One more than the code of the character before the pointer, and 0 at its start.
    CodeBefore,
    /// How many bytes were typed since the entry.
    Typed,
    /// The length of the buffer and of what was unread at the entry.
    EntryHeld,
}

/// A measure that there is of each register, open iteration, pushed pair or argument level.
#[derive(Clone, Copy)]
pub enum Family {
    /// The number of a register.
    Number,
    /// The length of a register's text.
    Length,
    /// The turns of an iteration that come after the one that runs, if they are counted.
    Turns,
    /// The number of a pair on the push-down list.
    PushedNumber,
    /// The length of that pair's text.
    PushedLength,
    /// The value before the comma at a level, if there is one.
    First,
    /// The value at a level, if there is one.
    Value,
}

/// A measure of a state. Registers are named by their numbers; iterations, pairs and levels are
/// counted from the outermost or oldest, which is 0.
#[derive(Clone, Copy)]
pub enum Measure {
    /// One that a state has once.
    One(Single),
    /// One of a family.
    Each(Family, u32),
}

impl Single {
    // Its number among those that a state has once.
    fn code(self) -> usize
        ensures value { result ≡ single_code self }
        ensures within { result < 11 }
    {
        match self {
            Single::Steps => 0,
            Single::Pointer => 1,
            Single::Size => 2,
            Single::Held => 3,
            Single::LineEnd => 4,
            Single::LineStart => 5,
            Single::LastLength => 6,
            Single::CodeHere => 7,
            Single::CodeBefore => 8,
            Single::Typed => 9,
            Single::EntryHeld => 10,
        }
    }
}

impl Family {
    // Its number among the families.
    fn code(self) -> usize
        ensures value { result ≡ family_code self }
        ensures within { result < 7 }
    {
        match self {
            Family::Number => 0,
            Family::Length => 1,
            Family::Turns => 2,
            Family::PushedNumber => 3,
            Family::PushedLength => 4,
            Family::First => 5,
            Family::Value => 6,
        }
    }
}

impl Measure {
    /// Where its form stands in a case: first the measures that a state has once, and then those of
    /// each family in turn.
    pub fn place(self) -> usize
        ensures { result ≡ place self }
    {
        match self {
            Measure::One(single) => single.code(),
            Measure::Each(family, index) => 11 + 7 * index as usize + family.code(),
        }
    }
}
