//! Rows: what an element makes of the measures of a state, as a table of whole numbers.
ghost use Rattle.std.specs.Prelude.{◌≡◌};
ghost use Rattle.teco_rows.specs.Rows.{index_at, measure_at};

use crate::measure::{Family, Measure, Single};
use teco_linear::Form;

/// A measure, named in a row: one of a family is that of the register, iteration, pair or level
/// that the element is about.
#[derive(Clone, Copy)]
pub enum Mark {
    /// One that a state has once.
    One(Single),
    /// One of a family, at the place at hand.
    Here(Family),
}

/// What a row takes multiples of.
#[derive(Clone, Copy)]
pub enum Of {
    /// A measure of the state before; 0 where it is absent.
    Was(Mark),
    /// A number that is given with the row, by its index.
    Given(usize),
    /// A whole number that is not known, by its index.
    Unknown(u32),
}

/// A multiple.
pub type MultipleOf = (i64, Of);

/// The multiples of a clause, of which those by 0 stand for none. They are no array, since a constant that
/// holds arrays within enums is built anew where it is borrowed.
pub type Multiples = (MultipleOf, MultipleOf, MultipleOf, MultipleOf);

/// What a row says, by a constant and multiples that are added to it.
#[derive(Clone, Copy)]
pub enum Clause {
    /// The measure becomes the sum.
    Sets(Mark, i64, Multiples),
    /// The measure is no longer there.
    Drops(Mark),
    /// The sum is at least 0.
    Wants(i64, Multiples),
}

/// Which register, iteration, pushed pair and level an element is about.
#[derive(Clone, Copy)]
pub struct Places {
    pub register: u32,
    pub iteration: u32,
    pub push: u32,
    pub level: u32,
}

/// A row at a state: what its marks are, the numbers that are given, and how many there are that
/// are not known.
#[derive(Clone, Copy)]
pub struct RowStep<'a> {
    pub clauses: &'a [Clause],
    pub here: Places,
    pub given: &'a [Form],
    pub unknowns: u32,
}

impl Places {
    // Which one of a family it is.
    fn index(self, family: Family) -> u32
        ensures { result ≡ index_at self family }
    {
        match family {
            Family::Number | Family::Length => self.register,
            Family::Turns => self.iteration,
            Family::PushedNumber | Family::PushedLength => self.push,
            Family::First | Family::Value => self.level,
        }
    }

    /// The measure that a mark is.
    pub fn measure(self, mark: Mark) -> Measure
        ensures { result ≡ measure_at self mark }
    {
        match mark {
            Mark::One(single) => Measure::One(single),
            Mark::Here(family) => Measure::Each(family, self.index(family)),
        }
    }
}
