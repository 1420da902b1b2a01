//! What is wanted of a program.
use teco_bounds::measures::{HELD, TURNS, family_of, is_count};
use teco_bounds::reduced::UsedLimits;

// What is bounded: a measure, or what was added to it since the entry.
#[derive(Clone, Copy)]
pub struct Target {
    pub place: u32,
    pub is_added: bool,
}

impl Target {
    // A measure.
    pub fn of(place: u32) -> Target {
        Target {
            place,
            is_added: false,
        }
    }
}

// What was added to what is held.
pub const ADDED: Target = Target {
    place: HELD,
    is_added: true,
};

// What is promised: that a measure, or what was added to it, is no more than a polynomial, by
// coefficients of a degree in N.
#[derive(Clone, Copy)]
pub struct WantedBound<'a> {
    pub place: u32,
    pub is_added: bool,
    // 1, or -1 where the measure is to be no less than the polynomial taken once less.
    pub sign: i128,
    pub degree: u32,
    // The highest power of N that stands alone.
    pub highest: u32,
    pub is_loose: bool,
    pub limits: UsedLimits,
    pub scope: Scope,
    // The most pivots of the program, and the most rows.
    pub pivots: usize,
    pub rows: usize,
    // The places of the paths that count, if not all do.
    pub only: Option<&'a [usize]>,
}

impl WantedBound<'_> {
    // Whether the measure counts what a run does.
    pub fn is_count(&self) -> bool {
        is_count(self.place)
    }

    // Whether the path in a place counts.
    pub fn counts(&self, place: usize) -> bool {
        match self.only {
            Some(places) => places.contains(&place),
            None => true,
        }
    }
}

// Of which measures there are coefficients.
#[derive(Clone, Copy)]
pub enum Scope {
    // Of the pointer, of lengths of the buffer, and of turns.
    Few,
    // Of all.
    All,
}

impl Scope {
    pub fn has(self, place: u32) -> bool {
        match self {
            Scope::Few => place <= HELD || family_of(place) == Some(TURNS),
            Scope::All => true,
        }
    }
}
