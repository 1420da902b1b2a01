//! The places of measures: those that a state has once, and behind them families of others.
use teco_base::{REGISTERS, Reg};

// The places of the pointer, the buffer's length, what is held, the line's end and its start, and the
// last length.
pub const POINTER: u32 = 1;

pub const SIZE: u32 = 2;

pub const HELD: u32 = 3;

pub const LINE_END: u32 = 4;

pub const LINE_START: u32 = 5;

pub const LAST_LENGTH: u32 = 6;

// Those of the characters at the pointer and before it.
pub const CODE_HERE: u32 = 7;

pub const CODE_BEFORE: u32 = 8;

// That of the bytes that were typed.
pub const TYPED: u32 = 9;

// That of what was held at the entry, which no step changes.
pub const ENTRY_HELD: u32 = 10;

// The place of the steps.
pub const STEPS: u32 = 0;

// Whether a measure counts what a run does: it only grows, and paths begin with none of it.
pub fn is_count(place: u32) -> bool {
    place == STEPS || place == TYPED
}

// How many measures a state has once, and how many families of others there are.
pub const SINGLES: u32 = 11;

pub const FAMILIES: u32 = 7;

// The families of numbers and lengths of registers, of turns, and of pairs' numbers and lengths.
pub const NUMBER: u32 = 0;

pub const LENGTH: u32 = 1;

pub const TURNS: u32 = 2;

pub const PUSHED_NUMBER: u32 = 3;

pub const PUSHED_LENGTH: u32 = 4;

// The places of the values before the comma and behind it, at the outermost level.
pub const FIRST_VALUE: usize = SINGLES as usize + 5;

pub const LAST_VALUE: usize = SINGLES as usize + 6;

// How many places there are at an entry.
pub const PLACES: u32 = SINGLES + FAMILIES * REGISTERS as u32;

// The family that a place is of, if it is of one, and of which register, iteration or pair.
pub fn family_of(place: u32) -> Option<u32> {
    Some(place.checked_sub(SINGLES)? % FAMILIES)
}

pub fn index_of(place: u32) -> Option<u32> {
    Some(place.checked_sub(SINGLES)? / FAMILIES)
}

// The place of what a family has of a register.
pub fn place_of(family: u32, register: Reg) -> u32 {
    let index = u32::try_from(register.index()).unwrap_or(0);
    index
        .saturating_mul(FAMILIES)
        .saturating_add(SINGLES)
        .saturating_add(family)
}
