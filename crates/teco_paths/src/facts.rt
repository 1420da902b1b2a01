//! What always holds of a state.
ghost use Rattle.std.specs.Prelude.{◌≡◌, ◌+ℤ◌, ◌-ℤ◌, ℕ, pos, IfOk, OnOk, IfSome};
ghost use Rattle.std.specs.List.{All};
ghost use Rattle.teco_linear.specs.Difference.{number_of, slack};
ghost use Rattle.teco_linear.specs.Form.{Valuation, value};
ghost use Rattle.teco_paths.specs.Facts.{IsFact, IsLeast, IsMost};
ghost use Rattle.teco_paths.specs.Symbols.{measure_of};
ghost use Rattle.teco_poly.specs.Polynomial as poly;

use crate::course::form_of;
use crate::fault::PathFault;
use std::alloc::Global;
use teco_base::LIMIT;
use teco_linear::{Difference, Form};

// The places of the measures that a state has once, but for the steps, which are never below 0.
const POINTER: u32 = 1;

const SIZE: u32 = 2;

const HELD: u32 = 3;

const LINE_END: u32 = 4;

const LINE_START: u32 = 5;

const LAST_LENGTH: u32 = 6;

// Of numbers of 32 bits the greatest, and how far below 0 the least is.
const MOST_NUMBER: u32 = 2_147_483_647;

const MOST_BELOW: u32 = 2_147_483_648;

// The line starts at or before the pointer and ends at or behind it, in the buffer, which with what
// is unread makes what is held.
const ORDER: [Difference; 9] = [
    Difference {
        left: None,
        right: Some(0),
        most: 0,
    },
    Difference {
        left: None,
        right: Some(LINE_START),
        most: 0,
    },
    Difference {
        left: Some(LINE_START),
        right: Some(POINTER),
        most: 0,
    },
    Difference {
        left: Some(POINTER),
        right: Some(LINE_END),
        most: 0,
    },
    Difference {
        left: Some(LINE_END),
        right: Some(SIZE),
        most: 0,
    },
    Difference {
        left: Some(SIZE),
        right: Some(HELD),
        most: 0,
    },
    Difference {
        left: Some(SIZE),
        right: None,
        most: LIMIT as i128,
    },
    Difference {
        left: None,
        right: Some(LAST_LENGTH),
        most: 0,
    },
    Difference {
        left: Some(LAST_LENGTH),
        right: None,
        most: LIMIT as i128,
    },
];

// A symbol, or 0.
fn symbol(symbol: Option<u32>, alloc: Global) -> Result<Form, PathFault>
    ensures { IfOk result (λ form. (n : ℕ) (v : Valuation) → value form n v ≡ number_of v symbol) }
{
    match symbol {
        Some(symbol) => Ok(Form::symbol(symbol, alloc)?),
        None => Ok(Form::zero(alloc)),
    }
}

// That a difference is within its bound.
fn bound(difference: &Difference, alloc: Global) -> Result<Form, PathFault>
    ensures { IfOk result (λ form. (n : ℕ) (v : Valuation)
        → value form n v ≡ slack difference.now v) }
{
    let most = Form::constant(difference.most, alloc)?;
    let right = symbol(difference.right, alloc)?;
    let left = symbol(difference.left, alloc)?;
    let sum = most.add(&right, alloc)?;
    let form = sum.sub(&left, alloc)?;
    Ok(form)
}

// The size that is claimed may be held.
fn room(size: &[u64], alloc: Global) -> Result<Form, PathFault>
    ensures { IfOk result (λ form. (n : ℕ) (v : Valuation)
        → value form n v ≡ pos LIMIT -ℤ pos (poly.value size.now n)) }
{
    let limit = Form::constant(LIMIT as i128, alloc)?;
    let size = form_of(size, alloc)?;
    let form = limit.sub(&size, alloc)?;
    Ok(form)
}

// How far below 0 the measure of a place is at most, if that is known: the number of a register has
// 32 bits, and lengths and turns are not below 0.
fn least_at(place: usize) -> Option<u32>
    ensures { IfSome result (λ below. IsLeast (measure_of place) below) }
{
    if place < 11 {
        return None;
    }
    match (place - 11) % 7 {
        0 => Some(MOST_BELOW),
        1 => Some(0),
        2 => Some(0),
        3 => Some(MOST_BELOW),
        4 => Some(0),
        _ => None,
    }
}

// What it is at most.
fn most_at(place: usize) -> Option<u32>
    ensures { IfSome result (λ most. IsMost (measure_of place) most) }
{
    if place < 11 {
        return None;
    }
    match (place - 11) % 7 {
        0 => Some(MOST_NUMBER),
        1 => Some(LIMIT as u32),
        3 => Some(MOST_NUMBER),
        4 => Some(LIMIT as u32),
        _ => None,
    }
}

// That a symbol is no further below 0 than this.
fn no_lower(symbol: u32, below: u32, alloc: Global) -> Result<Form, PathFault>
    ensures { IfOk result (λ form. (n : ℕ) (v : Valuation) → value form n v ≡ v symbol +ℤ pos below) }
{
    let number = Form::symbol(symbol, alloc)?;
    let below = Form::constant(i128::from(below), alloc)?;
    let form = number.add(&below, alloc)?;
    Ok(form)
}

/// That a symbol is no less than a number.
pub fn no_less(symbol: u32, least: u32, alloc: Global) -> Result<Form, PathFault>
    ensures { IfOk result (λ form. (n : ℕ) (v : Valuation) → value form n v ≡ v symbol -ℤ pos least) }
{
    let number = Form::symbol(symbol, alloc)?;
    let least = Form::constant(i128::from(least), alloc)?;
    let form = number.sub(&least, alloc)?;
    Ok(form)
}

/// That a symbol is no more than a number.
pub fn no_more(symbol: u32, most: u32, alloc: Global) -> Result<Form, PathFault>
    ensures { IfOk result (λ form. (n : ℕ) (v : Valuation) → value form n v ≡ pos most -ℤ v symbol) }
{
    let number = Form::symbol(symbol, alloc)?;
    let most = Form::constant(i128::from(most), alloc)?;
    let form = most.sub(&number, alloc)?;
    Ok(form)
}

// Adds what the measure of a place is at least, if that is known.
fn add_least(facts: &mut Vec<Form>, place: u32, alloc: Global) -> Result<(), PathFault>
    ensures { OnOk result ((size : poly.Polynomial)
        → All (IsFact size) facts.old.items → All (IsFact size) facts.new.items) }
{
    let Some(below) = least_at(place as usize) else {
        return Ok(());
    };
    let fact = no_lower(place, below, alloc)?;
    facts.push(fact)?;
    Ok(())
}

// Adds what it is at most.
fn add_most(facts: &mut Vec<Form>, place: u32, alloc: Global) -> Result<(), PathFault>
    ensures { OnOk result ((size : poly.Polynomial)
        → All (IsFact size) facts.old.items → All (IsFact size) facts.new.items) }
{
    let Some(most) = most_at(place as usize) else {
        return Ok(());
    };
    let fact = no_more(place, most, alloc)?;
    facts.push(fact)?;
    Ok(())
}

// Adds both.
fn add_ends(facts: &mut Vec<Form>, place: usize, alloc: Global) -> Result<(), PathFault>
    ensures { OnOk result ((size : poly.Polynomial)
        → All (IsFact size) facts.old.items → All (IsFact size) facts.new.items) }
{
    let Ok(symbol) = u32::try_from(place) else {
        return Err(PathFault::Unknown);
    };
    add_least(facts, symbol, alloc)?;
    add_most(facts, symbol, alloc)
}

/// What always holds of states and of the measures in the places that are marked, where the size that
/// is claimed may be held.
pub fn facts(size: &[u64], told: &[bool], alloc: Global) -> Result<Vec<Form>, PathFault>
    ensures { IfOk result (λ facts. All (IsFact size.now) facts.items) }
{
    let mut facts = Vec::new(alloc);
    facts.push(room(size, alloc)?)?;
    for at in 0..ORDER.len() {
        facts.push(bound(&ORDER[at], alloc)?)?;
    }
    for place in 0..told.len() {
        if told[place] {
            add_ends(&mut facts, place, alloc)?;
        }
    }
    Ok(facts)
}
