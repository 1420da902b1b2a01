//! What is known at the entry of a macro.
ghost use Rattle.std.specs.Prelude.{◌≡◌, ◌-ℤ◌, ◌<◌, ◌+◌, ◌*◌, ℕ, List, Option, pos, IfOk, IfSome, OnOk, None, Some};
ghost use Rattle.std.specs.Prelude.{is_some, false};
ghost use Rattle.std.specs.Prelude.{slice_index_or};
ghost use Rattle.teco_base.specs.declared.TheConstants.{REGISTERS};
ghost use Rattle.teco_model.specs.Macros.{ArgumentRange};
ghost use Rattle.std.specs.List.{All};
ghost use Rattle.teco_linear.specs.Form.{Valuation, value};
ghost use Rattle.teco_paths.specs.Entry.{AreThere, IsEntryBound, IsEntryClaim, IsEntryCut, is_there, length_if};
ghost use Rattle.teco_paths.specs.Entry.{used_lengths};
ghost use Rattle.teco_paths.specs.Symbols.{measure_of};
ghost use Rattle.teco_verifier.specs.table.Printed.{steps_before};

use crate::cut::CutState;
use crate::facts::{no_less, no_more};
use crate::fault::PathFault;
use std::alloc::Global;
use teco_base::REGISTERS;
use teco_linear::{Form, Term};
use teco_model::ArgumentRange;
use teco_rows::case::Shape;

// The places of the steps that were done, of what is held, of the bytes that were typed, of what was
// held at the entry, of the length of the first register's text, and of the pending argument.
const STEPS: u32 = 0;

const HELD: u32 = 3;

const TYPED: u32 = 9;

const ENTRY_HELD: u32 = 10;

const FIRST_LENGTH: u32 = 12;

const ARGUMENT: u32 = 17;

// How many places there are at an entry.
pub const PLACES: usize = 11 + 7 * REGISTERS;

// How many steps were done there.
fn steps_done(argument: Option<ArgumentRange>) -> u32
    ensures { result ≡ steps_before argument }
{
    match argument {
        Some(_) => 1,
        None => 0,
    }
}

// That a symbol is no less than another.
fn no_less_than(symbol: u32, other: u32, alloc: Global) -> Result<Form, PathFault>
    ensures { IfOk result (λ form. (n : ℕ) (v : Valuation) → value form n v ≡ v symbol -ℤ v other) }
{
    let number = Form::symbol(symbol, alloc)?;
    let least = Form::symbol(other, alloc)?;
    let form = number.sub(&least, alloc)?;
    Ok(form)
}

// N, less what is held.
fn most_held(alloc: Global) -> Result<Form, PathFault>
    ensures { IfOk result (λ form. (n : ℕ) (v : Valuation) → value form n v ≡ pos n -ℤ v HELD) }
{
    let all = Form::term(
        Term {
            symbol: None,
            power: 1,
            coefficient: 1,
        },
        alloc,
    )?;
    let held = Form::symbol(HELD, alloc)?;
    let form = all.sub(&held, alloc)?;
    Ok(form)
}

// The length of a register's text, or 0 where the macro does not use it.
fn length_used(used: &[bool], register: u32, alloc: Global) -> Result<Form, PathFault>
    requires { register < REGISTERS }
    ensures { IfOk result (λ form. (n : ℕ) (v : Valuation)
        → value form n v ≡ length_if (slice_index_or used.now (12 + 7 * register) false) v register) }
{
    let place = FIRST_LENGTH + 7 * register;
    if used.get(place as usize) == Some(&true) {
        Ok(Form::symbol(place, alloc)?)
    } else {
        Ok(Form::zero(alloc))
    }
}

// N is no less than what is held with the texts of the registers that the macro uses.
fn most_in_all(used: &[bool], alloc: Global) -> Result<Form, PathFault>
    ensures { IfOk result (λ form. (n : ℕ) (v : Valuation)
        → value form n v ≡ (pos n -ℤ v HELD) -ℤ used_lengths used.now v REGISTERS) }
{
    let mut form = most_held(alloc)?;
    for register in 0..REGISTERS as u32 {
        let length = length_used(used, register, alloc)?;
        form = form.sub(&length, alloc)?;
    }
    Ok(form)
}

// Adds that a measure is between two numbers.
fn add_between(
    claims: &mut Vec<Form>,
    symbol: u32,
    least: u32,
    most: u32,
    alloc: Global,
) -> Result<(), PathFault>
    ensures { OnOk result ((lengths : List (Option ℕ)) (argument : Option ArgumentRange)
        → IsEntryBound lengths argument symbol least most → All (IsEntryClaim lengths argument) claims.old.items
        → All (IsEntryClaim lengths argument) claims.new.items) }
{
    let above = no_less(symbol, least, alloc)?;
    claims.push(above)?;
    let below = no_more(symbol, most, alloc)?;
    claims.push(below)?;
    Ok(())
}

// Adds that an argument is in its range, if there is one.
fn add_range(
    claims: &mut Vec<Form>,
    argument: Option<ArgumentRange>,
    alloc: Global,
) -> Result<(), PathFault>
    ensures { OnOk result ((lengths : List (Option ℕ)) → All (IsEntryClaim lengths argument) claims.old.items
        → All (IsEntryClaim lengths argument) claims.new.items) }
{
    match argument {
        Some(range) => add_between(claims, ARGUMENT, range.low(), range.high(), alloc),
        None => Ok(()),
    }
}

// How long the text of a register is, if that is known.
fn length_at(lengths: &[Option<usize>], register: u32) -> Option<u32>
    ensures { IfSome result (λ long. slice_index_or lengths.now register None ≡ Some long) }
{
    match lengths.get(register as usize) {
        Some(Some(long)) => match u32::try_from(*long) {
            Ok(long) => Some(long),
            Err(_) => None,
        },
        _ => None,
    }
}

// Adds how long it is.
fn add_length(
    claims: &mut Vec<Form>,
    lengths: &[Option<usize>],
    register: u32,
    alloc: Global,
) -> Result<(), PathFault>
    requires { register < REGISTERS }
    ensures { OnOk result ((argument : Option ArgumentRange) → All (IsEntryClaim lengths.now argument) claims.old.items
        → All (IsEntryClaim lengths.now argument) claims.new.items) }
{
    match length_at(lengths, register) {
        Some(long) => add_between(claims, FIRST_LENGTH + 7 * register, long, long, alloc),
        None => Ok(()),
    }
}

// How long the texts of registers are, where that is known.
fn length_claims(lengths: &[Option<usize>], alloc: Global) -> Result<Vec<Form>, PathFault>
    ensures { IfOk result (λ claims. (argument : Option ArgumentRange)
        → All (IsEntryClaim lengths.now argument) claims.items) }
{
    let mut claims = Vec::new(alloc);
    for register in 0..REGISTERS as u32 {
        add_length(&mut claims, lengths, register, alloc)?;
    }
    Ok(claims)
}

// What is claimed at the entry.
fn entry_claims(
    lengths: &[Option<usize>],
    argument: Option<ArgumentRange>,
    used: &[bool],
    alloc: Global,
) -> Result<Vec<Form>, PathFault>
    ensures { IfOk result (λ claims. All (IsEntryClaim lengths.now argument) claims.items) }
{
    let done = steps_done(argument);
    let mut claims = length_claims(lengths, alloc)?;
    add_between(&mut claims, STEPS, done, done, alloc)?;
    add_between(&mut claims, TYPED, 0, 0, alloc)?;
    claims.push(no_less_than(HELD, ENTRY_HELD, alloc)?)?;
    claims.push(no_less_than(ENTRY_HELD, HELD, alloc)?)?;
    claims.push(most_in_all(used, alloc)?)?;
    add_range(&mut claims, argument, alloc)?;
    Ok(claims)
}

// Whether the measure of a place is there at the entry.
fn is_present(has_argument: bool, place: usize) -> bool
    ensures { result ≡ is_there has_argument (measure_of place) }
{
    if place < 11 {
        return true;
    }
    let index = (place - 11) / 7;
    match (place - 11) % 7 {
        0 => index < REGISTERS,
        1 => index < REGISTERS,
        2 => false,
        3 => false,
        4 => false,
        5 => false,
        _ => has_argument && 0 == index,
    }
}

// Which measures are there.
fn present(has_argument: bool, alloc: Global) -> Result<Vec<bool>, PathFault>
    ensures { IfOk result (λ present. AreThere has_argument present.items) }
{
    let mut all = Vec::new(alloc);
    for place in 0..PLACES {
        all.push(is_present(has_argument, place))?;
    }
    Ok(all)
}

/// The places that are marked in both.
pub fn both(present: &[bool], used: &[bool], alloc: Global) -> Result<Vec<bool>, PathFault> {
    let mut told = Vec::new(alloc);
    for place in 0..present.len() {
        told.push(present[place] && used.get(place) == Some(&true))?;
    }
    Ok(told)
}

/// The cut point that the state at an entry is as: what it says is so.
pub fn entry_cut(
    lengths: &[Option<usize>],
    argument: Option<ArgumentRange>,
    used: &[bool],
    alloc: Global,
) -> Result<CutState, PathFault>
    ensures { IfOk result (λ cut. IsEntryCut lengths.now argument cut) }
{
    let present = present(argument.is_some(), alloc)?;
    let claims = entry_claims(lengths, argument, used, alloc)?;
    let told = both(&present, used, alloc)?;
    let mut operators = Vec::new(alloc);
    operators.push(None)?;
    Ok(CutState {
        number: 1,
        shape: Shape {
            operators,
            iterations: 0,
            pushes: 0,
        },
        present,
        told,
        claims,
    })
}
