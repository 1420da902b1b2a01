//! Deletions of the last text.
ghost use Rattle.std.specs.List.{list_any};
ghost use Rattle.std.specs.Prelude.{◌≡◌, IfOk, option_map};
ghost use Rattle.teco_changes.specs.Elements as model;
ghost use Rattle.teco_changes.specs.Plain as plain;
ghost use Rattle.teco_told.specs.Seen.{found_seen, near_seen};

use crate::element::{one, text_of};
use crate::near::{Found, Nearby};
use std::alloc::{AllocError, Global};
use teco_change_policies::begins_more;
use teco_changes::{Change, Characters, Class, Pending, Range};
use teco_model::kind::Unit;

// Does some byte of a search text stand for more than itself?
fn has_sign(text: &[u8]) -> bool
    ensures { result ≡ list_any plain.is_sign text.now }
{
    text.iter().any(|b| begins_more(*b))
}

// Has each match of a search text so many characters?
#[tactic(auto, using(crate::proofs::Signs::have_as_many))]
fn matches_have(count: usize, text: &[u8]) -> bool
    ensures { result ≡ plain.matches_have count text.now }
{
    !has_sign(text) && text.len() == count
}

// Has it as many as a number is below 0?
fn matches_have_below(number: i32, text: &[u8]) -> bool
    ensures { result ≡ model.matches_below number text.now }
{
    number < 0 && matches_have(number.unsigned_abs() as usize, text)
}

// Is the last text taken, by its place, its length, or as many characters as each match has?
fn takes_last(unit: Unit, ranged: bool, wanted: &[u8], pending: Pending) -> bool
    ensures { result ≡ model.takes_last unit ranged wanted.now pending }
{
    match (unit, ranged, pending) {
        (_, _, Pending::Place) => true,
        (Unit::Characters, false, Pending::Length) => true,
        (Unit::Characters, false, Pending::Negative) => matches_have(1, wanted),
        (Unit::Characters, false, Pending::Number(n)) => matches_have_below(n, wanted),
        _ => false,
    }
}

// What D and K take of what was just found, if that is known.
fn deleted_last(
    alloc: Global,
    unit: Unit,
    ranged: bool,
    found: Found<'_>,
    pending: Pending,
) -> Result<Option<Vec<Change>>, AllocError>
    ensures { IfOk result (λ told. option_map (λ changes. changes.items) told
        ≡ model.deleted_last unit ranged (found_seen found.entry) pending) }
{
    match found {
        Found::Surely(wanted) if takes_last(unit, ranged, wanted, pending) => {
            Ok(Some(one(alloc, Change::TakesMatch(text_of(alloc, wanted)?))?))
        }
        _ => Ok(None),
    }
}

// A character of a range is taken.
fn taken_of(alloc: Global, range: Option<Range>) -> Result<Option<Vec<Change>>, AllocError>
    ensures { IfOk result (λ told. option_map (λ changes. changes.items) told ≡ model.taken_of range) }
{
    match range {
        Some(range) => {
            let mut ranges = Vec::new(alloc);
            ranges.push(range)?;
            Ok(Some(one(alloc, Change::Takes(Class::of(ranges)))?))
        }
        None => Ok(None),
    }
}

// What D and -D take of the characters, if these are known.
fn deleted_character(
    alloc: Global,
    unit: Unit,
    ranged: bool,
    pending: Pending,
    characters: Characters,
) -> Result<Option<Vec<Change>>, AllocError>
    ensures { IfOk result (λ told. option_map (λ changes. changes.items) told
        ≡ model.deleted_character unit ranged pending characters) }
{
    match (unit, ranged, pending) {
        (Unit::Characters, false, Pending::Empty) => taken_of(alloc, characters.at),
        (Unit::Characters, false, Pending::Negative) => taken_of(alloc, characters.before),
        _ => Ok(None),
    }
}

/// What D and K take of what is near, if that is known.
pub(crate) fn deleted_near(
    alloc: Global,
    unit: Unit,
    ranged: bool,
    near: Nearby<'_>,
) -> Result<Option<Vec<Change>>, AllocError>
    ensures { IfOk result (λ told. option_map (λ changes. changes.items) told
        ≡ model.deleted_near unit ranged (near_seen near.entry)) }
{
    let Nearby::Known(found, pending, characters) = near else {
        return Ok(None);
    };
    match deleted_last(alloc, unit, ranged, found, pending)? {
        Some(changes) => Ok(Some(changes)),
        None => deleted_character(alloc, unit, ranged, pending, characters),
    }
}
