//! The characters that changes can put and take, at most.
use crate::pieces::{class_has, has, has_in_either_case};
use crate::single::NUMERAL;
use std::alloc::{AllocError, Global};
use teco_changes::Change;

// Can a change put a character?
fn can_put(change: &Change, b: u8) -> bool {
    match change {
        Change::Puts(text) | Change::Swaps(_, text) => has(text.as_slice(), b),
        Change::PutsNumber => has(NUMERAL, b),
        Change::PutsByte | Change::PutsText(_) => true,
        Change::Takes(_) | Change::TakesMatch(_) | Change::TakesAny => false,
    }
}

// Can it take one?
fn can_take(change: &Change, b: u8) -> bool {
    match change {
        Change::Puts(_) | Change::PutsNumber | Change::PutsByte | Change::PutsText(_) => false,
        Change::Takes(class) => class_has(class.as_slice(), b),
        Change::TakesMatch(wanted) | Change::Swaps(wanted, _) => has_in_either_case(
            wanted.as_slice(),
            b,
        ),
        Change::TakesAny => true,
    }
}

// The characters that changes can put, in rising order.
pub(crate) fn characters_put(alloc: Global, changes: &[Change]) -> Result<Vec<u8>, AllocError> {
    let mut characters = Vec::new(alloc);
    for b in 0..=u8::MAX {
        if changes.iter().any(|change| can_put(change, b)) {
            characters.push(b)?;
        }
    }
    Ok(characters)
}

// The characters that changes can take, in rising order.
pub(crate) fn characters_taken(alloc: Global, changes: &[Change]) -> Result<Vec<u8>, AllocError> {
    let mut characters = Vec::new(alloc);
    for b in 0..=u8::MAX {
        if changes.iter().any(|change| can_take(change, b)) {
            characters.push(b)?;
        }
    }
    Ok(characters)
}
