//! Search texts that changes take matches of.
ghost use Rattle.std.specs.Prelude.{All, Contains, IsTrue};
ghost use Rattle.teco_change_policies.specs.Laws.{SeeksOne};
ghost use Rattle.teco_change_policies.specs.Simple.{IsSimple};

use crate::simple::is_simple;
use std::alloc::{AllocError, Global};
use teco_changes::{Change, Text};

// Is a search text one of some?
fn is_sought(wanted: &[Text], text: &Text) -> bool
    ensures { IsTrue result → Contains wanted.now text.now }
{
    for sought in wanted {
        if sought.as_slice() == text.as_slice() {
            return true;
        }
    }
    false
}

/// Does a change take nothing but matches of one of these search texts?
pub(crate) fn seeks_one(wanted: &[Text], change: &Change) -> bool
    ensures { IsTrue result → SeeksOne wanted.now change.now }
{
    match change {
        Change::TakesMatch(text) | Change::Swaps(text, _) => is_sought(wanted, text),
        Change::Puts(_) | Change::PutsNumber | Change::PutsByte | Change::PutsText(_) => false,
        Change::Takes(_) | Change::TakesAny => false,
    }
}

/// Are they made of characters that are looked for and of ^ES?
pub(crate) fn are_simple(wanted: &[Text]) -> bool
    ensures { IsTrue result → All IsSimple wanted.now }
{
    for text in wanted {
        if !is_simple(text.as_slice()) {
            return false;
        }
    }
    true
}

// Adds a search text, if it is none of these.
fn add(alloc: Global, wanted: &mut Vec<Text>, text: &Text) -> Result<(), AllocError> {
    if is_sought(wanted.as_slice(), text) {
        return Ok(());
    }
    let mut copy = Vec::new(alloc);
    copy.extend_from_slice(text.as_slice())?;
    wanted.push(Text::of(copy))?;
    Ok(())
}

/// The search texts that changes take matches of, each once.
pub(crate) fn search_texts(alloc: Global, changes: &[Change]) -> Result<Vec<Text>, AllocError> {
    let mut wanted = Vec::new(alloc);
    for change in changes {
        match change {
            Change::TakesMatch(text) | Change::Swaps(text, _) => add(alloc, &mut wanted, text)?,
            Change::Puts(_) | Change::PutsNumber | Change::PutsByte | Change::PutsText(_) => {}
            Change::Takes(_) | Change::TakesAny => {}
        }
    }
    Ok(wanted)
}
