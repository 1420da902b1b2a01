//! What a single change is like.
ghost use Rattle.std.specs.Prelude.{ℕ, IsTrue, List};
ghost use Rattle.teco_changes.specs.Changes.{AreOneOf, IsMatch};
ghost use Rattle.teco_change_policies.specs.Laws.{KeepsLineEnds, PutsNothing, PutsOnly, Seeks, Swaps};
ghost use Rattle.teco_change_policies.specs.Laws.{TakesNothing, TakesOnly};
ghost use Rattle.teco_change_policies.specs.Laws.{IsWithinLine, PutsWhat, TakesWhat};

use crate::pieces::{
    are_one_of, class_is_among, class_is_within_line, have_each_case, is_plain, is_within_line,
};
use crate::simple::is_simple;
use teco_changes::Change;

// What a number is written with.
pub(crate) const NUMERAL: &[u8] = b"-0123456789";

// Does a change take nothing?
pub(crate) fn takes_nothing(change: &Change) -> bool
    ensures { IsTrue result → TakesNothing change.now }
{
    match change {
        Change::Puts(_) | Change::PutsNumber | Change::PutsByte | Change::PutsText(_) => true,
        Change::Takes(_) | Change::TakesMatch(_) | Change::TakesAny | Change::Swaps(_, _) => false,
    }
}

// Does a change put nothing?
pub(crate) fn puts_nothing(change: &Change) -> bool
    ensures { IsTrue result → PutsNothing change.now }
{
    match change {
        Change::Puts(text) | Change::Swaps(_, text) => text.as_slice().is_empty(),
        Change::PutsNumber | Change::PutsByte | Change::PutsText(_) => false,
        Change::Takes(_) | Change::TakesMatch(_) | Change::TakesAny => true,
    }
}

// Has each match of a search text only these characters?
fn matches_are_of(characters: &[u8], wanted: &[u8]) -> bool
    ensures { IsTrue result → (taken : List ℕ) → IsMatch wanted.now taken → AreOneOf characters.now taken }
{
    is_plain(wanted) && have_each_case(characters, wanted)
}

// Does a change take only these characters?
pub(crate) fn takes_only(characters: &[u8], change: &Change) -> bool
    ensures { IsTrue result → TakesOnly characters.now change.now }
{
    match change {
        Change::Puts(_) | Change::PutsNumber | Change::PutsByte | Change::PutsText(_) => true,
        Change::Takes(class) => class_is_among(characters, class.as_slice()),
        Change::TakesMatch(wanted) | Change::Swaps(wanted, _) => {
            matches_are_of(characters, wanted.as_slice())
        }
        Change::TakesAny => false,
    }
}

// Does a change put only these characters?
pub(crate) fn puts_only(characters: &[u8], change: &Change) -> bool
    ensures { IsTrue result → PutsOnly characters.now change.now }
{
    match change {
        Change::Puts(text) | Change::Swaps(_, text) => are_one_of(characters, text.as_slice()),
        Change::PutsNumber => are_one_of(characters, NUMERAL),
        Change::PutsByte | Change::PutsText(_) => false,
        Change::Takes(_) | Change::TakesMatch(_) | Change::TakesAny => true,
    }
}

// Has no match of a search text a line end?
fn matches_are_within_line(wanted: &[u8]) -> bool
    ensures { IsTrue result → (taken : List ℕ) → IsMatch wanted.now taken → IsWithinLine taken }
{
    is_simple(wanted) && is_within_line(wanted)
}

// Does a change take no line end?
fn takes_within_line(change: &Change) -> bool
    ensures { IsTrue result → TakesWhat IsWithinLine change.now }
{
    match change {
        Change::Puts(_) | Change::PutsNumber | Change::PutsByte | Change::PutsText(_) => true,
        Change::Takes(class) => class_is_within_line(class.as_slice()),
        Change::TakesMatch(wanted) => matches_are_within_line(wanted.as_slice()),
        Change::TakesAny => false,
        Change::Swaps(wanted, _) => matches_are_within_line(wanted.as_slice()),
    }
}

// Does it put none?
fn puts_within_line(change: &Change) -> bool
    ensures { IsTrue result → PutsWhat IsWithinLine change.now }
{
    match change {
        Change::Puts(text) | Change::Swaps(_, text) => is_within_line(text.as_slice()),
        Change::PutsByte | Change::PutsText(_) => false,
        Change::PutsNumber | Change::Takes(_) | Change::TakesMatch(_) | Change::TakesAny => true,
    }
}

// Does a change neither take nor put a line end?
pub(crate) fn keeps_line_ends(change: &Change) -> bool
    ensures { IsTrue result → KeepsLineEnds change.now }
{
    takes_within_line(change) && puts_within_line(change)
}

// Does a change put some characters in the stead of a match?
#[tactic(auto, using(teco_changes::proofs::Matches::match_is_some))]
fn swaps(change: &Change) -> bool
    ensures { IsTrue result → Swaps change.now }
{
    match change {
        Change::Swaps(_, text) => !text.as_slice().is_empty(),
        Change::Puts(_) | Change::PutsNumber | Change::PutsByte | Change::PutsText(_) => false,
        Change::Takes(_) | Change::TakesMatch(_) | Change::TakesAny => false,
    }
}

// Does a change take nothing but matches of this search text?
pub(crate) fn seeks(wanted: &[u8], change: &Change) -> bool
    ensures { IsTrue result → Seeks wanted.now change.now }
{
    match change {
        Change::TakesMatch(text) | Change::Swaps(text, _) => text.as_slice() == wanted,
        Change::Puts(_) | Change::PutsNumber | Change::PutsByte | Change::PutsText(_) => false,
        Change::Takes(_) | Change::TakesAny => false,
    }
}

// Does it do so, and neither takes nor puts a line end?
pub(crate) fn swaps_within_line(change: &Change) -> bool
    ensures keeps { IsTrue result → KeepsLineEnds change.now }
    ensures swaps { IsTrue result → Swaps change.now }
{
    keeps_line_ends(change) && swaps(change)
}
