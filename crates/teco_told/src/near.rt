//! What is known near the pointer.
ghost use Rattle.std.specs.Prelude.{◌≡◌, ℕ, Option, Some, IsTrue};
ghost use Rattle.teco_told.specs.Seen.{ImpliesFound, ImpliesPending, found_seen, near_seen};
ghost use Rattle.teco_changes.specs.Characters.{AreWithin, IsWithin, unknown};
ghost use Rattle.teco_changes.specs.Nearby.{ImpliesNear};
ghost use Rattle.teco_model.specs.State.{Kept};

use teco_changes::{Characters, Pending, Range, Side};

/// Whether the text before the pointer is a match of a search text, which is borrowed from the macro.
#[derive(Clone, Copy)]
pub(crate) enum Found<'l> {
    /// Nothing is known.
    Nothing,
    /// It is, unless the pending value is 0.
    Perhaps(&'l [u8]),
    /// It is.
    Surely(&'l [u8]),
}

/// That, what is pending, and which characters stand at the pointer and before it.
#[derive(Clone, Copy)]
pub(crate) enum Nearby<'l> {
    /// No run comes there.
    Unreached,
    /// So much is known.
    Known(Found<'l>, Pending, Characters),
}

/// Of no character anything is known.
pub(crate) fn no_characters() -> Characters
    ensures { result ≡ unknown }
{
    Characters {
        at: None,
        before: None,
    }
}

// Is all that is known of what was found known of the other?
fn implies_found<'l>(one: Found<'l>, other: Found<'l>) -> bool
    ensures { IsTrue result → ImpliesFound (found_seen one.entry) (found_seen other.entry) }
{
    match (one, other) {
        (_, Found::Nothing) => true,
        (Found::Perhaps(a), Found::Perhaps(b)) => a == b,
        (Found::Surely(a), Found::Surely(b)) => a == b,
        _ => false,
    }
}

// Are they the same side?
fn is_same(one: Side, other: Side) -> bool
    ensures { IsTrue result → one ≡ other }
{
    matches!(
        (one, other),
        (Side::At, Side::At) | (Side::Before, Side::Before)
    )
}

// Are the characters of a range of the other?
fn is_wider(other: Range, one: Range) -> bool
    ensures { IsTrue result → (character : Option ℕ) → IsWithin (Some one) character → IsWithin (Some other) character }
{
    other.first <= one.first && one.last <= other.last
}

// Is all that is known of a character known of the other?
fn is_implied(one: Option<Range>, other: Option<Range>) -> bool
    ensures { IsTrue result → (character : Option ℕ) → IsWithin one character → IsWithin other character }
{
    match (one, other) {
        (_, None) => true,
        (Some(a), Some(b)) => is_wider(b, a),
        (None, Some(_)) => false,
    }
}

// Of both?
fn are_implied(one: Characters, other: Characters) -> bool
    ensures { IsTrue result → (kept : Kept) → AreWithin one kept → AreWithin other kept }
{
    is_implied(one.at, other.at) && is_implied(one.before, other.before)
}

// What is known where a character is of either range.
fn joined_range(one: Option<Range>, other: Option<Range>) -> Option<Range> {
    match (one, other) {
        (Some(a), Some(b)) => Some(Range {
            first: a.first.min(b.first),
            last: a.last.max(b.last),
        }),
        _ => None,
    }
}

fn joined_characters(one: Characters, other: Characters) -> Characters {
    Characters {
        at: joined_range(one.at, other.at),
        before: joined_range(one.before, other.before),
    }
}

// Is all that is known of what is pending?
fn implies_pending(one: Pending, other: Pending) -> bool
    ensures { IsTrue result → ImpliesPending one other }
{
    match (one, other) {
        (_, Pending::Anything) => true,
        (Pending::Empty, Pending::Empty) => true,
        (Pending::Negative, Pending::Negative) => true,
        (Pending::Number(n), Pending::Number(m)) => n == m,
        (Pending::Length, Pending::Length) => true,
        (Pending::Place, Pending::Place) => true,
        (Pending::Asked(a), Pending::Asked(b)) => is_same(a, b),
        (Pending::AskedMinus(a), Pending::AskedMinus(b)) => is_same(a, b),
        (Pending::AskedLess(a, n), Pending::AskedLess(b, m)) => is_same(a, b) && n == m,
        _ => false,
    }
}

/// Is all that is known of one known of the other? `false` where it is not.
#[tactic(auto, using(crate::proofs::NearTables::all_implied))]
pub(crate) fn implies_near<'l>(one: Nearby<'l>, other: Nearby<'l>) -> bool
    ensures { IsTrue result → ImpliesNear (near_seen one.entry) (near_seen other.entry) }
{
    match (one, other) {
        (Nearby::Unreached, _) => true,
        (Nearby::Known(found, pending, characters), Nearby::Known(f, p, c)) => {
            implies_found(found, f) && implies_pending(pending, p) && are_implied(characters, c)
        }
        (Nearby::Known(_, _, _), Nearby::Unreached) => false,
    }
}

// What is known where either was found.
fn joined_found<'l>(one: Found<'l>, other: Found<'l>) -> Found<'l> {
    if implies_found(one, other) {
        other
    } else {
        Found::Nothing
    }
}

// What is known where either is pending.
fn joined_pending(one: Pending, other: Pending) -> Pending {
    if implies_pending(one, other) {
        other
    } else {
        Pending::Anything
    }
}

/// What is known where both may be so.
pub(crate) fn joined_near<'l>(one: Nearby<'l>, other: Nearby<'l>) -> Nearby<'l> {
    match (one, other) {
        (Nearby::Unreached, near) | (near, Nearby::Unreached) => near,
        (Nearby::Known(found, pending, characters), Nearby::Known(f, p, c)) => Nearby::Known(
            joined_found(found, f),
            joined_pending(pending, p),
            joined_characters(characters, c),
        ),
    }
}
