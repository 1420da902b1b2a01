//! Changes that are the same.
ghost use Rattle.std.specs.Prelude.{◌≡◌, IsTrue, Contains};

use teco_changes::{Change, Range, Text};

// Are they the same text?
fn same_text(one: &Text, other: &Text) -> bool
    ensures { IsTrue result → one.now ≡ other.now }
{
    one.as_slice() == other.as_slice()
}

// Are they the same ranges?
fn same_ranges(one: &[Range], other: &[Range]) -> bool
    ensures { IsTrue result → one.now ≡ other.now }
{
    match (one, other) {
        ([a], [b]) => a.first == b.first && a.last == b.last,
        _ => false,
    }
}

/// Are they the same change? `false` where that is not known, as of long classes.
pub(crate) fn same(one: &Change, other: &Change) -> bool
    ensures { IsTrue result → one.now ≡ other.now }
{
    match (one, other) {
        (Change::Puts(a), Change::Puts(b)) => same_text(a, b),
        (Change::PutsNumber, Change::PutsNumber) => true,
        (Change::PutsByte, Change::PutsByte) => true,
        (Change::PutsText(a), Change::PutsText(b)) => a.index() == b.index(),
        (Change::Takes(a), Change::Takes(b)) => same_ranges(a.as_slice(), b.as_slice()),
        (Change::TakesMatch(a), Change::TakesMatch(b)) => same_text(a, b),
        (Change::TakesAny, Change::TakesAny) => true,
        (Change::Swaps(a, x), Change::Swaps(b, y)) => same_text(a, b) && same_text(x, y),
        _ => false,
    }
}

/// Is a change of a list?
pub(crate) fn is_listed(changes: &[Change], change: &Change) -> bool
    ensures { IsTrue result → Contains changes.now change.now }
{
    for listed in changes {
        if same(listed, change) {
            return true;
        }
    }
    false
}
