//! Where a policy is broken.
ghost use Rattle.std.specs.Prelude.{◌≡◌, ◌≢◌, ◌↔◌, ◌≤◌, ◌<◌, ℕ, length, MatchOption};
ghost use Rattle.std.specs.List.{AllZip};
ghost use Rattle.teco_policy.specs.Lines.{ChangesAtMost, lines};
ghost use Rattle.teco_policy.specs.Policies.{IsAdded, IsChangedTooMuch, IsOutsideAt, IsResized, IsTaken};
ghost use Rattle.teco_policy.specs.Policies.{IsUnlikeLine, Tells, line_number};
ghost use Rattle.teco_policy.specs.Subsequences.{IsWithin};
ghost use Rattle.teco_policy.specs.Walks.{Alike};

use crate::alike::Rule;
use crate::changes::changed_lines;
use crate::subsequence::first_outside;
use crate::walks::first_unlike;
use teco_base::bytes::is_line_end;

/// A place of a text: the byte, and the number of its line, from 1 on.
#[derive(Clone, Copy, PartialEq)]
pub struct Place {
    pub at: usize,
    pub line: usize,
}

/// The first place at which a policy is broken.
#[derive(Clone, Copy, PartialEq)]
pub enum Breach {
    /// This byte of the old text is not in the new one.
    Taken(Place),
    /// This byte of the new text was not in the old one.
    Added(Place),
    /// The new text is longer or shorter.
    Resized,
    /// The line of this number, from 1 on, is not as it must be, or is in one of the texts alone.
    Line(usize),
    /// This many lines are changed.
    Changed(usize),
}

// The number of the line that a place is in.
fn line_of(text: &[u8], at: usize) -> usize
    requires { at < length text.now }
    ensures { result ≡ line_number text.now at }
{
    text[..at].iter().filter(|b| is_line_end(**b)).count() + 1
}

// The first byte that has no place in the other text, besides some, with its line.
fn outside(besides: &[u8], part: &[u8], whole: &[u8]) -> Option<Place>
    ensures { MatchOption result (IsWithin besides.now part.now whole.now)
        (IsOutsideAt besides.now part.now whole.now) }
{
    let at = first_outside(besides, part, whole)?;
    Some(Place {
        at,
        line: line_of(part, at),
    })
}

// The first byte that is taken, besides some.
#[tactic(auto, using(crate::proofs::Deciding::not_within))]
pub(crate) fn taken(besides: &[u8], old: &[u8], new: &[u8]) -> Option<Breach>
    ensures { Tells (IsWithin besides.now old.now new.now) (IsTaken besides.now old.now new.now) result }
{
    Some(Breach::Taken(outside(besides, old, new)?))
}

// The first byte that is added, besides some.
#[tactic(auto, using(crate::proofs::Deciding::not_within))]
pub(crate) fn added(besides: &[u8], old: &[u8], new: &[u8]) -> Option<Breach>
    ensures { Tells (IsWithin besides.now new.now old.now) (IsAdded besides.now old.now new.now) result }
{
    Some(Breach::Added(outside(besides, new, old)?))
}

// Whether the length has changed.
pub(crate) fn resized(old: &[u8], new: &[u8]) -> Option<Breach>
    ensures { Tells (length new.now ≡ length old.now) (IsResized old.now new.now) result }
{
    if old.len() == new.len() {
        None
    } else {
        Some(Breach::Resized)
    }
}

// The first line that is not like the one at its place.
#[tactic(auto, using(crate::proofs::Walking::not_all_alike))]
pub(crate) fn unlike_line(rule: Rule<'_>, old: &[u8], new: &[u8]) -> Option<Breach>
    ensures { Tells (AllZip (Alike rule.entry) (lines old.now) (lines new.now))
        (IsUnlikeLine (Alike rule.entry) old.now new.now) result }
{
    Some(Breach::Line(first_unlike(rule, old, new)?))
}

// How many lines are changed, if there are more than so many.
#[tactic(auto, using(crate::proofs::Deciding::few_enough, crate::proofs::Deciding::too_many))]
pub(crate) fn changed_too_much(most: usize, old: &[u8], new: &[u8]) -> Option<Breach>
    ensures { Tells (ChangesAtMost most (lines old.now) (lines new.now))
        (IsChangedTooMuch most old.now new.now) result }
{
    let count = changed_lines(old, new);
    if count <= most {
        None
    } else {
        Some(Breach::Changed(count))
    }
}
