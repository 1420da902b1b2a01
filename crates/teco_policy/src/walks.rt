//! Two texts, gone through line by line as long as their lines are alike.
ghost use Rattle.std.specs.Prelude.{◌≡◌, ◌↔◌, ◌≤◌, ◌<◌, length, MatchOption, IfSome, IsTrue};
ghost use Rattle.std.specs.List.{AllZip};
ghost use Rattle.teco_policy.specs.Lines.{IsFirstUnlike, lines};
ghost use Rattle.teco_policy.specs.Walks.{Alike, BeginAlike, DoNotBeginAlike, Walks};

use crate::alike::{Rule, are_alike};
use crate::lines::first_lines;

// How many lines are alike at the front of two texts, and what is left of each.
#[derive(Clone, Copy)]
pub(crate) struct Walked<'a> {
    pub(crate) count: usize,
    pub(crate) old: &'a [u8],
    pub(crate) new: &'a [u8],
}

// What is left of two texts behind their first lines, if these are alike.
#[tactic(auto, using(crate::proofs::Walking::beginning))]
fn next_alike<'a>(rule: Rule<'_>, old: &'a [u8], new: &'a [u8]) -> Option<(&'a [u8], &'a [u8])>
    ensures rests { MatchOption result (DoNotBeginAlike (Alike rule.entry) (lines old.now) (lines new.now))
        (λ rest. BeginAlike (Alike rule.entry) (lines old.now) (lines new.now) (lines rest.0.now) (lines rest.1.now)) }
    ensures shorter { IfSome result (λ rest. length rest.0.now < length old.now) }
{
    let (a, b) = first_lines(old, new)?;
    if are_alike(rule, a, b) {
        Some((a.rest, b.rest))
    } else {
        None
    }
}

// Goes on as long as the lines are alike.
#[tactic(auto, using(crate::proofs::Walking::begun, crate::proofs::Walking::goes_on))]
pub(crate) fn walk<'a>(rule: Rule<'_>, old: &'a [u8], new: &'a [u8]) -> Walked<'a>
    ensures walks { Walks rule.entry old.now new.now result }
    ensures few { result.count ≤ length old.now }
{
    let mut walked = Walked { count: 0, old, new };
    while let Some((a, b)) = next_alike(rule, walked.old, walked.new) {
        walked = Walked {
            count: walked.count + 1,
            old: a,
            new: b,
        };
    }
    walked
}

// Are two texts empty?
fn are_empty(old: &[u8], new: &[u8]) -> bool
    ensures { IsTrue result ↔ ((length old.now ≡ 0) × (length new.now ≡ 0)) }
{
    old.is_empty() && new.is_empty()
}

// The number of the first line that is not like the other at its place, or has none.
#[tactic(auto, using(crate::proofs::Walking::all_walked, crate::proofs::Walking::first_walked))]
pub(crate) fn first_unlike(rule: Rule<'_>, old: &[u8], new: &[u8]) -> Option<usize>
    ensures { MatchOption result (AllZip (Alike rule.entry) (lines old.now) (lines new.now))
        (IsFirstUnlike (Alike rule.entry) (lines old.now) (lines new.now)) }
{
    let walked = walk(rule, old, new);
    if are_empty(walked.old, walked.new) {
        None
    } else {
        Some(walked.count + 1)
    }
}
