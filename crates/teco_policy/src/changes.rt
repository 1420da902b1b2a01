//! How many lines of a text are changed in another.
ghost use Rattle.std.specs.Prelude.{◌≡◌, ◌↔◌, ◌≤◌, ◌<◌, ℕ, length, MatchOption, IfSome};
ghost use Rattle.teco_policy.specs.Lines.{ChangesAtMost, DifferAtMost, StandBetween, lines};
ghost use Rattle.teco_policy.specs.Walks.{Counts, EndTheSame, EndUnlike, IsLine, IsWithoutEnd, line_of};

use crate::alike::{Rule, are_alike, are_equal};
use crate::lines::{FirstLine, first_lines, last_line, line_count};
use crate::walks::walk;

// One if two lines differ.
#[tactic(auto, using(crate::proofs::Differences::counts_none, crate::proofs::Differences::counts_one))]
fn change_of(line: FirstLine<'_>, other: FirstLine<'_>) -> usize
    requires line { IsLine line }
    requires other { IsLine other }
    ensures counts { Counts (line_of line.entry) (line_of other.entry) result }
    ensures few { result ≤ 1 }
{
    if are_alike(Rule::Same, line, other) {
        0
    } else {
        1
    }
}

// How many lines differ from the one at the same place.
#[tactic(auto, using(crate::proofs::Differences::counting))]
fn changed_places(old: &[u8], new: &[u8]) -> usize
    requires as_many { length (lines old.now) ≡ length (lines new.now) }
    ensures { (n : ℕ) → DifferAtMost n (lines old.now) (lines new.now) ↔ result ≤ n }
{
    let mut count = 0;
    let mut rest = (old, new);
    while let Some((a, b)) = first_lines(rest.0, rest.1) {
        count += change_of(a, b);
        rest = (a.rest, b.rest);
    }
    count
}

// What is left of two texts before their last lines, if these are the same.
#[tactic(auto, using(crate::proofs::Differences::ending))]
fn before_same_end<'a>(old: &'a [u8], new: &'a [u8]) -> Option<(&'a [u8], &'a [u8])>
    ensures fronts { MatchOption result (EndUnlike (lines old.now) (lines new.now))
        (λ front. EndTheSame (lines old.now) (lines new.now) (lines front.0.now) (lines front.1.now)) }
    ensures shorter { IfSome result (λ front. length front.0.now < length old.now) }
{
    let a = last_line(old)?;
    let b = last_line(new)?;
    if are_equal(a.line, b.line) {
        Some((a.front, b.front))
    } else {
        None
    }
}

// How many lines of the first text are left when the common end of both is taken away.
#[tactic(auto, using(crate::proofs::Differences::common))]
fn left_without_end(old: &[u8], new: &[u8]) -> usize
    ensures { IsWithoutEnd (lines old.now) (lines new.now) result }
{
    let mut rest = (old, new);
    while let Some(front) = before_same_end(rest.0, rest.1) {
        rest = front;
    }
    line_count(rest.0)
}

// How many lines of the old text stand between the common front and the common end.
#[tactic(auto, using(crate::proofs::Differences::between_counted))]
fn changed_between(old: &[u8], new: &[u8]) -> usize
    ensures { (n : ℕ) → StandBetween n (lines old.now) (lines new.now) ↔ result ≤ n }
{
    let rest = walk(Rule::Same, old, new);
    left_without_end(rest.old, rest.new)
}

// How many lines are changed: each at its place where there are as many as before, and otherwise
// those between what both texts begin and end with.
#[tactic(auto, using(crate::proofs::Differences::changes_at_places, crate::proofs::Differences::changes_between))]
pub(crate) fn changed_lines(old: &[u8], new: &[u8]) -> usize
    ensures { (n : ℕ) → ChangesAtMost n (lines old.now) (lines new.now) ↔ result ≤ n }
{
    if line_count(old) == line_count(new) {
        changed_places(old, new)
    } else {
        changed_between(old, new)
    }
}
