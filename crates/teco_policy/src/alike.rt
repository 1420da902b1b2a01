//! Whether two lines are alike.
ghost use Rattle.std.specs.Prelude.{◌≡◌, ◌⊎◌, ◌↔◌, IsTrue};
ghost use Rattle.teco_policy.specs.Lines.{EndAlike, body};
ghost use Rattle.teco_policy.specs.Walks.{Alike, IsLine, line_of};
ghost use Rattle.teco_policy.specs.Wordings.{IsFoundIn};

use crate::lines::FirstLine;
use crate::search_text::SearchText;

// What lines that stand at the same place must have in common.
#[derive(Clone, Copy)]
pub(crate) enum Rule<'a> {
    // They end alike.
    Ends,
    // They are the same.
    Same,
    // They end alike, and are the same unless this is found in the first.
    Others(&'a SearchText),
}

// Are two texts the same?
pub(crate) fn are_equal(a: &[u8], b: &[u8]) -> bool
    ensures { IsTrue result ↔ (a.now ≡ b.now) }
{
    a == b
}

// Do two lines end alike?
#[tactic(auto, using(crate::proofs::LinesAlike::end_alike))]
fn end_alike(line: FirstLine<'_>, other: FirstLine<'_>) -> bool
    requires line { IsLine line }
    requires other { IsLine other }
    ensures { IsTrue result ↔ EndAlike (line_of line.entry) (line_of other.entry) }
{
    are_equal(line.end, other.end)
}

// Are both parts of two lines the same?
fn parts_are_same(line: FirstLine<'_>, other: FirstLine<'_>) -> bool
    ensures { IsTrue result
        ↔ ((line.entry.body.now ≡ other.entry.body.now) × (line.entry.end.now ≡ other.entry.end.now)) }
{
    are_equal(line.body, other.body) && are_equal(line.end, other.end)
}

// Are two lines the same?
#[tactic(auto, using(crate::proofs::LinesAlike::same_line))]
fn are_same(line: FirstLine<'_>, other: FirstLine<'_>) -> bool
    requires line { IsLine line }
    requires other { IsLine other }
    ensures { IsTrue result ↔ (line_of line.entry ≡ line_of other.entry) }
{
    parts_are_same(line, other)
}

// Is a search text found in a line?
#[tactic(auto, using(crate::proofs::LinesAlike::found_in))]
fn is_found(search: &SearchText, line: FirstLine<'_>) -> bool
    requires line { IsLine line }
    ensures { IsTrue result ↔ IsFoundIn search.now (body (line_of line.entry)) }
{
    search.is_found_in(line.body)
}

// Are two lines the same, or is a search text found in the first?
fn is_same_or_found(search: &SearchText, line: FirstLine<'_>, other: FirstLine<'_>) -> bool
    requires line { IsLine line }
    requires other { IsLine other }
    ensures { IsTrue result
        ↔ ((line_of line.entry ≡ line_of other.entry) ⊎ IsFoundIn search.now (body (line_of line.entry))) }
{
    are_same(line, other) || is_found(search, line)
}

// Are two lines alike?
pub(crate) fn are_alike(rule: Rule<'_>, line: FirstLine<'_>, other: FirstLine<'_>) -> bool
    requires line { IsLine line }
    requires other { IsLine other }
    ensures { IsTrue result ↔ Alike rule.entry (line_of line.entry) (line_of other.entry) }
{
    match rule {
        Rule::Ends => end_alike(line, other),
        Rule::Same => are_same(line, other),
        Rule::Others(search) => end_alike(line, other) && is_same_or_found(search, line, other),
    }
}
