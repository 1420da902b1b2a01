//! The characters of pieces and of classes.
ghost use Rattle.std.specs.Prelude.{◌≡◌, ◌≤◌, ℕ, false, All, IsTrue};
ghost use Rattle.teco_base.specs.Bytes.{is_line_end};
ghost use Rattle.teco_changes.specs.Changes.{AreOneOf, is_of_class};
ghost use Rattle.teco_change_policies.specs.Laws.{IsWithinLine};
ghost use Rattle.teco_change_policies.specs.Plain.{IsOfEach};
ghost use Rattle.teco_changes.specs.Plain.{IsPlain, is_sign};
ghost use Rattle.teco_policy.specs.Subsequences.{is_one_of};

use teco_base::bytes;
use teco_changes::Range;

// Is a character one of these?
pub(crate) fn has(characters: &[u8], b: u8) -> bool
    ensures { result ≡ is_one_of characters.now b }
{
    characters.contains(&b)
}

// Is each character of a text one of these?
pub(crate) fn are_one_of(characters: &[u8], text: &[u8]) -> bool
    ensures { IsTrue result → AreOneOf characters.now text.now }
{
    text.iter().all(|b| has(characters, *b))
}

// Has a text no line end?
pub(crate) fn is_within_line(text: &[u8]) -> bool
    ensures { IsTrue result → IsWithinLine text.now }
{
    text.iter().all(|b| !bytes::is_line_end(*b))
}

/// Does a byte of a search text begin more than itself: a caret, a class, a register?
pub fn begins_more(b: u8) -> bool
    ensures { result ≡ is_sign b }
{
    matches!(b, 5 | 14 | 17 | 19 | 24 | b'^')
}

// Is each byte of a search text a character that is looked for?
pub(crate) fn is_plain(text: &[u8]) -> bool
    ensures { IsTrue result → IsPlain text.now }
{
    text.iter().all(|b| !begins_more(*b))
}

// Is a character of a class?
pub(crate) fn class_has(ranges: &[Range], b: u8) -> bool
    ensures { result ≡ is_of_class ranges.now b }
{
    ranges
        .iter()
        .any(|range| range.first <= b && b <= range.last)
}

// Is a character one of these, or a letter whose other case is?
pub(crate) fn has_in_either_case(characters: &[u8], b: u8) -> bool {
    characters
        .iter()
        .any(|c| bytes::to_upper(*c) == bytes::to_upper(b))
}

// Are a character and, of a letter, its other case among these?
#[tactic(auto, using(crate::proofs::Cases::of_either_case))]
fn has_each_case(characters: &[u8], b: u8) -> bool
    ensures { IsTrue result → IsOfEach characters.now b }
{
    let upper = bytes::to_upper(b);
    has(characters, b)
        && (!bytes::is_letter(b) || has(characters, upper) && has(characters, upper + 32))
}

// Are the characters of a text, in either case, all among these?
pub(crate) fn have_each_case(characters: &[u8], text: &[u8]) -> bool
    ensures { IsTrue result → All (λ b. IsOfEach characters.now b) text.now }
{
    text.iter().all(|b| has_each_case(characters, *b))
}

// Has a class no line end?
#[tactic(auto, using(crate::proofs::Characters::no_end_of_class))]
pub(crate) fn class_is_within_line(ranges: &[Range]) -> bool
    ensures { IsTrue result → (b : ℕ) → IsTrue (is_of_class ranges.now b) → is_line_end b ≡ false }
{
    !class_has(ranges, bytes::LF) && !class_has(ranges, bytes::VT) && !class_has(ranges, bytes::FF)
}

// Is each character of a range one of these?
fn range_is_among(characters: &[u8], range: Range) -> bool
    ensures { IsTrue result → (b : ℕ) → range.first ≤ b → b ≤ range.last → IsTrue (is_one_of characters.now b) }
{
    for b in range.first..=range.last {
        if !has(characters, b) {
            return false;
        }
    }
    true
}

// Is each character of a class one of these?
#[tactic(auto, using(crate::proofs::Characters::class_among))]
pub(crate) fn class_is_among(characters: &[u8], ranges: &[Range]) -> bool
    ensures { IsTrue result → (b : ℕ) → IsTrue (is_of_class ranges.now b) → IsTrue (is_one_of characters.now b) }
{
    for range in ranges {
        if !range_is_among(characters, *range) {
            return false;
        }
    }
    true
}
