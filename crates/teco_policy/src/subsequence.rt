//! Texts that are got from others by leaving out characters.
ghost use Rattle.std.specs.Prelude.{List, ℕ, ◌∷◌, ◌↔◌, ◌<◌, ◌≤◌, length, MatchOption, IsTrue};
ghost use Rattle.memchr.specs.Find.{IsFirstByte, is_byte};
ghost use Rattle.teco_policy.specs.Subsequences.{IsFirstOutside, IsWithin};

use memchr::memchr;

// The first place of a byte. Mostly that is the front, which needs no search.
#[tactic(auto, using(crate::proofs::Subsequences::at_front))]
fn place_of(byte: u8, text: &[u8]) -> Option<usize>
    ensures { IsFirstByte (is_byte byte) text.now result }
{
    if !text.is_empty() && text[0] == byte {
        return Some(0);
    }
    memchr(byte, text)
}

// What is left of a text behind the first place of a byte; all of it, where the byte is one of those
// that need none.
fn rest_behind<'a>(byte: u8, besides: &[u8], whole: &'a [u8]) -> Option<&'a [u8]>
    ensures { (part : List ℕ) → MatchOption result (IsWithin besides.now (byte ∷ part) whole.now → ⊥)
        (λ rest. IsWithin besides.now (byte ∷ part) whole.now ↔ IsWithin besides.now part rest.now) }
{
    if besides.contains(&byte) {
        return Some(whole);
    }
    let place = place_of(byte, whole)?;
    Some(&whole[place + 1..])
}

// The place of the first byte that has none in the other text, in turn and besides some.
pub(crate) fn first_outside(besides: &[u8], part: &[u8], whole: &[u8]) -> Option<usize>
    ensures first { MatchOption result (IsWithin besides.now part.now whole.now)
        (IsFirstOutside besides.now part.now whole.now) }
    ensures within { MatchOption result (Unit {0}) (λ at. at < length part.now) }
{
    let mut rest = whole;
    for (at, byte) in part.iter().enumerate() {
        match rest_behind(*byte, besides, rest) {
            Some(behind) => rest = behind,
            None => return Some(at),
        }
    }
    None
}
