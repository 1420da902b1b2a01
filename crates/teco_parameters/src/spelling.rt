//! How the texts of comments spell bytes that comments can't have.
ghost use Rattle.std.specs.Prelude.{◌≡◌, ◌<◌, ◌∷◌, IfOk, IfSome};
ghost use Rattle.teco_parameters.specs.Spelling.{AreDigits, Begins, Spells, byte_of, digit_of};

use std::alloc::{AllocError, Global};

// The byte that a letter behind a backslash spells.
fn byte_of(letter: u8) -> Option<u8>
    ensures { result ≡ byte_of letter }
{
    match letter {
        b'n' => Some(b'\n'),
        b'r' => Some(b'\r'),
        b't' => Some(b'\t'),
        b'f' => Some(0x0c),
        b'\\' => Some(b'\\'),
        _ => None,
    }
}

// The value of a hexadecimal digit.
fn digit_of(digit: u8) -> Option<u8>
    ensures value { result ≡ digit_of digit }
    ensures small { IfSome result (λ value. value < 16) }
{
    match digit {
        b'0'..=b'9' => Some(digit - b'0'),
        b'a'..=b'f' => Some(digit - b'a' + 10),
        b'A'..=b'F' => Some(digit - b'A' + 10),
        _ => None,
    }
}

// The byte that two hexadecimal digits spell.
fn byte_of_digits(high: u8, low: u8) -> Option<u8>
    ensures { IfSome result (λ b. AreDigits high low b) }
{
    let high = digit_of(high)?;
    let low = digit_of(low)?;
    Some(high * 16 + low)
}

// The first byte as it stands, and what is behind it.
fn byte(text: &[u8]) -> Option<(u8, &[u8])>
    ensures { IfSome result (λ x. text.now ≡ x.0 ∷ x.1.now) }
{
    let (b, behind) = text.split_first()?;
    Some((*b, behind))
}

// Behind a backslash and an x: the byte that two digits spell.
fn behind_x(text: &[u8]) -> Option<(u8, &[u8])>
    ensures { IfSome result (λ first. Begins (92 ∷ 120 ∷ text.now) first.0 first.1.now) }
{
    let (high, rest) = byte(text)?;
    let (low, behind) = byte(rest)?;
    Some((byte_of_digits(high, low)?, behind))
}

// Behind a backslash: the byte that a letter spells.
#[tactic(auto, using(crate::proofs::Spelt::by_letter))]
fn behind_letter(text: &[u8]) -> Option<(u8, &[u8])>
    ensures { IfSome result (λ first. Begins (92 ∷ text.now) first.0 first.1.now) }
{
    let (letter, behind) = byte(text)?;
    Some((byte_of(letter)?, behind))
}

// Behind a backslash: the byte that is spelled.
fn behind_backslash(text: &[u8]) -> Option<(u8, &[u8])>
    ensures { IfSome result (λ first. Begins (92 ∷ text.now) first.0 first.1.now) }
{
    let (letter, behind) = byte(text)?;
    if letter == b'x' {
        behind_x(behind)
    } else {
        behind_letter(text)
    }
}

// The first byte that a text spells, and what is left of the text; none where it spells none.
#[tactic(auto, using(crate::proofs::Spelt::by_itself))]
fn first_byte(text: &[u8]) -> Option<(u8, &[u8])>
    ensures { IfSome result (λ first. Begins text.now first.0 first.1.now) }
{
    let (b, behind) = byte(text)?;
    if b == b'\\' {
        behind_backslash(behind)
    } else {
        Some((b, behind))
    }
}

/// The bytes that a text spells: a backslash and n, r, t, f or another backslash are one byte, and so
/// are `\x` and two hexadecimal digits. None where something else stands behind a backslash.
pub fn spelled(alloc: Global, text: &[u8]) -> Result<Option<Vec<u8>>, AllocError>
    ensures { IfOk result (λ read. IfSome read (λ bytes. Spells text.now bytes.items)) }
{
    let mut bytes = Vec::new(alloc);
    let mut rest = text;
    while !rest.is_empty() {
        let Some((byte, behind)) = first_byte(rest) else {
            return Ok(None);
        };
        bytes.push(byte)?;
        rest = behind;
    }
    Ok(Some(bytes))
}
