//! Texts of polynomials.
ghost use Rattle.std.specs.Prelude.{◌≡◌, ℕ, List, ◌+◌, ◌-◌, ◌<◌, ◌≤◌, ◌^◌, [], ◌∷◌, ◌++◌, length, drop, true, IfOk};
ghost use Rattle.std.specs.Prelude.{OnOk, IfSome, IfNone, IsTrue, ◌↔◌, slice_index};
ghost use Rattle.std.specs.Option.{SomeIff};
ghost use Rattle.std.specs.Char.{is_ascii_digit};
ghost use Rattle.std.specs.Fmt.{decimal};
ghost use Rattle.std.specs.List.{prefix_len};
ghost use Rattle.std.specs.String.{string_bytes};
ghost use Rattle.std.specs.Str.{all_ascii_digits};
ghost use Rattle.std.specs.Str.Parse.{digits_value as value_of_digits};
ghost use Rattle.teco_poly.specs.Reading.{EndsTerm, IsNumberAt, IsCoefficientAt, IsTermAt, IsLedTermAt, IsNextAt};
ghost use Rattle.teco_poly.specs.Reading.{AreSmall, IsPoly};
ghost use Rattle.teco_poly.specs.Text.{power_text as power_spelled, term_text, terms_from, joined, lead_behind};
ghost use Rattle.teco_poly.specs.Text.{text as spelled};

use crate::coefficients::{COEFFICIENTS, Coefficients};
use std::alloc::{AllocError, Global};
use std::fmt::Write;

// What stands between two terms.
const PLUS: &str = " + ";

// The text of the polynomial that has no terms.
const ZERO: &str = "0";

// A power of N, as it is written.
fn power_text(power: usize) -> &'static str
    requires { power < COEFFICIENTS }
    ensures { result.now ≡ power_spelled power }
{
    match power {
        0 => "",
        1 => "N",
        2 => "N^2",
        3 => "N^3",
        4 => "N^4",
        5 => "N^5",
        6 => "N^6",
        7 => "N^7",
        _ => "N^8",
    }
}

// Adds a term to a text.
fn push_term(text: &mut String, coefficient: u64, power: usize) -> Result<(), AllocError>
    requires { power < COEFFICIENTS }
    ensures { OnOk result (string_bytes text.new
        ≡ string_bytes text.old ++ term_text coefficient power) }
{
    if power == 0 {
        write!(text, "{coefficient}")?;
    } else if coefficient != 1 {
        write!(text, "{coefficient}*")?;
    }
    text.push_str(power_text(power))
}

// How many digits a text begins with.
fn digit_count(text: &[u8]) -> usize
    ensures count { result ≡ prefix_len is_ascii_digit text.now }
    ensures within { result ≤ length text.now }
{
    text.iter().take_while(|byte| byte.is_ascii_digit()).count()
}

// The number that digits stand for; `None` where it passes 64 bits.
fn digits_value(digits: &[u8]) -> Option<u64>
    requires { all_ascii_digits digits.now ≡ true }
    ensures { let value = value_of_digits 10 digits.now in SomeIff result (value < 2 ^ 64) value }
{
    let mut number = 0u64;
    for digit in digits {
        number = number
            .checked_mul(10)?
            .checked_add(u64::from(*digit - b'0'))?;
    }
    Some(number)
}

// Whether digits begin with a 0 that does not stand alone.
fn is_padded(digits: &[u8]) -> bool
    ensures { IsTrue result ↔ ((1 < length digits.now) × (slice_index digits.now 0 ≡ 48)) }
{
    digits.len() > 1 && digits[0] == b'0'
}

// The number whose text these digits are.
fn number(digits: &[u8]) -> Option<u64>
    requires { all_ascii_digits digits.now ≡ true }
    ensures found { IfSome result (λ n. (n < 2 ^ 64) × (digits.now ≡ decimal n)) }
    ensures none { IfNone result ((n : ℕ) → n < 2 ^ 64 → digits.now ≡ decimal n → ⊥) }
{
    if digits.is_empty() || is_padded(digits) {
        return None;
    }
    digits_value(digits)
}

/// The number at the front of a text, and what comes behind it.
pub fn number_at(text: &[u8]) -> Option<(u64, &[u8])>
    ensures found { IfSome result (λ r. IsNumberAt text.now r.0 r.1.now) }
    ensures none { IfNone result ((n : ℕ) (rest : List ℕ) → IsNumberAt text.now n rest → ⊥) }
{
    let (digits, rest) = text.split_at(digit_count(text));
    let number = number(digits)?;
    Some((number, rest))
}

// The coefficient at the front of a term of a power above 0, with its `*`, and what comes behind. A
// coefficient of 1 is not written.
fn factor_at(text: &[u8], power: usize) -> Option<(u64, &[u8])>
    requires { 0 < power }
    ensures found { IfSome result (λ r. IsCoefficientAt text.now power r.0 r.1.now) }
    ensures none { IfNone result ((c : ℕ) (rest : List ℕ)
        → IsCoefficientAt text.now power c rest → ⊥) }
{
    if digit_count(text) == 0 {
        return Some((1, text));
    }
    let (coefficient, rest) = number_at(text)?;
    if coefficient == 1 {
        return None;
    }
    let rest = rest.strip_prefix(b"*")?;
    Some((coefficient, rest))
}

// The coefficient at the front of a term, and what comes behind.
fn coefficient_at(text: &[u8], power: usize) -> Option<(u64, &[u8])>
    ensures found { IfSome result (λ r. IsCoefficientAt text.now power r.0 r.1.now) }
    ensures none { IfNone result ((c : ℕ) (rest : List ℕ)
        → IsCoefficientAt text.now power c rest → ⊥) }
{
    if power == 0 {
        number_at(text)
    } else {
        factor_at(text, power)
    }
}

// Whether a term may end before this text: at a space, or at the end.
fn ends_term(rest: &[u8]) -> bool
    ensures { IsTrue result ↔ EndsTerm rest.now }
{
    match rest.first() {
        None => true,
        Some(byte) => *byte == b' ',
    }
}

// The coefficient of the term of a power at the front of a text, and what comes behind.
fn term_at(text: &[u8], power: usize) -> Option<(u64, &[u8])>
    requires { power < COEFFICIENTS }
    ensures found { IfSome result (λ r. IsTermAt text.now power r.0 r.1.now) }
    ensures none { IfNone result ((c : ℕ) (rest : List ℕ) → IsTermAt text.now power c rest → ⊥) }
{
    let (coefficient, rest) = coefficient_at(text, power)?;
    let rest = rest.strip_prefix(power_text(power).as_bytes())?;
    if coefficient == 0 || !ends_term(rest) {
        return None;
    }
    Some((coefficient, rest))
}

// The coefficient of the term of a power that stands behind `lead` at the front of a text, and what
// comes behind.
fn led_term_at<'a>(text: &'a [u8], power: usize, lead: &[u8]) -> Option<(u64, &'a [u8])>
    requires { power < COEFFICIENTS }
    ensures found { IfSome result (λ r. IsLedTermAt text.now lead.now power r.0 r.1.now) }
    ensures none { IfNone result ((c : ℕ) (rest : List ℕ)
        → IsLedTermAt text.now lead.now power c rest → ⊥) }
{
    let led = text.strip_prefix(lead)?;
    let (coefficient, rest) = term_at(led, power)?;
    Some((coefficient, rest))
}

// The coefficient of a power, 0 where its term does not stand at the front of a text; what comes
// behind; and what leads the next term.
fn next_at<'a>(text: &'a [u8], power: usize, lead: &'a [u8]) -> (u64, &'a [u8], &'a [u8])
    requires { power < COEFFICIENTS }
    ensures { IsNextAt text.now lead.now power result.0 result.1.now result.2.now }
{
    match led_term_at(text, power, lead) {
        Some((coefficient, rest)) => (coefficient, rest, PLUS.as_bytes()),
        None => (0, text, lead),
    }
}

// The coefficients from a power on whose terms, the first behind `lead`, are the text.
fn read_from(text: &[u8], power: usize, lead: &[u8]) -> Option<Coefficients>
    requires { power ≤ COEFFICIENTS }
    ensures found { IfSome result (λ p. IsPoly p
        × (text.now ≡ joined lead.now (terms_from power (drop power p)))) }
    ensures none { IfNone result ((p : List ℕ) → power + length p ≡ COEFFICIENTS → AreSmall p
        → text.now ≡ joined lead.now (terms_from power p) → ⊥) }
{
    if power == COEFFICIENTS {
        return if text.is_empty() {
            Some([0; COEFFICIENTS])
        } else {
            None
        };
    }
    let (coefficient, rest, next) = next_at(text, power, lead);
    let mut coefficients = read_from(rest, power + 1, next)?;
    coefficients[power] = coefficient;
    Some(coefficients)
}

// The coefficients of the polynomial whose text this is.
pub fn read(text: &[u8]) -> Option<Coefficients>
    ensures found { IfSome result (λ p. IsPoly p × (text.now ≡ spelled p)) }
    ensures none { IfNone result ((p : List ℕ) → IsPoly p → text.now ≡ spelled p → ⊥) }
{
    if text == ZERO.as_bytes() {
        return Some([0; COEFFICIENTS]);
    }
    if text.is_empty() {
        return None;
    }
    read_from(text, 0, &[])
}

// Adds the term of a power to the terms before it, if it has one.
fn push_next(text: &mut String, coefficient: u64, power: usize) -> Result<(), AllocError>
    requires { power < COEFFICIENTS }
    ensures { let before = string_bytes text.old in
        OnOk result (string_bytes text.new
        ≡ before ++ joined (lead_behind before) (terms_from power (coefficient ∷ []))) }
{
    if coefficient == 0 {
        return Ok(());
    }
    if !text.is_empty() {
        text.push_str(PLUS)?;
    }
    push_term(text, coefficient, power)
}

// The text of the polynomial with these coefficients.
#[tactic(auto, using(crate::proofs::Spelling::is_poly))]
pub fn print(alloc: Global, coefficients: &Coefficients) -> Result<String, AllocError>
    ensures text { IfOk result (λ t. string_bytes t ≡ spelled coefficients.now) }
    ensures poly { IsPoly coefficients.now }
{
    let mut text = String::new(alloc);
    for power in 0..COEFFICIENTS {
        push_next(&mut text, coefficients[power], power)?;
    }
    if text.is_empty() {
        text.push_str(ZERO)?;
    }
    Ok(text)
}
