//! The parts of the text of claims.
ghost use Rattle.std.specs.Prelude.{◌≡◌, ◌≤◌, ◌++◌, OnOk, IfOk, IfSome, length, take, flat_map, codes};
ghost use Rattle.std.specs.Fmt.{decimal};
ghost use Rattle.teco_base.specs.Register.{register_name};
ghost use Rattle.teco_claims.specs.Text.{line as line_of, single_text, measure_text, name_text, divisor_text};
ghost use Rattle.teco_claims.specs.Text.{fraction_text, is_one, factor_text, has_unit as has_unit_of, star_text};
ghost use Rattle.teco_claims.specs.Text.{unit_text, body_text, first_sign, next_sign, first_text, next_text};
ghost use Rattle.teco_claims.specs.Text.{terms_text, claim_line, cut_text, grows_text, types_text, text_of};
ghost use Rattle.teco_poly.specs.Reading.{IsPoly};
ghost use Rattle.teco_poly.specs.Text.{power_text, text as poly_text};

use crate::claims::{Claim, Claims, Cut};
use crate::term::{ClaimMeasure, ClaimSingle, ClaimTerm, Fraction};
use std::alloc::{AllocError, Global};
use teco_poly::Poly;

// Adds a line: a word that says what it has, and this.
fn push_line(text: &mut Vec<u8>, word: &[u8], words: &[u8]) -> Result<(), AllocError>
    ensures { OnOk result (text.new.items ≡ text.old.items ++ line_of (word.now ++ words.now)) }
{
    text.extend_from_slice(word)?;
    text.extend_from_slice(words)?;
    text.extend_from_slice(b"\n")
}

// Adds a number.
fn push_number(text: &mut Vec<u8>, alloc: Global, number: u128) -> Result<(), AllocError>
    ensures { OnOk result (text.new.items ≡ text.old.items ++ decimal number) }
{
    let digits = format!(in alloc; "{number}")?;
    text.extend_from_slice(digits.as_bytes())
}

// The letter of a measure that a state has once.
fn letter(single: ClaimSingle) -> &'static str
    ensures { result.now ≡ single_text single }
{
    match single {
        ClaimSingle::Steps => "c",
        ClaimSingle::Pointer => "p",
        ClaimSingle::Size => "z",
        ClaimSingle::Held => "h",
        ClaimSingle::LineEnd => "e",
        ClaimSingle::LineStart => "s",
        ClaimSingle::LastLength => "m",
        ClaimSingle::Typed => "o",
        ClaimSingle::EntryHeld => "i",
    }
}

// Adds the name of a pair's number or length.
fn push_pair(text: &mut Vec<u8>, alloc: Global, pair: u32, part: &[u8]) -> Result<(), AllocError>
    ensures { OnOk result (text.new.items ≡ text.old.items ++ (codes "k" ++ (decimal pair ++ part.now))) }
{
    text.extend_from_slice(b"k")?;
    push_number(text, alloc, u128::from(pair))?;
    text.extend_from_slice(part)
}

// Adds the name of a measure.
fn push_measure(text: &mut Vec<u8>, alloc: Global, measure: ClaimMeasure) -> Result<(), AllocError>
    ensures { OnOk result (text.new.items ≡ text.old.items ++ measure_text measure) }
{
    match measure {
        ClaimMeasure::One(single) => text.extend_from_slice(letter(single).as_bytes()),
        ClaimMeasure::Number(register) => text.extend_from_slice(&[b'n', register.name()]),
        ClaimMeasure::Length(register) => text.extend_from_slice(&[b't', register.name()]),
        ClaimMeasure::Turns(begin) => {
            text.extend_from_slice(b"r")?;
            push_number(text, alloc, u128::from(begin))
        }
        ClaimMeasure::PushedNumber(pair) => push_pair(text, alloc, pair, b"n"),
        ClaimMeasure::PushedLength(pair) => push_pair(text, alloc, pair, b"t"),
    }
}

// Adds a divisor, if it is to be written.
fn push_divisor(text: &mut Vec<u8>, alloc: Global, divisor: u128) -> Result<(), AllocError>
    ensures { OnOk result (text.new.items ≡ text.old.items ++ divisor_text divisor) }
{
    if divisor == 1 {
        return Ok(());
    }
    text.extend_from_slice(b"/")?;
    push_number(text, alloc, divisor)
}

// Adds a fraction.
fn push_fraction(text: &mut Vec<u8>, alloc: Global, fraction: Fraction) -> Result<(), AllocError>
    ensures { OnOk result (text.new.items ≡ text.old.items ++ fraction_text fraction) }
{
    push_number(text, alloc, fraction.numerator)?;
    push_divisor(text, alloc, fraction.divisor)
}

// Adds a coefficient, before a power or a measure or before none.
fn push_factor(
    text: &mut Vec<u8>,
    alloc: Global,
    fraction: Fraction,
    has_unit: bool,
) -> Result<(), AllocError>
    ensures { OnOk result (text.new.items ≡ text.old.items ++ factor_text fraction has_unit) }
{
    if !has_unit {
        return push_fraction(text, alloc, fraction);
    }
    if fraction.numerator == 1 && fraction.divisor == 1 {
        return Ok(());
    }
    push_fraction(text, alloc, fraction)?;
    text.extend_from_slice(b"*")
}

// Adds a power of N.
fn push_power(text: &mut Vec<u8>, alloc: Global, power: u32) -> Result<(), AllocError>
    ensures { OnOk result (text.new.items ≡ text.old.items ++ power_text power) }
{
    match power {
        0 => Ok(()),
        1 => text.extend_from_slice(b"N"),
        _ => {
            text.extend_from_slice(b"N^")?;
            push_number(text, alloc, u128::from(power))
        }
    }
}

// Adds the name of a measure, if there is one, behind a power.
fn push_name(
    text: &mut Vec<u8>,
    alloc: Global,
    power: u32,
    measure: Option<ClaimMeasure>,
) -> Result<(), AllocError>
    ensures { OnOk result (text.new.items
        ≡ text.old.items ++ (star_text power measure ++ name_text measure)) }
{
    let Some(measure) = measure else {
        return Ok(());
    };
    if power > 0 {
        text.extend_from_slice(b"*")?;
    }
    push_measure(text, alloc, measure)
}

// Has a term a power or a measure?
fn has_unit(term: &ClaimTerm) -> bool
    ensures { result ≡ has_unit_of term.now }
{
    term.power > 0 || term.measure.is_some()
}

// Adds a term without its sign.
fn push_body(text: &mut Vec<u8>, alloc: Global, term: &ClaimTerm) -> Result<(), AllocError>
    ensures { OnOk result (text.new.items ≡ text.old.items ++ body_text term.now) }
{
    push_factor(text, alloc, term.coefficient, has_unit(term))?;
    push_power(text, alloc, term.power)?;
    push_name(text, alloc, term.power, term.measure)
}

// The sign of the first term.
fn sign_of_first(is_negative: bool) -> &'static str
    ensures { result.now ≡ first_sign is_negative }
{
    if is_negative { "- " } else { "" }
}

// The sign of another term.
fn sign_of_next(is_negative: bool) -> &'static str
    ensures { result.now ≡ next_sign is_negative }
{
    if is_negative { "- " } else { "+ " }
}

// Adds the first term.
fn push_first(text: &mut Vec<u8>, alloc: Global, term: &ClaimTerm) -> Result<(), AllocError>
    ensures { OnOk result (text.new.items ≡ text.old.items ++ first_text term.now) }
{
    text.extend_from_slice(b" ")?;
    text.extend_from_slice(sign_of_first(term.is_negative).as_bytes())?;
    push_body(text, alloc, term)
}

// Adds another term.
fn push_next(text: &mut Vec<u8>, alloc: Global, term: &ClaimTerm) -> Result<(), AllocError>
    ensures { OnOk result (text.new.items ≡ text.old.items ++ next_text term.now) }
{
    text.extend_from_slice(b" ")?;
    text.extend_from_slice(sign_of_next(term.is_negative).as_bytes())?;
    push_body(text, alloc, term)
}

// Adds the terms behind the first.
fn push_others(text: &mut Vec<u8>, alloc: Global, terms: &[ClaimTerm]) -> Result<(), AllocError>
    ensures { OnOk result (text.new.items ≡ text.old.items ++ flat_map next_text terms.now) }
{
    for term in terms {
        push_next(text, alloc, term)?;
    }
    Ok(())
}

// Adds the terms of a claim.
fn push_terms(text: &mut Vec<u8>, alloc: Global, terms: &[ClaimTerm]) -> Result<(), AllocError>
    ensures { OnOk result (text.new.items ≡ text.old.items ++ terms_text terms.now) }
{
    let Some((first, others)) = terms.split_first() else {
        return Ok(());
    };
    push_first(text, alloc, first)?;
    push_others(text, alloc, others)
}

// Adds a claim.
fn push_claim(text: &mut Vec<u8>, alloc: Global, claim: &Claim) -> Result<(), AllocError>
    ensures { OnOk result (text.new.items ≡ text.old.items ++ claim_line claim.now) }
{
    text.extend_from_slice(b"0 <=")?;
    push_terms(text, alloc, &claim.terms)?;
    text.extend_from_slice(b"\n")
}

// Adds claims.
fn push_claims(text: &mut Vec<u8>, alloc: Global, claims: &[Claim]) -> Result<(), AllocError>
    ensures { OnOk result (text.new.items ≡ text.old.items ++ flat_map claim_line claims.now) }
{
    for claim in claims {
        push_claim(text, alloc, claim)?;
    }
    Ok(())
}

// Adds a cut point and its claims.
fn push_cut(text: &mut Vec<u8>, alloc: Global, cut: &Cut) -> Result<(), AllocError>
    ensures { OnOk result (text.new.items ≡ text.old.items ++ cut_text cut.now) }
{
    let point = cut.point;
    let words = format!(in alloc; "cut {point}\n")?;
    text.extend_from_slice(words.as_bytes())?;
    push_claims(text, alloc, &cut.claims)
}

// Adds the cut points.
fn push_cuts(text: &mut Vec<u8>, alloc: Global, cuts: &[Cut]) -> Result<(), AllocError>
    ensures { OnOk result (text.new.items ≡ text.old.items ++ flat_map cut_text cuts.now) }
{
    for cut in cuts {
        push_cut(text, alloc, cut)?;
    }
    Ok(())
}

// Adds the line of a polynomial.
fn push_bound(
    text: &mut Vec<u8>,
    alloc: Global,
    word: &[u8],
    bound: &Poly,
) -> Result<(), AllocError>
    ensures text { OnOk result (text.new.items
        ≡ text.old.items ++ line_of (word.now ++ poly_text bound.now)) }
    ensures parts { OnOk result (IsPoly bound.now) }
{
    let words = bound.print(alloc)?;
    push_line(text, word, words.as_bytes())
}

// Adds the line of how much longer the text gets, if that is claimed.
fn push_grows(text: &mut Vec<u8>, alloc: Global, grows: &Option<Poly>) -> Result<(), AllocError>
    ensures text { OnOk result (text.new.items ≡ text.old.items ++ grows_text grows.now) }
    ensures parts { OnOk result (IfSome grows.now IsPoly) }
{
    match grows {
        None => Ok(()),
        Some(most) => push_bound(text, alloc, b"grows ", most),
    }
}

// Adds the line of the bound on typed bytes.
fn push_types(text: &mut Vec<u8>, alloc: Global, types: &Option<Poly>) -> Result<(), AllocError>
    ensures text { OnOk result (text.new.items
        ≡ text.old.items ++ line_of (codes "types " ++ types_text types.now)) }
    ensures parts { OnOk result (IfSome types.now IsPoly) }
{
    match types {
        None => push_line(text, b"types ", b"-"),
        Some(most) => push_bound(text, alloc, b"types ", most),
    }
}

/// The text of claims.
pub fn text(alloc: Global, claims: &Claims) -> Result<Vec<u8>, AllocError>
    ensures text { IfOk result (λ text. text.items ≡ text_of claims.now) }
    ensures commands { OnOk result (IsPoly claims.now.commands) }
    ensures size { OnOk result (IsPoly claims.now.size) }
    ensures grows { OnOk result (IfSome claims.now.grows IsPoly) }
    ensures types { OnOk result (IfSome claims.now.types IsPoly) }
{
    let mut text = Vec::new(alloc);
    push_bound(&mut text, alloc, b"commands ", &claims.commands)?;
    push_bound(&mut text, alloc, b"size ", &claims.size)?;
    push_grows(&mut text, alloc, &claims.grows)?;
    push_types(&mut text, alloc, &claims.types)?;
    push_cuts(&mut text, alloc, &claims.cuts)?;
    push_line(&mut text, b"end", b"")?;
    Ok(text)
}

/// How many bytes two texts begin with alike.
pub fn same_front(text: &[u8], other: &[u8]) -> usize
    ensures within { result ≤ length text.now }
    ensures same { take result text.now ≡ take result other.now }
{
    let mut count = 0;
    'bytes: while count < text.len() && count < other.len() && text[count] == other[count] {
        count += 1;
    }
    count
}
