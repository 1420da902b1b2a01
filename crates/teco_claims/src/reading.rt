//! What a text says if it is that of claims. Of another text these functions read any claims that have
//! a text, and who calls them has to see whether it is this one.
ghost use Rattle.std.specs.Prelude.{◌≡◌, ◌≢◌, ◌++◌, ◌∷◌, [], ◌+◌, ◌≤◌, ◌<◌, ◌^◌, ℕ, Bool, false, List, length};
ghost use Rattle.std.specs.Prelude.{flat_map, codes, Option, Some, None, IfOk, OnOk, IfSome};
ghost use Rattle.std.specs.List.{AllByRecursion, prefix_len};
ghost use Rattle.std.specs.Char.{is_ascii_digit};
ghost use Rattle.std.specs.Fmt.{decimal};
ghost use Rattle.teco_base.specs.Register.{register_name};
ghost use Rattle.teco_base.specs.declared.TheConstants.{REGISTERS};
ghost use Rattle.teco_base.specs.declared.bytes.TheConstants.{LF};
ghost use Rattle.teco_claims.specs.declared.term.ClaimMeasure as measures;
ghost use Rattle.teco_claims.specs.declared.term.ClaimMeasure.TheVariants as named;
ghost use Rattle.teco_claims.specs.declared.term.Fraction.{Fraction as FractionOf};
ghost use Rattle.teco_claims.specs.declared.term.ClaimTerm.{ClaimTerm as TermOf};
ghost use Rattle.teco_claims.specs.Front as front;
ghost use Rattle.teco_claims.specs.Front.{EndsPart, EndsTerm, EndsClaims};
ghost use Rattle.teco_claims.specs.Spelled.{IsMeasure, IsLowest, IsTerm, AreTerms, IsClaim, IsCut, IsSpelled};
ghost use Rattle.teco_claims.specs.Text.{line as line_of, name_text, divisor_text, fraction_text, factor_text};
ghost use Rattle.teco_claims.specs.Text.{unit_text, body_text, first_sign, next_sign, signed_text, next_text};
ghost use Rattle.teco_claims.specs.Text.{terms_text, claim_line, cut_words, cut_text, grows_text, types_text, text_of};
ghost use Rattle.teco_claims.specs.Values.{AtCut, Claimed};
ghost use Rattle.teco_poly.specs.Polynomial.{Polynomial};
ghost use Rattle.teco_poly.specs.Reading.{IsPoly, EndsNumber};
ghost use Rattle.teco_poly.specs.Text.{power_text};

use crate::claims::{Claim, Claims, Cut};
use crate::spelled::is_next;
use crate::term::{ClaimMeasure, ClaimSingle, ClaimTerm, Fraction};
use std::alloc::{AllocError, Global};
use std::str;
use teco_base::Reg;
use teco_poly::Poly;
use teco_poly::reading::{behind, polynomial_at, word_at};

// The number of which these are the digits.
fn number(digits: &[u8]) -> u128
    ensures { (n : ℕ) → n < 2 ^ 128 → digits.now ≡ decimal n → result ≡ n }
{
    let Ok(digits) = str::from_utf8(digits) else {
        return 0;
    };
    digits.parse().unwrap_or(0)
}

// How many digits a text begins with.
fn digit_count(text: &[u8]) -> usize
    ensures count { result ≡ prefix_len is_ascii_digit text.now }
    ensures within { result ≤ length text.now }
{
    text.iter().take_while(|byte| byte.is_ascii_digit()).count()
}

// The number at the front of a text, and what comes behind it.
fn number_at(text: &[u8]) -> (u128, &[u8])
    ensures text { (n : ℕ) (rest : List ℕ) → n < 2 ^ 128 → EndsNumber rest
        → text.now ≡ decimal n ++ rest
        → (result.0 ≡ n) × (result.1.now ≡ rest) }
    ensures within { length result.1.now ≤ length text.now }
{
    let (digits, rest) = text.split_at(digit_count(text));
    (number(digits), rest)
}

// The number of 32 bits at the front of a text, and what comes behind it.
fn small_number_at(text: &[u8]) -> (u32, &[u8])
    ensures text { (n : ℕ) (rest : List ℕ) → n < 2 ^ 32 → EndsNumber rest
        → text.now ≡ decimal n ++ rest
        → (result.0 ≡ n) × (result.1.now ≡ rest) }
    ensures within { length result.1.now ≤ length text.now }
{
    let (number, rest) = number_at(text);
    (u32::try_from(number).unwrap_or(0), rest)
}

// The number of an element at the front of a text, and what comes behind it.
fn point_at(text: &[u8]) -> (usize, &[u8])
    ensures text { (n : ℕ) (rest : List ℕ) → n < 2 ^ 64 → EndsNumber rest
        → text.now ≡ decimal n ++ rest
        → (result.0 ≡ n) × (result.1.now ≡ rest) }
    ensures within { length result.1.now ≤ length text.now }
{
    let (number, rest) = number_at(text);
    (usize::try_from(number).unwrap_or(0), rest)
}

// How much longer the text gets, from the line of that at the front of a text, if it has one, and what
// comes behind it.
fn grows_at(text: &[u8]) -> (Option<Poly>, &[u8])
    ensures { (grows : Option Polynomial) (rest : List ℕ) → IfSome grows IsPoly
        → text.now ≡ grows_text grows ++ (codes "types " ++ rest)
        → (result.0 ≡ grows) × (result.1.now ≡ codes "types " ++ rest) }
{
    let (found, rest) = word_at(text, b"grows ");
    if !found {
        return (None, rest);
    }
    let (most, rest) = polynomial_at(rest);
    (Some(most), behind(rest, b"\n"))
}

// The bound on typed bytes at the front of a text, and what comes behind it.
fn types_at(text: &[u8]) -> (Option<Poly>, &[u8])
    ensures { (types : Option Polynomial) (rest : List ℕ) → IfSome types IsPoly
        → text.now ≡ types_text types ++ LF ∷ rest
        → (result.0 ≡ types) × (result.1.now ≡ LF ∷ rest) }
{
    let (found, rest) = word_at(text, b"-");
    if found {
        return (None, rest);
    }
    let (most, rest) = polynomial_at(text);
    (Some(most), rest)
}

// The divisor at the front of a text, 1 where none is written, and what comes behind it.
fn divisor_at(text: &[u8]) -> (u128, &[u8])
    ensures text { (n : ℕ) (rest : List ℕ) → n < 2 ^ 127 → EndsPart rest
        → text.now ≡ divisor_text n ++ rest
        → (result.0 ≡ n) × (result.1.now ≡ rest) }
    ensures within { length result.1.now ≤ length text.now }
{
    let (found, rest) = word_at(text, b"/");
    if found { number_at(rest) } else { (1, rest) }
}

// The fraction at the front of a text, and what comes behind it.
fn fraction_at(text: &[u8]) -> (Fraction, &[u8])
    ensures text { (f : FractionOf) (rest : List ℕ) → f.numerator < 2 ^ 127 → f.divisor < 2 ^ 127
        → EndsPart rest → text.now ≡ fraction_text f ++ rest
        → (result.0 ≡ f) × (result.1.now ≡ rest) }
    ensures within { length result.1.now ≤ length text.now }
{
    let (numerator, rest) = number_at(text);
    let (divisor, rest) = divisor_at(rest);
    (Fraction { numerator, divisor }, rest)
}

// Does a digit stand at the front of a text?
fn has_digit(text: &[u8]) -> bool
    ensures { result ≡ front.begins is_ascii_digit text.now }
{
    match text.first() {
        Some(byte) => byte.is_ascii_digit(),
        None => false,
    }
}

// The coefficient at the front of a text, 1 where no number stands there, and what comes behind it
// and a `*`.
fn factor_at(text: &[u8]) -> (Fraction, &[u8])
    ensures text { (f : FractionOf) (has_unit : Bool) (rest : List ℕ) → IsLowest f
        → front.EndsFactor has_unit rest → text.now ≡ factor_text f has_unit ++ rest
        → (result.0 ≡ f) × (result.1.now ≡ rest) }
    ensures within { length result.1.now ≤ length text.now }
{
    if !has_digit(text) {
        let one = Fraction {
            numerator: 1,
            divisor: 1,
        };
        return (one, text);
    }
    let (fraction, rest) = fraction_at(text);
    (fraction, behind(rest, b"*"))
}

// The power behind an N at the front of a text, 1 where none is written, and what comes behind it.
fn exponent_at(text: &[u8]) -> (u32, &[u8])
    ensures one { EndsPart text.now → (result.0 ≡ 1) × (result.1.now ≡ text.now) }
    ensures more { (n : ℕ) (rest : List ℕ) → n < 2 ^ 32 → EndsNumber rest
        → text.now ≡ codes "^" ++ (decimal n ++ rest)
        → (result.0 ≡ n) × (result.1.now ≡ rest) }
    ensures within { length result.1.now ≤ length text.now }
{
    let (found, rest) = word_at(text, b"^");
    if found {
        small_number_at(rest)
    } else {
        (1, rest)
    }
}

// The power of N at the front of a text, 0 where there is none, and what comes behind it.
fn power_at(text: &[u8]) -> (u32, &[u8])
    ensures text { (n : ℕ) (rest : List ℕ) → n < 2 ^ 32 → EndsPart rest
        → text.now ≡ power_text n ++ rest
        → (result.0 ≡ n) × (result.1.now ≡ rest) }
    ensures within { length result.1.now ≤ length text.now }
{
    let (found, rest) = word_at(text, b"N");
    if found { exponent_at(rest) } else { (0, rest) }
}

// The register at the front of a text, and what comes behind it.
fn register_at(text: &[u8]) -> (Reg, &[u8])
    ensures text { (r : ℕ) (rest : List ℕ) → r < REGISTERS → text.now ≡ register_name r ∷ rest
        → (result.0 ≡ r) × (result.1.now ≡ rest) }
    ensures within { length result.1.now ≤ length text.now }
{
    match text.split_first() {
        Some((name, rest)) => (Reg::of(*name).unwrap_or_default(), rest),
        None => (Reg::default(), text),
    }
}

// The measure of a pair at the front of a text, behind the letter, and what comes behind it.
fn pair_at(text: &[u8]) -> (ClaimMeasure, &[u8])
    ensures number { (n : ℕ) (rest : List ℕ) → n < 2 ^ 32
        → text.now ≡ decimal n ++ (codes "n" ++ rest)
        → (result.0 ≡ named.PushedNumber n) × (result.1.now ≡ rest) }
    ensures length { (n : ℕ) (rest : List ℕ) → n < 2 ^ 32
        → text.now ≡ decimal n ++ (codes "t" ++ rest)
        → (result.0 ≡ named.PushedLength n) × (result.1.now ≡ rest) }
    ensures within { length result.1.now ≤ length text.now }
{
    let (pair, rest) = small_number_at(text);
    let (found, behind_number) = word_at(rest, b"n");
    if found {
        (ClaimMeasure::PushedNumber(pair), behind_number)
    } else {
        (ClaimMeasure::PushedLength(pair), behind(rest, b"t"))
    }
}

// The measure that has a letter to itself, if it is one of these.
fn single(letter: u8) -> Option<ClaimSingle>
    ensures { result ≡ front.single_of letter }
{
    match letter {
        b'c' => Some(ClaimSingle::Steps),
        b'p' => Some(ClaimSingle::Pointer),
        b'z' => Some(ClaimSingle::Size),
        b'h' => Some(ClaimSingle::Held),
        b'e' => Some(ClaimSingle::LineEnd),
        b's' => Some(ClaimSingle::LineStart),
        b'm' => Some(ClaimSingle::LastLength),
        b'o' => Some(ClaimSingle::Typed),
        b'i' => Some(ClaimSingle::EntryHeld),
        _ => None,
    }
}

// The measure whose name begins with a letter and goes on with a text, and what comes behind it.
fn numbered_at(letter: u8, text: &[u8]) -> (Option<ClaimMeasure>, &[u8])
    ensures number { (r : ℕ) (rest : List ℕ) → r < REGISTERS → letter ≡ 110
        → text.now ≡ register_name r ∷ rest
        → (result.0 ≡ Some (named.Number r)) × (result.1.now ≡ rest) }
    ensures length { (r : ℕ) (rest : List ℕ) → r < REGISTERS → letter ≡ 116
        → text.now ≡ register_name r ∷ rest
        → (result.0 ≡ Some (named.Length r)) × (result.1.now ≡ rest) }
    ensures turns { (n : ℕ) (rest : List ℕ) → n < 2 ^ 32 → EndsNumber rest → letter ≡ 114
        → text.now ≡ decimal n ++ rest
        → (result.0 ≡ Some (named.Turns n)) × (result.1.now ≡ rest) }
    ensures pushed_number { (n : ℕ) (rest : List ℕ) → n < 2 ^ 32 → letter ≡ 107
        → text.now ≡ decimal n ++ (codes "n" ++ rest)
        → (result.0 ≡ Some (named.PushedNumber n)) × (result.1.now ≡ rest) }
    ensures pushed_length { (n : ℕ) (rest : List ℕ) → n < 2 ^ 32 → letter ≡ 107
        → text.now ≡ decimal n ++ (codes "t" ++ rest)
        → (result.0 ≡ Some (named.PushedLength n)) × (result.1.now ≡ rest) }
    ensures within { length result.1.now ≤ length text.now }
{
    match letter {
        b'n' => {
            let (register, rest) = register_at(text);
            (Some(ClaimMeasure::Number(register)), rest)
        }
        b't' => {
            let (register, rest) = register_at(text);
            (Some(ClaimMeasure::Length(register)), rest)
        }
        b'r' => {
            let (begin, rest) = small_number_at(text);
            (Some(ClaimMeasure::Turns(begin)), rest)
        }
        b'k' => {
            let (measure, rest) = pair_at(text);
            (Some(measure), rest)
        }
        _ => (None, text),
    }
}

// Is it a byte that may stand behind a term?
fn is_end(byte: u8) -> bool
    ensures { result ≡ front.is_end byte }
{
    matches!(byte, b' ' | b'\n')
}

// The measure whose name stands at the front of a text, if there is one, and what comes behind it.
#[tactic(auto, using(crate::proofs::Terms::name_some))]
fn name_at(text: &[u8]) -> (Option<ClaimMeasure>, &[u8])
    ensures text { (m : Option measures.ClaimMeasure) (rest : List ℕ) → IfSome m IsMeasure
        → EndsTerm rest → text.now ≡ name_text m ++ rest
        → (result.0 ≡ m) × (result.1.now ≡ rest) }
    ensures within { length result.1.now ≤ length text.now }
{
    let Some((letter, rest)) = text.split_first() else {
        return (None, text);
    };
    if is_end(*letter) {
        return (None, text);
    }
    match single(*letter) {
        Some(single) => (Some(ClaimMeasure::One(single)), rest),
        None => numbered_at(*letter, rest),
    }
}

// The power and the measure at the front of a text, and what comes behind them.
fn unit_at(text: &[u8]) -> (u32, Option<ClaimMeasure>, &[u8])
    ensures text { (n : ℕ) (m : Option measures.ClaimMeasure) (rest : List ℕ) → n < 2 ^ 32
        → IfSome m IsMeasure → EndsTerm rest → text.now ≡ unit_text n m ++ rest
        → (result.0 ≡ n) × (result.1 ≡ m) × (result.2.now ≡ rest) }
    ensures within { length result.2.now ≤ length text.now }
{
    let (power, rest) = power_at(text);
    let (measure, rest) = name_at(behind(rest, b"*"));
    (power, measure, rest)
}

// The term at the front of a text, behind its sign, and what comes behind it.
fn term_at(is_negative: bool, text: &[u8]) -> (ClaimTerm, &[u8])
    ensures text { (t : TermOf) (rest : List ℕ) → IsTerm t → EndsTerm rest
        → is_negative ≡ t.is_negative → text.now ≡ body_text t ++ rest
        → (result.0 ≡ t) × (result.1.now ≡ rest) }
    ensures within { length result.1.now ≤ length text.now }
{
    let (coefficient, rest) = factor_at(text);
    let (power, measure, rest) = unit_at(rest);
    let term = ClaimTerm {
        is_negative,
        coefficient,
        power,
        measure,
    };
    (term, rest)
}

// The first term at the front of a text, and what comes behind it.
fn first_at(text: &[u8]) -> (ClaimTerm, &[u8])
    ensures text { (t : TermOf) (rest : List ℕ) → IsTerm t → EndsTerm rest
        → text.now ≡ first_sign t.is_negative ++ (body_text t ++ rest)
        → (result.0 ≡ t) × (result.1.now ≡ rest) }
    ensures within { length result.1.now ≤ length text.now }
{
    let (is_negative, rest) = word_at(text, b"- ");
    term_at(is_negative, rest)
}

// Another term at the front of a text, and what comes behind it.
fn next_at(text: &[u8]) -> (ClaimTerm, &[u8])
    ensures text { (t : TermOf) (rest : List ℕ) → IsTerm t → EndsTerm rest
        → text.now ≡ signed_text t ++ rest
        → (result.0 ≡ t) × (result.1.now ≡ rest) }
    ensures within { length result.1.now ≤ length text.now }
{
    let (is_negative, rest) = word_at(text, b"- ");
    term_at(is_negative, behind(rest, b"+ "))
}

// Adds the terms at the front of a text, behind the first. It is what comes behind them. It ends
// before one that may not stand there: so there are never more of them than a claim has.
fn others_at<'a>(terms: &mut Vec<ClaimTerm>, text: &'a [u8]) -> Result<&'a [u8], AllocError>
    requires { AreTerms terms.old.items }
    ensures text { (ts : List TermOf) (rest : List ℕ) → AreTerms (terms.old.items ++ ts)
        → text.now ≡ flat_map next_text ts ++ LF ∷ rest
        → IfOk result (λ r. (terms.new.items ≡ terms.old.items ++ ts) × (r.now ≡ LF ∷ rest)) }
    ensures are { OnOk result (AreTerms terms.new.items) }
    ensures within { IfOk result (λ r. length r.now ≤ length text.now) }
{
    let mut rest = text;
    while let Some(words) = rest.strip_prefix(b" ") {
        let (term, behind) = next_at(words);
        if !is_next(&term, terms) {
            return Ok(rest);
        }
        terms.push(term)?;
        rest = behind;
    }
    Ok(rest)
}

// The claim at the front of a text, behind its first word, and the lines behind it; no terms, where
// the first may not stand there.
fn claim_at(alloc: Global, text: &[u8]) -> Result<(Claim, &[u8]), AllocError>
    ensures text { (ts : List TermOf) (rest : List ℕ) → IsClaim ts
        → text.now ≡ line_of (terms_text ts) ++ rest
        → IfOk result (λ r. (r.0 ≡ ts) × (r.1.now ≡ rest)) }
    ensures are { IfOk result (λ r. AreTerms r.0) }
    ensures within { IfOk result (λ r. length r.1.now ≤ length text.now) }
{
    let mut terms = Vec::new(alloc);
    let (first, rest) = first_at(behind(text, b" "));
    if !is_next(&first, &terms) {
        return Ok((Claim { terms }, rest));
    }
    terms.push(first)?;
    let rest = others_at(&mut terms, rest)?;
    Ok((Claim { terms }, behind(rest, b"\n")))
}

// The claims at the front of a text, and the lines behind them.
fn claims_at(alloc: Global, text: &[u8]) -> Result<(Vec<Claim>, &[u8]), AllocError>
    ensures text { (cs : List (List TermOf)) (rest : List ℕ) → AllByRecursion IsClaim cs
        → EndsClaims rest → text.now ≡ flat_map claim_line cs ++ rest
        → IfOk result (λ r. (r.0.items ≡ cs) × (r.1.now ≡ rest)) }
    ensures are { IfOk result (λ r. AllByRecursion IsClaim r.0.items) }
    ensures within { IfOk result (λ r. length r.1.now ≤ length text.now) }
{
    let mut claims = Vec::new(alloc);
    let mut rest = text;
    while let Some(words) = rest.strip_prefix(b"0 <=") {
        let (claim, lines) = claim_at(alloc, words)?;
        if claim.terms.as_slice().is_empty() {
            return Ok((claims, rest));
        }
        claims.push(claim)?;
        rest = lines;
    }
    Ok((claims, rest))
}

// The cut point at the front of a text, behind its first word, and the lines behind its claims.
fn cut_at(alloc: Global, text: &[u8]) -> Result<(Cut, &[u8]), AllocError>
    ensures text { (c : AtCut) (rest : List ℕ) → IsCut c → EndsClaims rest
        → text.now ≡ cut_words c ++ rest
        → IfOk result (λ r. (r.0 ≡ c) × (r.1.now ≡ rest)) }
    ensures is { IfOk result (λ r. IsCut r.0) }
    ensures within { IfOk result (λ r. length r.1.now ≤ length text.now) }
{
    let (point, rest) = point_at(text);
    prove!(point <= usize::MAX);
    let (claims, rest) = claims_at(alloc, behind(rest, b"\n"))?;
    Ok((Cut { point, claims }, rest))
}

// The cut points that are the rest of a text.
fn cuts_at(alloc: Global, text: &[u8]) -> Result<Vec<Cut>, AllocError>
    ensures text { (cs : List AtCut) → AllByRecursion IsCut cs
        → text.now ≡ flat_map cut_text cs ++ line_of (codes "end")
        → IfOk result (λ r. r.items ≡ cs) }
    ensures are { IfOk result (λ r. AllByRecursion IsCut r.items) }
{
    let mut cuts = Vec::new(alloc);
    let mut rest = text;
    while let Some(words) = rest.strip_prefix(b"cut ") {
        let (cut, lines) = cut_at(alloc, words)?;
        cuts.push(cut)?;
        rest = lines;
    }
    Ok(cuts)
}

/// The claims whose text it is, or any.
pub fn claims_in(alloc: Global, text: &[u8]) -> Result<Claims, AllocError>
    ensures text { (c : Claimed) → IsSpelled c → text.now ≡ text_of c → IfOk result (λ r. r ≡ c) }
    ensures cuts { IfOk result (λ r. AllByRecursion IsCut r.cuts) }
{
    let (commands, rest) = polynomial_at(behind(text, b"commands "));
    let (size, rest) = polynomial_at(behind(rest, b"\nsize "));
    let (grows, rest) = grows_at(behind(rest, b"\n"));
    let (types, rest) = types_at(behind(rest, b"types "));
    let cuts = cuts_at(alloc, behind(rest, b"\n"))?;
    Ok(Claims {
        commands,
        size,
        grows,
        types,
        cuts,
    })
}
