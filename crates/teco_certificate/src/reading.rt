//! What a text says if it is that of a certificate. These functions judge nothing but that the
//! registers of a line rise: of another text they read anything at all, and who calls them has to
//! see whether what was read has this text.
ghost use Rattle.std.specs.Prelude.{◌≡◌, ◌++◌, ◌∷◌, [], ◌≤◌, ◌<◌, ◌↔◌, ℕ, Bool, true, IsTrue, List, length, flat_map};
ghost use Rattle.std.specs.Prelude.{codes, IfOk, OnOk};
ghost use Rattle.std.specs.List.{AllByRecursion};
ghost use Rattle.teco_base.specs.declared.TheConstants.{REGISTERS};
ghost use Rattle.teco_base.specs.declared.bytes.TheConstants.{LF};
ghost use Rattle.teco_verifier.specs.certificate.Fields.{Fields};
ghost use Rattle.teco_certificate.specs.Text.{longer_text, longer_texts, behind_comma, kept_text, chosen_text};
ghost use Rattle.teco_certificate.specs.Text.{loop_line, certificate_text, line as line_of};
ghost use Rattle.teco_certificate.specs.WellFormed.{IsLongerText, IsChosen, TextsRise, AreOfRegisters, RegistersRise};
ghost use Rattle.teco_certificate.specs.WellFormed.{IsWellFormed};
ghost use Rattle.teco_poly.specs.Front.{EndsPolynomial};
ghost use Rattle.teco_poly.specs.Polynomial.{Polynomial};
ghost use Rattle.teco_poly.specs.Reading.{IsPoly};
ghost use Rattle.teco_poly.specs.Text.{text as poly_text};
ghost use Rattle.teco_verifier.specs.table.Choices.{LongerText as LongerTextOf, Chosen};

use crate::certificate::Certificate;
use crate::lines::{argument_at, behind_version, needs_at, number_at, register_at};
use std::alloc::{AllocError, Global};
use teco_base::REGISTERS;
use teco_poly::Poly;
use teco_poly::reading::{behind, polynomial, polynomial_at, polynomial_words, word_at};
use teco_verifier::{LongerText, LoopLine};

// Whether an iteration is kept, as the front of a text has it, and what comes behind that.
fn kept_at(text: &[u8]) -> (bool, &[u8])
    ensures text { (kept : Bool) (rest : List ℕ) → text.now ≡ kept_text kept ++ rest
        → (result.0 ≡ kept) × (result.1.now ≡ rest) }
    ensures within { length result.1.now ≤ length text.now }
{
    let (kept, rest) = word_at(text, b"kept");
    if kept {
        (true, rest)
    } else {
        (false, behind(rest, b"lost"))
    }
}

// The polynomial behind which a space stands, and what comes behind both.
fn held_at(text: &[u8]) -> (Poly, &[u8])
    ensures text { (p : Polynomial) (rest : List ℕ) → IsPoly p → EndsPolynomial rest
        → text.now ≡ poly_text p ++ (codes " " ++ rest) → (result.0 ≡ p) × (result.1.now ≡ rest) }
    ensures within { length result.1.now ≤ length text.now }
{
    let (words, rest) = polynomial_words(text);
    (polynomial(words.strip_suffix(b" ").unwrap_or(words)), rest)
}

// The register and the polynomial at the front of a text, and what comes behind them.
fn longer_at(text: &[u8]) -> (LongerText, &[u8])
    ensures text { (l : LongerTextOf) (rest : List ℕ) → IsLongerText l → EndsPolynomial rest
        → text.now ≡ longer_text l ++ rest → (result.0 ≡ l) × (result.1.now ≡ rest) }
    ensures register { result.0.register < REGISTERS }
    ensures within { length result.1.now ≤ length text.now }
{
    let (register, rest) = register_at(text);
    prove!(register.index() < REGISTERS);
    let (text, rest) = polynomial_at(behind(rest, b"="));
    (LongerText { register, text }, rest)
}

// May this text stand behind these, whose registers rise?
fn is_behind(other: &LongerText, longer: &[LongerText]) -> bool
    requires { TextsRise longer.now }
    ensures { IsTrue result ↔ TextsRise (longer.now ++ other.now ∷ []) }
{
    match longer.last() {
        Some(last) => last.register.index() < other.register.index(),
        None => true,
    }
}

// Adds to `longer` the texts at the front of a text, each behind a comma. It is what comes behind
// them. It ends before one whose register doesn't rise: so there are never more of them than
// registers, whatever the text.
fn others_at<'a>(longer: &mut Vec<LongerText>, text: &'a [u8]) -> Result<&'a [u8], AllocError>
    requires rise { TextsRise longer.old.items }
    requires registers { AreOfRegisters longer.old.items }
    ensures text { (ls : List LongerTextOf) (rest : List ℕ) → AllByRecursion IsLongerText ls
        → TextsRise (longer.old.items ++ ls) → text.now ≡ flat_map behind_comma ls ++ LF ∷ rest
        → IfOk result (λ r. (longer.new.items ≡ longer.old.items ++ ls) × (r.now ≡ LF ∷ rest)) }
    ensures rise { OnOk result (TextsRise longer.new.items) }
    ensures registers { OnOk result (AreOfRegisters longer.new.items) }
    ensures within { IfOk result (λ r. length r.now ≤ length text.now) }
{
    let mut rest = text;
    while let Some(words) = rest.strip_prefix(b",") {
        let (other, behind) = longer_at(words);
        if !is_behind(&other, longer) {
            return Ok(rest);
        }
        longer.push(other)?;
        rest = behind;
    }
    Ok(rest)
}

// The texts at the front of a text, and what comes behind them.
fn texts_at(alloc: Global, text: &[u8]) -> Result<(Vec<LongerText>, &[u8]), AllocError>
    ensures text { (ls : List LongerTextOf) (rest : List ℕ)
        → AllByRecursion IsLongerText ls → TextsRise ls
        → text.now ≡ longer_texts ls ++ LF ∷ rest
        → IfOk result (λ r. (r.0.items ≡ ls) × (r.1.now ≡ LF ∷ rest)) }
    ensures rise { IfOk result (λ r. TextsRise r.0.items) }
    ensures few { IfOk result (λ r. length r.0.items ≤ REGISTERS) }
    ensures within { IfOk result (λ r. length r.1.now ≤ length text.now) }
{
    let mut longer = Vec::new(alloc);
    if let Some(rest) = text.strip_prefix(b"-") {
        return Ok((longer, rest));
    }
    let (first, others) = longer_at(text);
    longer.push(first)?;
    let rest = others_at(&mut longer, others)?;
    Ok((longer, rest))
}

// What was chosen for an iteration, and the lines behind it.
fn loop_at(alloc: Global, text: &[u8]) -> Result<(LoopLine, &[u8]), AllocError>
    ensures text { (c : Chosen) (rest : List ℕ) → IsChosen c → RegistersRise c
        → text.now ≡ line_of (chosen_text c) ++ rest
        → IfOk result (λ r. (r.0 ≡ c) × (r.1.now ≡ rest)) }
    ensures rise { IfOk result (λ r. RegistersRise r.0) }
    ensures few { IfOk result (λ r. length r.0.longer ≤ REGISTERS) }
    ensures within { IfOk result (λ r. length r.1.now ≤ length text.now) }
{
    let (number, rest) = number_at(text);
    let (held, rest) = held_at(behind(rest, b" held "));
    let (kept, rest) = kept_at(rest);
    let (longer, rest) = texts_at(alloc, behind(rest, b" texts "))?;
    let line = LoopLine {
        number,
        held,
        kept,
        longer,
    };
    Ok((line, behind(rest, b"\n")))
}

// The loops whose lines a text begins with.
fn loops_at(alloc: Global, text: &[u8]) -> Result<Vec<LoopLine>, AllocError>
    ensures text { (cs : List Chosen) → AllByRecursion IsChosen cs → AllByRecursion RegistersRise cs
        → text.now ≡ flat_map loop_line cs ++ line_of (codes "end")
        → IfOk result (λ r. r.items ≡ cs) }
    ensures rise { IfOk result (λ r. AllByRecursion RegistersRise r.items) }
{
    let mut loops = Vec::new(alloc);
    let mut rest = text;
    while let Some(words) = rest.strip_prefix(b"loop ") {
        let (line, lines) = loop_at(alloc, words)?;
        loops.push(line)?;
        rest = lines;
    }
    Ok(loops)
}

/// The certificate whose text this is, or any. The registers of each line rise.
pub fn certificate_in(alloc: Global, text: &[u8]) -> Result<Certificate, AllocError>
    ensures text { (f : Fields) → IsWellFormed f → text.now
        ≡ certificate_text f → IfOk result (λ c. c ≡ f) }
    ensures rise { IfOk result (λ c. AllByRecursion RegistersRise c.loops) }
{
    let (entry, rest) = register_at(behind(behind_version(text), b"\nentry "));
    let (argument, rest) = argument_at(behind(rest, b"\n"));
    let (needs, rest) = needs_at(behind(rest, b"needs "));
    let (commands, rest) = polynomial_at(behind(rest, b"\ncommands "));
    let (size, rest) = polynomial_at(behind(rest, b"\nsize "));
    let loops = loops_at(alloc, behind(rest, b"\n"))?;
    Ok(Certificate {
        entry,
        argument,
        needs,
        commands,
        size,
        loops,
    })
}
