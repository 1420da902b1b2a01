//! The lines that certificates begin with, of whatever rules: how they are printed, and
//! what a text says if it has them. Where these functions read they judge nothing: of another text they
//! read anything at all, and who calls them has to see whether what was read has this text.
ghost use Rattle.std.specs.Prelude.{◌≡◌, ◌++◌, ◌∷◌, ◌≤◌, ◌<◌, ◌^◌, ℕ, List, length, codes, Option, Some};
ghost use Rattle.std.specs.Prelude.{OnOk, IfSome};
ghost use Rattle.std.specs.List.{prefix_len};
ghost use Rattle.std.specs.Char.{is_ascii_digit};
ghost use Rattle.std.specs.Fmt.{decimal};
ghost use Rattle.teco_base.specs.Register.{register_name};
ghost use Rattle.teco_base.specs.declared.TheConstants.{REGISTERS};
ghost use Rattle.teco_base.specs.declared.bytes.TheConstants.{LF};
ghost use Rattle.teco_certificate.specs.Text.{line as line_of, version_text, argument_line, needs_text};
ghost use Rattle.teco_model.specs.Macros.{IsArgumentRange, ArgumentRange as RangeOf, Needs as NeedsOf};
ghost use Rattle.teco_poly.specs.Front.{LacksWord};
ghost use Rattle.teco_poly.specs.Reading.{EndsNumber};
ghost use Rattle.teco_verifier.specs.certificate.ArgumentText.{range_text};

use std::alloc::{AllocError, Global};
use std::str;
use teco_base::{REGISTERS, Reg};
use teco_model::{ArgumentRange, Needs};
use teco_poly::reading::{behind, word_at};

/// Adds a line: a word that says what it has, and this.
pub fn push_line(text: &mut Vec<u8>, word: &[u8], words: &[u8]) -> Result<(), AllocError>
    ensures { OnOk result (text.new.items ≡ text.old.items ++ line_of (word.now ++ words.now)) }
{
    text.extend_from_slice(word)?;
    text.extend_from_slice(words)?;
    text.extend_from_slice(b"\n")
}

/// The version of a certificate: 2 where the entry takes an argument.
pub fn version(argument: Option<ArgumentRange>) -> &'static str
    ensures { result.now ≡ version_text argument }
{
    match argument {
        None => "1",
        Some(_) => "2",
    }
}

/// Adds the line of the argument, if there is one.
pub fn push_argument(
    text: &mut Vec<u8>,
    alloc: Global,
    argument: Option<ArgumentRange>,
) -> Result<(), AllocError>
    ensures text { OnOk result (text.new.items ≡ text.old.items ++ argument_line argument) }
    ensures parts { OnOk result (IfSome argument IsArgumentRange) }
{
    let Some(range) = argument else {
        return Ok(());
    };
    let (low, high) = (range.low(), range.high());
    let line = format!(in alloc; "argument {low} {high}\n")?;
    text.extend_from_slice(line.as_bytes())
}

/// The name of a register, which is one of those there are.
pub fn name_of(register: Reg) -> u8
    ensures name { result ≡ register_name register }
    ensures within { register < REGISTERS }
{
    prove!(register.index() < REGISTERS);
    register.name()
}

/// The files that must be open, as a certificate has them.
pub fn letters(needs: Needs) -> &'static str
    ensures { result.now ≡ needs_text needs }
{
    match (needs.input, needs.output) {
        (false, false) => "-",
        (true, false) => "I",
        (false, true) => "O",
        (true, true) => "IO",
    }
}

// The number of which these are the digits.
fn number(digits: &[u8]) -> usize
    ensures { (n : ℕ) → n < 2 ^ 64 → digits.now ≡ decimal n → result ≡ n }
{
    let Ok(digits) = str::from_utf8(digits) else {
        return 0;
    };
    digits.parse().unwrap_or(0)
}

// How many digits a text begins with.
fn digit_count(text: &[u8]) -> usize
    ensures count { result ≡ prefix_len is_ascii_digit text.now }
    ensures within { result ≤ length text.now }
{
    text.iter().take_while(|byte| byte.is_ascii_digit()).count()
}

/// The number at the front of a text, and what comes behind it.
pub fn number_at(text: &[u8]) -> (usize, &[u8])
    ensures text { (n : ℕ) (rest : List ℕ) → n < 2 ^ 64 → EndsNumber rest
        → text.now ≡ decimal n ++ rest
        → (result.0 ≡ n) × (result.1.now ≡ rest) }
    ensures within { length result.1.now ≤ length text.now }
{
    let (digits, rest) = text.split_at(digit_count(text));
    (number(digits), rest)
}

/// The register at the front of a text, and what comes behind it.
pub fn register_at(text: &[u8]) -> (Reg, &[u8])
    ensures text { (r : ℕ) (rest : List ℕ) → r < REGISTERS → text.now ≡ register_name r ∷ rest
        → (result.0 ≡ r) × (result.1.now ≡ rest) }
    ensures within { length result.1.now ≤ length text.now }
{
    match text.split_first() {
        Some((name, rest)) => (Reg::of(*name).unwrap_or_default(), rest),
        None => (Reg::default(), text),
    }
}

/// What comes behind the first words and the version.
pub fn behind_version(text: &[u8]) -> &[u8]
    ensures { (argument : Option RangeOf) (rest : List ℕ)
        → text.now ≡ codes "TECO-CERT " ++ (version_text argument ++ LF ∷ rest)
        → result.now ≡ LF ∷ rest }
{
    let version = behind(text, b"TECO-CERT ");
    let rest = behind(version, b"1");
    behind(rest, b"2")
}

// The range between two numbers, or any.
fn range_of(low: usize, high: usize) -> Option<ArgumentRange>
    ensures { (range : RangeOf) → IsArgumentRange range → low ≡ range.low → high ≡ range.high
        → result ≡ Some range }
{
    let (Ok(low), Ok(high)) = (u32::try_from(low), u32::try_from(high)) else {
        return None;
    };
    ArgumentRange::between(low, high)
}

// The range with whose numbers a line ends, and the lines behind it.
fn range_at(text: &[u8]) -> (Option<ArgumentRange>, &[u8])
    ensures { (range : RangeOf) (rest : List ℕ) → IsArgumentRange range
        → text.now ≡ range_text range ++ LF ∷ rest
        → (result.0 ≡ Some range) × (result.1.now ≡ rest) }
{
    let (low, rest) = number_at(text);
    let (high, rest) = number_at(behind(rest, b" "));
    (range_of(low, high), behind(rest, b"\n"))
}

/// The argument whose line a text begins with, if it does, and what comes behind that.
pub fn argument_at(text: &[u8]) -> (Option<ArgumentRange>, &[u8])
    ensures { (argument : Option RangeOf) (rest : List ℕ) → IfSome argument IsArgumentRange
        → LacksWord rest (codes "argument ") → text.now ≡ argument_line argument ++ rest
        → (result.0 ≡ argument) × (result.1.now ≡ rest) }
{
    let (found, rest) = word_at(text, b"argument ");
    if found { range_at(rest) } else { (None, rest) }
}

/// The files at the front of a text, and what comes behind them.
pub fn needs_at(text: &[u8]) -> (Needs, &[u8])
    ensures { (needs : NeedsOf) (rest : List ℕ) → text.now ≡ needs_text needs ++ LF ∷ rest
        → (result.0 ≡ needs) × (result.1.now ≡ LF ∷ rest) }
{
    let (input, rest) = word_at(text, b"I");
    let (output, rest) = word_at(rest, b"O");
    (Needs { input, output }, behind(rest, b"-"))
}
