//! The header of a library file, which declares an argument.
ghost use Rattle.std.specs.Prelude.{◌≡◌, ◌≢◌, ◌∷◌, ◌<◌, ◌&&◌, ◌==◌, ℕ, List, [], Some, None, if◌then◌else◌};
ghost use Rattle.std.specs.Prelude.{MatchOption};
ghost use Rattle.std.specs.Option.{option_copied};
ghost use Rattle.teco_base.specs.Register.{register_name};
ghost use Rattle.teco_base.specs.declared.TheConstants.{REGISTERS};
ghost use Rattle.teco_lex.specs.Ahead.{seen};
ghost use Rattle.teco_library.specs.Header as model;
ghost use Rattle.teco_library.specs.Header.{Declared as DeclaredOf, IsDeclared, header_text};
ghost use Rattle.teco_library.specs.Spans.{FindsHeader};
ghost use Rattle.teco_model.specs.Ahead.{readings};
ghost use Rattle.teco_model.specs.Macros.{ArgumentRange as RangeOf, IsArgumentRange, is_range};
ghost use Rattle.teco_verifier.specs.certificate.ArgumentText.{range_text};

use crate::fault::LibraryFault;
use std::marker::Model;
use teco_base::{REGISTERS, Reg};
use teco_lex::{Element, Reading, read_ahead};
use teco_model::kind::Flow;
use teco_model::{ArgumentRange, Kind};
use teco_poly::number_at;

/// A register, and the arguments that it may be called with.
#[derive(Clone, Copy)]
pub struct Declared {
    pub register: Reg,
    pub range: ArgumentRange,
}

impl Model for Declared {
    ghost use Rattle.teco_library.specs.Header as header;

    ghost Value = { header.Declared };

    ghost view = { λ d. record { register = d.register; range = d.range } };

    ghost inverse = { λ d. record { register = d.register; range = d.range } };
}

// The register whose name, in upper case, stands at the front of a text, and what comes behind it.
fn register_at(text: &[u8]) -> Option<(Reg, &[u8])>
    ensures { MatchOption result ((q : ℕ) (rest : List ℕ) → q < REGISTERS
        → text.now ≢ register_name q ∷ rest)
        (λ r. (r.0 < REGISTERS) × (text.now ≡ register_name r.0 ∷ r.1.now)) }
{
    let (name, rest) = text.split_first()?;
    let register = Reg::of(*name)?;
    prove!(register.index() < REGISTERS);
    (register.name() == *name).then_some((register, rest))
}

// The range between two numbers, if there is one.
fn range_between(low: u64, high: u64) -> Option<ArgumentRange>
    ensures { result ≡ (if is_range (record { low = low; high = high }) then Some
        (record { low = low; high = high }) else None) }
{
    let (Ok(low), Ok(high)) = (u32::try_from(low), u32::try_from(high)) else {
        return None;
    };
    ArgumentRange::between(low, high)
}

// The range that a text is that of.
fn range_in(text: &[u8]) -> Option<ArgumentRange>
    ensures { MatchOption result ((range : RangeOf) → IsArgumentRange range
        → text.now ≢ range_text range)
        (λ range. IsArgumentRange range × (text.now ≡ range_text range)) }
{
    let (low, rest) = number_at(text)?;
    let (high, rest) = number_at(rest.strip_prefix(b" ")?)?;
    if rest.is_empty() {
        range_between(low, high)
    } else {
        None
    }
}

// What the header with this text declares.
fn declaration(text: &[u8]) -> Option<Declared>
    ensures { MatchOption result ((declared : DeclaredOf) → IsDeclared declared
        → text.now ≢ header_text declared)
        (λ declared. IsDeclared declared × (text.now ≡ header_text declared)) }
{
    let words = text.strip_prefix(b"TECO-LIB 2 ")?;
    let Some((register, rest)) = register_at(words) else {
        return None;
    };
    let range = range_in(rest.strip_prefix(b" ")?)?;
    Some(Declared { register, range })
}

// Is it a comment at the first place of its file?
fn is_first_comment(element: &Element) -> bool
    ensures { result ≡ (model.is_comment element.now.kind && (element.now.place == 0)) }
{
    matches!(element.kind, Kind::Flow(Flow::Comment)) && element.place == 0
}

// The text of what is read first, if that is a comment at the first place.
fn comment_in<'a>(first: &Reading<'a>) -> Option<&'a [u8]>
    ensures { option_copied result ≡ model.first_comment (seen first.now ∷ []) }
{
    match first {
        Reading::Whole(element) if is_first_comment(element) => Some(element.text),
        _ => None,
    }
}

// The text of the comment at the first place of a file, if one stands there.
fn first_comment(file: &[u8]) -> Option<&[u8]>
    ensures { option_copied result ≡ model.first_comment (readings file.now 0) }
{
    let Some(first) = read_ahead(file, 0) else {
        return None;
    };
    comment_in(&first)
}

/// What a file declares in the comment at its first place, if that is a header.
pub fn declared_in(file: &[u8]) -> Result<Option<Declared>, LibraryFault>
    ensures { FindsHeader file.now result }
{
    let Some(comment) = first_comment(file) else {
        return Ok(None);
    };
    if !comment.starts_with(b"TECO-LIB ") {
        return Ok(None);
    }
    let Some(declared) = declaration(comment) else {
        return Err(LibraryFault::NotALibrary { place: 0 });
    };
    Ok(Some(declared))
}
