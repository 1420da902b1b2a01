//! The element at a place of a text.
ghost use Rattle.std.specs.Prelude.{◌≡◌, ◌<◌, ◌≤◌, Ok, take, drop, length, nat_le, option_map, MatchResult};
ghost use Rattle.std.specs.Prelude.{MatchOption, IfOk, IfSome, ◌+◌};
ghost use Rattle.std.specs.List.{prefix_len};
ghost use Rattle.teco_model.specs.Element as model;
ghost use Rattle.teco_model.specs.Element.{seen};
ghost use Rattle.teco_lex.specs.Reader.{Judges};
ghost use Rattle.teco_lex.specs.Reading.{Gives};

use crate::blanks::blank_end;
use crate::form::{at_allowed, colons_allowed, texts_of};
use crate::letters::letters;
use crate::texts::{kind_read, texts};
use teco_base::Code;
use teco_model::{Element, Head};

/// The modifiers of an element.
#[derive(Clone, Copy)]
struct Modifiers {
    colons: u8,
    at: bool,
}

/// The modifiers at the front, and what stands behind them.
fn split_modifiers(bytes: &[u8]) -> (&[u8], &[u8])
    ensures front { result.0.now ≡ take (prefix_len model.is_modifier bytes.now) bytes.now }
    ensures rest { result.1.now ≡ drop (prefix_len model.is_modifier bytes.now) bytes.now }
{
    let len = modifier_len(bytes);
    bytes.split_at(len)
}

/// How many bytes at the front are modifiers.
pub fn modifier_len(bytes: &[u8]) -> usize
    ensures value { result ≡ prefix_len model.is_modifier bytes.now }
    ensures within { result ≤ length bytes.now }
{
    bytes
        .iter()
        .take_while(|b| matches!(**b, b':' | b'@'))
        .count()
}

fn colons_in(modifiers: &[u8]) -> usize
    ensures { result ≡ model.colons_in modifiers.now }
{
    modifiers.iter().filter(|b| **b == b':').count()
}

fn ats_in(modifiers: &[u8]) -> usize
    ensures { result ≡ model.ats_in modifiers.now }
{
    modifiers.iter().filter(|b| **b == b'@').count()
}

/// A modifier that the letters do not allow, or not so often, is ILL.
fn judge(head: &Head, modifiers: &[u8]) -> Result<Modifiers, Code>
    ensures { Judges head.now modifiers.now result }
{
    let colons = colons_in(modifiers);
    let ats = ats_in(modifiers);
    if colons > colons_allowed(head) || ats > usize::from(at_allowed(head)) {
        return Err(Code::Ill);
    }
    Ok(Modifiers {
        colons: colons as u8,
        at: ats == 1,
    })
}

/// The element whose first byte is at a place.
#[tactic(auto, unfolding(teco_model::specs::Element::element_from))]
fn element_from(text: &[u8], place: usize) -> Result<Element<'_>, Code>
    requires { place ≤ length text.now }
    ensures value { Gives seen result (model.element_from text.now place) }
    ensures within { IfOk result (λ e. (e.place ≡ place) × (place < e.next)
        × (e.next ≤ length text.now)) }
{
    let (modifiers, behind) = split_modifiers(&text[place..]);
    let (head, len) = letters(behind)?;
    let Modifiers { colons, at } = judge(&head, modifiers)?;
    let (own, rest) = behind.split_at(len);
    let (kind, len) = kind_read(head, rest)?;
    let read = texts(texts_of(&kind), at, own, &rest[len..])?;
    Ok(Element {
        kind,
        colons,
        at,
        text: read.text,
        second: read.second,
        place,
        next: text.len() - read.rest.len(),
    })
}

/// The element at a place, after the blanks; `None` where only blanks remain. Nothing behind the
/// element is looked at, unless it is cut off.
#[tactic(auto, unfolding(teco_model::specs::Element::element_at))]
pub fn element(text: &[u8], at: usize) -> Result<Option<Element<'_>>, Code>
    requires { at ≤ length text.now }
    ensures read { Gives (option_map seen) result (model.element_at text.now at) }
    ensures place { IfOk result (λ found. IfSome found (λ e. at ≤ e.place)) }
    ensures next { IfOk result (λ found. IfSome found
        (λ e. (e.place < e.next) × (e.next ≤ length text.now))) }
{
    let place = blank_end(text, at);
    if place == text.len() {
        return Ok(None);
    }
    match element_from(text, place) {
        Ok(element) => Ok(Some(element)),
        Err(code) => Err(code),
    }
}
