//! What is read of a text.
ghost use Rattle.std.specs.Prelude.{◌≡◌, ◌<◌, ◌≤◌, ◌||◌, length, option_map, nat_lt, Ok, Some, IfOk, IfSome};
ghost use Rattle.std.specs.Option.{ForSome};
ghost use Rattle.teco_lex.specs.Reading.{Gives};
ghost use Rattle.teco_model.specs.Element as model_element;
ghost use Rattle.teco_model.specs.Element.{element_at, seen};
ghost use Rattle.teco_model.specs.Searching as model;
ghost use Rattle.teco_model.specs.Skip.{skip_at};
ghost use Rattle.teco_model.specs.State.{frame_of};
ghost use Rattle.teco_base.specs.declared.TheConstants.{LIMIT};
ghost use Rattle.teco_verifier.specs.expansion.Ways as ways;
ghost use Rattle.teco_expansion.specs.Refused as refused;
ghost use Rattle.teco_expansion.specs.Refused.{Passes};
ghost use Rattle.teco_expansion.specs.Seen.{read_of, position_seen};
ghost use Rattle.teco_expansion.specs.Texts.{text_of};

use crate::refusal::ExpandReason;
use crate::spot::TextPosition;
use crate::texts::Texts;
use teco_base::Code;
use teco_find::minimum;
use teco_lex::{blank_end, element, skip};
use teco_model::kind::{Flow, Kind};
use teco_model::{Element, Skip};

/// The element at a place; behind the end there is none.
#[tactic(auto, using(crate::proofs::Elements::none_behind))]
pub fn read_element(text: &[u8], at: usize) -> Result<Option<Element<'_>>, Code>
    ensures read { Gives (option_map seen) result (element_at text.now at) }
    ensures text_within { IfOk result (λ found. ForSome found
        (λ e. length e.text.now ≤ length text.now)) }
    ensures second_within { IfOk result
        (λ found. ForSome found (λ e. length e.second.now ≤ length text.now)) }
{
    if at > text.len() {
        return Ok(None);
    }
    element(text, at)
}

/// The place after the blanks at a place.
#[tactic(auto, using(crate::proofs::Elements::no_blanks_behind))]
pub fn place_behind_blanks(text: &[u8], at: usize) -> usize
    ensures { result ≡ model_element.blank_end text.now at }
{
    if at > text.len() {
        return at;
    }
    blank_end(text, at)
}

// Whether `;` or `:;` stands at a place.
fn leaves_at(text: &[u8], place: usize) -> bool
    ensures { result ≡ model.is_leave (element_at text.now place) }
{
    match read_element(text, place) {
        Ok(Some(next)) => matches!(next.kind, Kind::Flow(Flow::Leave)),
        _ => false,
    }
}

/// Whether a search counts as having a colon: it has one, or `;` stands at the place behind the
/// blanks behind it.
#[tactic(auto, using(crate::proofs::Elements::leaves_again))]
pub fn has_colon(element: &Element<'_>, text: &[u8], behind: usize) -> bool
    requires { behind ≡ model_element.blank_end text.now element.now.next }
    ensures { result ≡ model.has_colon (seen element.now) (frame_of text.now) }
{
    element.colons > 0 || leaves_at(text, behind)
}

/// Whether a search at a place counts as having a colon.
pub fn colon_at(text: &[u8], place: usize) -> bool
    ensures { (e : model_element.Element) → read_of (element_at text.now place) ≡ Some e
        → result ≡ model.has_colon e (frame_of text.now) }
{
    match read_element(text, place) {
        Ok(Some(element)) => { has_colon(&element, text, place_behind_blanks(text, element.next)) }
        _ => false,
    }
}

/// Where the element that is read at a place jumps ahead; behind the end nothing jumps.
#[tactic(auto, using(crate::proofs::Elements::no_skip_behind))]
pub fn skip_from(text: &[u8], at: usize) -> Skip
    requires { length text.now ≤ LIMIT }
    ensures { result ≡ skip_at text.now at }
{
    if at > text.len() {
        return Skip {
            to: None,
            leaves: 0,
        };
    }
    skip(text, at)
}

// A search text says a pattern.
fn check_pattern(element: &Element<'_>) -> Result<(), ExpandReason>
    ensures { Passes result (ways.as_fault
        (ways.pattern_parts element.now.kind element.now.text.now)) }
{
    match element.kind {
        Kind::Search(_) => match minimum(element.text) {
            Ok(_) => Ok(()),
            Err(_) => Err(ExpandReason::Fault),
        },
        _ => Ok(()),
    }
}

// What is read stays, if its search text says a pattern.
fn check(read: &Option<Element<'_>>) -> Result<(), ExpandReason>
    ensures { refused.Gives (λ _. option_map seen read.now) result
        (ways.sound (option_map seen read.now)) }
{
    match read {
        None => Ok(()),
        Some(element) => check_pattern(element),
    }
}

/// What is read at a position: an element, or the end of the text.
#[tactic(auto, unfolding(teco_verifier::specs::expansion::Ways::read_at))]
pub fn read_at<'a>(
    texts: &Texts<'a>,
    position: &TextPosition,
) -> Result<Option<Element<'a>>, ExpandReason>
    ensures read { refused.Gives (option_map seen) result
        (ways.read_at (position_seen texts.now position.now)) }
    ensures element { IfOk result (λ read. element_at
        (text_of texts.now position.now.running.register) position.now.running.place
        ≡ Ok (option_map seen read)) }
{
    let spot = &position.running;
    match read_element(texts.text(spot.register), spot.place) {
        Ok(read) => {
            check(&read)?;
            Ok(read)
        }
        Err(_) => Err(ExpandReason::Fault),
    }
}
