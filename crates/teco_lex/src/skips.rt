//! Skips over a text.
ghost use Rattle.std.specs.Prelude.{◌≡◌, ◌+◌, ◌<◌, ◌≤◌, length, option_map, IfSome};
ghost use Rattle.teco_base.specs.declared.TheConstants.{LIMIT};
ghost use Rattle.teco_model.specs.Ahead.{readings};
ghost use Rattle.teco_model.specs.Element.{seen};
ghost use Rattle.teco_model.specs.Skip as model;

use crate::ahead::{Reading, read_ahead};
use crate::readings::Readings;
use teco_model::kind::{Flow, Goal};
use teco_model::{Bracket, Element, Kind, Pairs, Route, Skip};

/// What an element is to a skip.
pub fn bracket(pairs: Pairs, kind: &Kind) -> Bracket
    ensures { result ≡ model.bracket pairs kind.now }
{
    let Kind::Flow(flow) = *kind else {
        return Bracket::Passes;
    };
    match (pairs, flow) {
        (Pairs::Iterations, Flow::Iterate) => Bracket::Opens,
        (Pairs::Iterations, Flow::EndTurn) => Bracket::Closes,
        (Pairs::Branches | Pairs::Tests, Flow::Test(_)) => Bracket::Opens,
        (Pairs::Branches | Pairs::Tests, Flow::EndTest) => Bracket::Closes,
        (Pairs::Branches, Flow::Otherwise) => Bracket::Stops,
        _ => Bracket::Passes,
    }
}

/// What an element is to a skip to a tag.
fn tag_bracket(tag: &[u8], element: &Element) -> Bracket
    ensures { result ≡ model.tag_bracket tag.now element.now.kind element.now.text.now }
{
    match &element.kind {
        Kind::Flow(Flow::Comment) if element.text == tag => Bracket::Stops,
        kind => bracket(Pairs::Iterations, kind),
    }
}

/// How an element may jump ahead.
pub fn route_of(kind: &Kind) -> Route
    ensures { result ≡ model.route_of kind.now }
{
    match *kind {
        Kind::Flow(Flow::Iterate) => Route::Past {
            pairs: Pairs::Iterations,
            leaves: 0,
        },
        Kind::Flow(Flow::Leave) | Kind::Search(_) => Route::Past {
            pairs: Pairs::Iterations,
            leaves: 1,
        },
        Kind::Flow(Flow::Test(_) | Flow::GoAhead(Goal::Otherwise)) => Route::Past {
            pairs: Pairs::Branches,
            leaves: 0,
        },
        Kind::Flow(Flow::Otherwise | Flow::GoAhead(Goal::EndTest)) => Route::Past {
            pairs: Pairs::Tests,
            leaves: 0,
        },
        Kind::Flow(Flow::GoAhead(Goal::EndTurn)) => Route::To {
            pairs: Pairs::Iterations,
        },
        Kind::Flow(Flow::GoTo) => Route::ToTag,
        _ => Route::Nowhere,
    }
}

/// How many inner pairs are open behind a bracket; `None` where the skip ends there.
fn inner_behind(bracket: Bracket, inner: usize) -> Option<usize>
    requires { inner < usize.MAX }
    ensures value { result ≡ model.inner_behind bracket inner }
    ensures few { IfSome result (λ behind. behind ≤ inner + 1) }
{
    match bracket {
        Bracket::Opens => Some(inner + 1),
        Bracket::Closes => inner.checked_sub(1),
        Bracket::Stops if inner == 0 => None,
        Bracket::Stops | Bracket::Passes => Some(inner),
    }
}

/// What ends the pair that a place stands in, or is a stop in it.
fn pair_end<'t>(pairs: Pairs, text: &'t [u8], at: usize) -> Option<Element<'t>>
    requires { at ≤ length text.now }
    ensures value { option_map seen result ≡ model.pair_end pairs 0 (readings text.now at) }
    ensures within { IfSome result (λ end. (end.place < end.next) × (end.next ≤ length text.now)) }
{
    let mut ahead = Readings::from(text, at);
    let mut inner = 0;
    while let Some(reading) = ahead.next() {
        if let Reading::Whole(element) = reading {
            match inner_behind(bracket(pairs, &element.kind), inner) {
                Some(behind) => inner = behind,
                None => return Some(element),
            }
        }
    }
    None
}

/// Past the end of the pair that a place stands in, or past a stop in it.
fn past_end(pairs: Pairs, text: &[u8], at: usize) -> Option<usize>
    requires { at ≤ length text.now }
    ensures value { result ≡ option_map (λ end. end.next)
        (model.pair_end pairs 0 (readings text.now at)) }
    ensures within { IfSome result (λ to. to ≤ length text.now) }
{
    let Some(end) = pair_end(pairs, text, at) else {
        return None;
    };
    Some(end.next)
}

/// To the end of the pair that a place stands in, or to a stop in it.
fn to_end(pairs: Pairs, text: &[u8], at: usize) -> Option<usize>
    requires { at ≤ length text.now }
    ensures value { result ≡ option_map (λ end. end.place)
        (model.pair_end pairs 0 (readings text.now at)) }
    ensures within { IfSome result (λ to. to ≤ length text.now) }
{
    let Some(end) = pair_end(pairs, text, at) else {
        return None;
    };
    Some(end.place)
}

/// Past the next tag that stands in no iteration opened on the way.
pub fn tag_skip(tag: &[u8], text: &[u8], at: usize) -> Skip
    requires short { length text.now ≤ LIMIT }
    requires inside { at ≤ length text.now }
    ensures value { result ≡ model.tag_skip tag.now 0 0 (readings text.now at) }
    ensures within { IfSome result.to (λ to. to ≤ length text.now) }
{
    let mut ahead = Readings::from(text, at);
    let mut inner = 0;
    let mut leaves = 0;
    while let Some(reading) = ahead.next() {
        if let Reading::Whole(element) = reading {
            let bracket = tag_bracket(tag, &element);
            match inner_behind(bracket, inner) {
                Some(behind) => inner = behind,
                None if matches!(bracket, Bracket::Closes) => leaves += 1,
                None => return Skip {
                    to: Some(element.next),
                    leaves,
                },
            }
        }
    }
    Skip { to: None, leaves }
}

/// Where the element at a place jumps ahead.
///
/// Reads on once, as far as is skipped.
pub fn skip(text: &[u8], at: usize) -> Skip
    requires short { length text.now ≤ LIMIT }
    requires inside { at ≤ length text.now }
    ensures value { result ≡ model.skip_at text.now at }
    ensures within { IfSome result.to (λ to. to ≤ length text.now) }
{
    let Some(Reading::Whole(element)) = read_ahead(text, at) else {
        return Skip {
            to: None,
            leaves: 0,
        };
    };
    match route_of(&element.kind) {
        Route::Nowhere => Skip {
            to: None,
            leaves: 0,
        },
        Route::Past { pairs, leaves } => Skip {
            to: past_end(pairs, text, element.next),
            leaves,
        },
        Route::To { pairs } => Skip {
            to: to_end(pairs, text, element.next),
            leaves: 0,
        },
        Route::ToTag => tag_skip(element.text, text, element.next),
    }
}
