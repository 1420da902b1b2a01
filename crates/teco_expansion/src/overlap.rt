//! Pairs that overlap.
ghost use Rattle.std.specs.Prelude.{◌≡◌, ◌+◌, ◌<◌, ◌≤◌, length, option_map, Ok, Some, true};
ghost use Rattle.teco_model.specs.Ahead.{Whole};
ghost use Rattle.teco_model.specs.Element.{element_at, seen};
ghost use Rattle.teco_model.specs.Skip.{skip_of};
ghost use Rattle.teco_verifier.specs.expansion.Overlap as model;
ghost use Rattle.teco_expansion.specs.Crossed as told;
ghost use Rattle.teco_expansion.specs.Crossed.{crossed_seen};
ghost use Rattle.teco_expansion.specs.Seen.{spot_seen, position_seen, ways_seen};
ghost use Rattle.teco_expansion.specs.Texts.{text_of};

use crate::spot::{Spot, TextPosition};
use crate::texts::Texts;
use crate::ways::{Ways, skip_at};
use teco_lex::{Reading, Readings, bracket};
use teco_model::kind::{Flow, Goal, Kind};
use teco_model::{Bracket, Element, Pairs};
use teco_scan::Crossing;

/// On the way between two places: how many iterations begin and do not end, and whether one ends
/// that did not begin.
#[derive(Clone, Copy)]
pub struct Crossed {
    pub begun: usize,
    pub ended: bool,
}

fn behind_bracket(bracket: Bracket, before: Crossed) -> Crossed
    requires { before.begun < usize.MAX }
    ensures value { crossed_seen result ≡ model.behind_bracket bracket (crossed_seen before) }
    ensures few { result.begun ≤ before.begun + 1 }
{
    match bracket {
        Bracket::Opens => Crossed {
            begun: before.begun + 1,
            ended: before.ended,
        },
        Bracket::Closes => match before.begun.checked_sub(1) {
            None => Crossed {
                begun: 0,
                ended: true,
            },
            Some(begun) => Crossed {
                begun,
                ended: before.ended,
            },
        },
        Bracket::Stops | Bracket::Passes => before,
    }
}

/// What is crossed on the way from a place to another.
fn crossed_between(text: &[u8], from: usize, to: usize) -> Crossed
    ensures { crossed_seen result ≡ model.crossed text.now from to }
{
    let mut way = Crossed {
        begun: 0,
        ended: false,
    };
    if from > text.len() {
        return way;
    }
    let mut ahead = Readings::from(text, from);
    while let Some(reading) = ahead.next() {
        if let Reading::Whole(element) = reading {
            if to <= element.place {
                return way;
            }
            way = behind_bracket(bracket(Pairs::Iterations, &element.kind), way);
        }
    }
    way
}

/// Whether an iteration ends behind a place that began before it.
fn ends_behind(text: &[u8], place: usize) -> bool
    ensures { result ≡ (model.crossed text.now place (length text.now)).ended }
{
    crossed_between(text, place, text.len()).ended
}

/// Whether a way leads where other iterations are open, by what is read on it and behind it.
fn parts_ahead(texts: &Texts<'_>, spot: &Spot, from: usize, to: usize) -> bool
    ensures { result ≡ model.parts_on (spot_seen texts.now spot.now) from to }
{
    let text = texts.text(spot.register);
    let way = crossed_between(text, from, to);
    (way.ended && spot.starts.len() > 0) || (way.begun > 0 && ends_behind(text, to))
}

/// Whether an iteration ends before a place, if it ends.
fn ends_before(end: Option<u32>, place: usize) -> bool
    ensures { result ≡ told.ends_before end place }
{
    match end {
        None => false,
        Some(end) => (end as usize) < place,
    }
}

/// Whether it ends there or behind it.
fn ends_from(end: Option<u32>, place: usize) -> bool
    ensures { result ≡ told.ends_from end place }
{
    match end {
        None => false,
        Some(end) => end as usize >= place,
    }
}

/// Whether a jump past a pair leads where other iterations are open, by what it crosses.
fn crosses(crossing: Crossing, started: usize, to: usize) -> bool
    ensures { result ≡ told.crosses crossing started to }
{
    (ends_before(crossing.end, to) && started > 0)
        || (crossing.depth > 0 && !ends_from(crossing.outer, to))
}

/// Whether the jump of an element leads to a place.
fn lands(texts: &Texts<'_>, element: &Element<'_>, spot: &Spot, to: usize) -> bool
    requires { element_at (text_of texts.now spot.now.register) spot.now.place
        ≡ Ok (Some (seen element.now)) }
    ensures { let text = text_of texts.now spot.now.register in result
        ≡ told.lands text (skip_of text (Whole (seen element.now))).to to }
{
    match skip_at(texts, element, spot).to {
        None => false,
        Some(place) => texts.behind_blanks(spot.register, place) == to,
    }
}

/// Whether a way leads where other iterations are open. What a jump crosses is looked up, where it
/// is kept.
fn parts_on(texts: &Texts<'_>, element: &Element<'_>, spot: &Spot, to: usize) -> bool
    requires read { element_at (text_of texts.now spot.now.register) spot.now.place
        ≡ Ok (Some (seen element.now)) }
    requires branch { model.is_branch element.now.kind ≡ true }
    ensures { result ≡ model.parts_on (spot_seen texts.now spot.now) element.now.next to }
{
    if to <= texts.behind_blanks(spot.register, element.next) {
        return false;
    }
    if !lands(texts, element, spot, to) {
        return parts_ahead(texts, spot, element.next, to);
    }
    match texts.crossing(spot.register, spot.place) {
        None => parts_ahead(texts, spot, element.next, to),
        Some(crossing) => crosses(crossing, spot.starts.len(), to),
    }
}

/// Conditionals, and what goes to their branches and ends.
fn is_branch(kind: &Kind) -> bool
    ensures { result ≡ model.is_branch kind.now }
{
    matches!(
        *kind,
        Kind::Flow(Flow::Test(_) | Flow::Otherwise | Flow::GoAhead(Goal::EndTest | Goal::Otherwise))
    )
}

/// Whether any way leads where other iterations are open.
fn any_parts(texts: &Texts<'_>, element: &Element<'_>, ways: &Ways, spot: &Spot) -> bool
    requires read { element_at (text_of texts.now spot.now.register) spot.now.place
        ≡ Ok (Some (seen element.now)) }
    requires branch { model.is_branch element.now.kind ≡ true }
    ensures { result ≡ model.any_parts (spot_seen texts.now spot.now)
        element.now.next (ways_seen texts.now ways.now) }
{
    match ways {
        Ways::End => false,
        Ways::One(way) => parts_on(texts, element, spot, way.running.place),
        Ways::Two(first, second) => {
            parts_on(texts, element, spot, first.running.place)
                || parts_on(texts, element, spot, second.running.place)
        }
    }
}

/// Whether pairs overlap where this is read, from which these ways lead.
pub fn overlaps(
    texts: &Texts<'_>,
    read: &Option<Element<'_>>,
    ways: &Ways,
    position: &TextPosition,
) -> bool
    requires { element_at (text_of texts.now position.now.running.register)
        position.now.running.place ≡ Ok (option_map seen read.now) }
    ensures { result ≡ model.overlaps (option_map seen read.now) (ways_seen texts.now ways.now)
        (position_seen texts.now position.now) }
{
    match read {
        None => false,
        Some(element) => {
            is_branch(&element.kind) && any_parts(texts, element, ways, &position.running)
        }
    }
}
