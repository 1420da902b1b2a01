//! Where ways lead: to the next that stand where the machine will stand.
ghost use Rattle.std.specs.Prelude.{◌≡◌, ◌<◌, ◌≤◌, [], ◌∷◌, IfOk, length, map, option_map};
ghost use Rattle.teco_model.specs.Element.{seen};
ghost use Rattle.teco_verifier.specs.expansion.Expansion as model;
ghost use Rattle.teco_verifier.specs.expansion.Node as node;
ghost use Rattle.teco_verifier.specs.expansion.Position as places;
ghost use Rattle.teco_expansion.specs.Few.{listed};
ghost use Rattle.teco_expansion.specs.Linking.{open_in, has_place, way_number, IsLink, numbers_of, overlap_of};
ghost use Rattle.teco_expansion.specs.Refused.{refusal_seen, Answers};
ghost use Rattle.teco_expansion.specs.Seen.{position_seen, stand_seen, visit_seen, ways_seen};
ghost use Rattle.teco_expansion.specs.Walks.{walk_seen};
ghost use Rattle.teco_expansion.specs.declared.few.TheConstants.{ROOM};

use crate::few::{OpenList, ROOM};
use crate::refusal::{ExpandReason, PlacedReason};
use crate::same::{same_place, same_stand};
use crate::spot::{Spot, Stand, TextPosition};
use crate::steps::refusal_at;
use crate::texts::Texts;
use crate::visit::Visit;
use crate::walk::Walk;
use crate::ways::Ways;
use teco_model::Element;
use teco_model::kind::{Flow, Kind};

// How many iterations are open in a text that waits, if one does.
fn open_in(caller: Option<Spot>) -> usize
    ensures value { result ≡ open_in caller }
    ensures few { result ≤ ROOM }
{
    match caller {
        None => 0,
        Some(spot) => spot.starts.len(),
    }
}

// How many iterations are open, in the texts that wait too.
#[tactic(auto, using(crate::proofs::Depths::left_at))]
fn depth(texts: &Texts<'_>, position: &TextPosition) -> usize
    ensures { result ≡ places.depth (position_seen texts.now position.now) }
{
    let mut count = position.running.starts.len();
    for at in 0..ROOM {
        count += open_in(position.callers.get(at));
    }
    count
}

// Where a way leads from the node of a number.
fn stand_at(texts: &Texts<'_>, number: usize, from: &Stand, target: &TextPosition) -> Stand
    requires { length (listed from.now.iterations) < ROOM }
    ensures { stand_seen texts.now result
        ≡ node.stand_at number (stand_seen texts.now from.now)
        (position_seen texts.now target.now) }
{
    let (before, after) = (depth(texts, &from.position), depth(texts, target));
    let iterations = if before < after {
        from.iterations.with(number)
    } else {
        from.iterations.without(before - after)
    };
    Stand {
        position: *target,
        iterations,
    }
}

// The number of the next behind a number that stands so.
fn number_behind(texts: &Texts<'_>, number: usize, stands: &[Stand], stand: &Stand) -> Option<usize>
    ensures { result ≡ model.number_behind number (map (stand_seen texts.now) stands.now)
        (stand_seen texts.now stand.now) }
{
    for at in number..stands.len() {
        if same_stand(texts, stand, &stands[at]) {
            return Some(at + 1);
        }
    }
    None
}

// Is it at the same place?
fn is_at(texts: &Texts<'_>, position: &TextPosition, stand: &Stand) -> bool
    ensures { result ≡ model.same_place (position_seen texts.now position.now)
        (stand_seen texts.now stand.now).position }
{
    same_place(texts, position, &stand.position)
}

// Does any behind a number stand at the same place?
fn any_place(texts: &Texts<'_>, number: usize, stands: &[Stand], position: &TextPosition) -> bool
    ensures { result ≡ has_place number (map (stand_seen texts.now) stands.now)
        (position_seen texts.now position.now) }
{
    for at in number..stands.len() {
        if is_at(texts, position, &stands[at]) {
            return true;
        }
    }
    false
}

/// A visit whose ways are being numbered: the stands among which they lead, what the walk came to
/// that gave those, and the number of the visited element.
#[derive(Clone, Copy)]
pub struct Link<'a> {
    pub texts: &'a Texts<'a>,
    pub walk: &'a Walk,
    pub stands: &'a [Stand],
    pub number: usize,
    pub visit: &'a Visit,
}

// Why a way leads nowhere: pairs overlap, or the walk was refused before it came there.
fn refusal_of_way(link: &Link<'_>, first: usize, stand: &Stand) -> PlacedReason
    ensures { refusal_seen result ≡ model.refusal_of_way first
        (map (stand_seen link.now.texts.now) link.now.stands.now)
        (option_map refusal_seen link.now.walk.now.refusal)
        (overlap_of link.now) (stand_seen link.now.texts.now stand.now) }
{
    let overlap = refusal_at(link.texts, link.visit, ExpandReason::Unpaired);
    if any_place(link.texts, first, link.stands, &stand.position) {
        return overlap;
    }
    link.walk.refusal.unwrap_or(overlap)
}

// The number that one way leads to.
fn number_of_way(
    link: &Link<'_>,
    first: usize,
    target: &TextPosition,
) -> Result<usize, PlacedReason>
    requires { IsLink link.now }
    ensures { Answers (λ way. way) result
        (way_number link.now.texts.now.entry (walk_seen link.now.texts.now link.now.walk.now)
        first link.now.number (visit_seen link.now.texts.now link.now.visit.now)
        (position_seen link.now.texts.now target.now)) }
{
    let stand = stand_at(link.texts, link.number, &link.visit.stand, target);
    match number_behind(link.texts, first, link.stands, &stand) {
        Some(way) => Ok(way),
        None => Err(refusal_of_way(link, first, &stand)),
    }
}

// The number of the only way that is left.
#[tactic(auto, unfolding(teco_verifier::specs::expansion::Expansion::way_numbers))]
fn last_number(
    link: &Link<'_>,
    first: usize,
    target: &TextPosition,
) -> Result<OpenList<usize>, PlacedReason>
    requires { IsLink link.now }
    ensures value { Answers listed result
        (numbers_of first (position_seen link.now.texts.now target.now ∷ []) link.now) }
    ensures few { IfOk result (λ ways. length (listed ways) ≡ 1) }
{
    let way = number_of_way(link, first, target)?;
    Ok(OpenList::empty(0).with(way))
}

/// The numbers that ways lead to, the first of them behind a number of its own.
#[tactic(auto, unfolding(teco_verifier::specs::expansion::Expansion::way_numbers))]
pub fn way_numbers(
    link: &Link<'_>,
    first: usize,
    ways: &Ways,
) -> Result<OpenList<usize>, PlacedReason>
    requires { IsLink link.now }
    ensures { Answers listed result
        (numbers_of first (ways_seen link.now.texts.now ways.now) link.now) }
{
    match ways {
        Ways::End => Ok(OpenList::empty(0)),
        Ways::One(target) => last_number(link, first, target),
        Ways::Two(one, other) => {
            let way = number_of_way(link, first, one)?;
            match last_number(link, link.number, other) {
                Ok(last) => Ok(last.with(way)),
                Err(refusal) => Err(refusal),
            }
        }
    }
}

/// The number behind which the first way leads.
pub fn base_of(read: &Option<Element<'_>>, number: usize, iterations: &OpenList<usize>) -> usize
    ensures { result ≡ node.base_of (option_map seen read.now) number (listed iterations.now) }
{
    let Some(element) = read else {
        return number;
    };
    match element.kind {
        Kind::Flow(Flow::EndTurn) => iterations.get(0).unwrap_or(0),
        _ => number,
    }
}
