//! Ways round a loop whose steps have no bound.
use crate::known_claims::KnownClaims;
use crate::potentials::promised;
use crate::wanted::{Scope, WantedBound};
use teco_bounds::measures::STEPS;
use teco_bounds::reduced::UsedLimits;
use teco_bounds::web::Web;
use teco_bounds::workspace::Workspace;

// The most paths of which some are sought that have no bound together.
const MOST_PATHS: usize = 60;

// The most pivots of a program, and its most rows.
const PIVOTS: usize = 500;

const ROWS: usize = 2000;

// Whether some paths alone have a bound of their steps that is found.
fn is_bounded(web: &Web, known: &mut KnownClaims, places: &[usize], space: &mut Workspace) -> bool {
    let wanted = WantedBound {
        place: STEPS,
        is_added: false,
        sign: 1,
        degree: 2,
        highest: 2,
        is_loose: false,
        limits: UsedLimits::None,
        scope: Scope::All,
        pivots: PIVOTS,
        rows: ROWS,
        only: Some(places),
    };
    promised(web, known, &wanted, space).is_some()
}

// The places of the paths round a node, or else of all between cut points, but not too many.
fn places_of(web: &Web, node: Option<usize>, space: &mut Workspace) -> Vec<usize> {
    let mut places = Vec::new(space.alloc);
    for (place, leg) in web.legs.iter().enumerate() {
        let is_one = match node {
            Some(number) => web.is_round(leg, number),
            None => leg.source != 0 && leg.target.is_some(),
        };
        if is_one && places.len() < MOST_PATHS {
            space.push(&mut places, place);
        }
    }
    places
}

// The first node whose turns alone have no bound that is found, or else the last one.
pub fn endless(web: &Web, known: &mut KnownClaims, space: &mut Workspace) -> usize {
    let mut last = 0;
    for start in web.starts.get(1..).unwrap_or(&[]) {
        if start.number == last {
            continue;
        }
        last = start.number;
        let turns = places_of(web, Some(last), space);
        if !is_bounded(web, known, &turns, space) {
            return last;
        }
    }
    last
}

// All places but one.
fn without(places: &[usize], left_out: usize, space: &mut Workspace) -> Vec<usize> {
    let mut rest = Vec::new(space.alloc);
    for place in places {
        if *place != left_out {
            space.push(&mut rest, *place);
        }
    }
    rest
}

// Leaves out a path if the rest has no bound; says whether work is left.
fn leave_out(
    web: &Web,
    known: &mut KnownClaims,
    left: &mut Vec<usize>,
    place: usize,
    space: &mut Workspace,
) -> bool {
    let rest = without(left, place, space);
    if space.is_stopped() {
        return false;
    }
    let is_bounded = is_bounded(web, known, &rest, space);
    if space.finish().is_err() {
        return false;
    }
    if !is_bounded {
        *left = rest;
    }
    true
}

// As few of these paths as have no bound together: each is left out in turn, the last one first, and
// stays so where the rest has none. Where work runs out they may be more than need be.
fn fewest(
    web: &Web,
    known: &mut KnownClaims,
    places: Vec<usize>,
    space: &mut Workspace,
) -> Vec<usize> {
    let all = space.listed(&places);
    let mut left = places;
    for place in all.iter().rev() {
        if !leave_out(web, known, &mut left, *place, space) {
            break;
        }
    }
    left
}

// The places of paths that have no bound together, as few as may be: of those round a node, or else of
// all between cut points.
pub fn unbounded(
    web: &Web,
    known: &mut KnownClaims,
    number: usize,
    space: &mut Workspace,
) -> Vec<usize> {
    let mut places = places_of(web, Some(number), space);
    if is_bounded(web, known, &places, space) {
        places = places_of(web, None, space);
        if is_bounded(web, known, &places, space) {
            places.clear();
        }
    }
    fewest(web, known, places, space)
}
