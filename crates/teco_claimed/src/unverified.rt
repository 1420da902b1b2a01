//! Why no claims of a macro are found, and what more would do.
ghost use Rattle.std.specs.Prelude.{◌≡◌};

use crate::refusal::{LinearRefusal, NodePlace, place_at};
use std::alloc::Global;
use teco_expansion::Nodes;
use teco_model::Needs;
use teco_paths::claimed::Called;
use teco_paths::search::{SearchFailure, SearchRefusal, Shortfall};

/// What more would show a condition of a macro.
#[derive(Drop)]
pub struct Unshown {
    /// Where the element stands at which that is told.
    pub at: NodePlace,
    pub reason: Shortfall,
    /// Where the elements of each of its ways stand.
    pub ways: Vec<Vec<NodePlace>>,
}

/// Why a macro of a library is not verified by claims.
#[derive(Drop)]
pub struct Unverified {
    pub refusal: LinearRefusal,
    /// What more would do, where the quickest way of looking can tell that.
    pub unshown: Option<Unshown>,
    /// The files that were open in the call of which none are found.
    pub needs: Needs,
    /// How many steps of the search are left.
    pub left: usize,
    /// Whether a way of looking was given up at its limit: with more effort it may find claims.
    pub is_given_up: bool,
}

impl From<LinearRefusal> for Unverified {
    ghost from_gives = { λ refusal unverified. unverified.refusal ≡ refusal };

    fn from(refusal: LinearRefusal) -> Unverified {
        Unverified {
            refusal,
            unshown: None,
            needs: Needs {
                input: false,
                output: false,
            },
            left: 0,
            is_given_up: false,
        }
    }
}

impl Unverified {
    /// Where no claims of a macro are found that is called so.
    pub(crate) fn of_search(
        called: &Called<'_>,
        failure: SearchFailure,
        alloc: Global,
    ) -> Unverified {
        let SearchFailure { refusal, shortfall } = failure;
        Unverified {
            refusal: LinearRefusal::of_search(called.nodes, refusal),
            unshown: unshown_by(called.nodes, shortfall, alloc),
            needs: called.needs,
            left: 0,
            is_given_up: matches!(refusal, SearchRefusal::TooMuch(_)),
        }
    }
}

// Where the elements of some numbers stand.
fn places_of(nodes: &Nodes<'_>, numbers: &[usize], alloc: Global) -> Vec<NodePlace> {
    let mut places = Vec::new(alloc);
    for number in numbers {
        let is_kept = match place_at(nodes, Some(*number)) {
            Some(place) => places.push(place).is_ok(),
            None => true,
        };
        if !is_kept {
            break;
        }
    }
    places
}

// A shortfall, if there is one, where its elements stand.
fn unshown_by(nodes: &Nodes<'_>, shortfall: Option<Shortfall>, alloc: Global) -> Option<Unshown> {
    let reason = shortfall?;
    let at = place_at(nodes, Some(reason.point))?;
    let mut ways = Vec::new(alloc);
    for way in &reason.ways {
        ways.push(places_of(nodes, way, alloc)).ok()?;
    }
    Some(Unshown { at, reason, ways })
}
