//! What would show a condition that could not be shown, in the measures that claims speak of.
use crate::written::{claim_of, fact_claims};
use teco_bounds::forms::shifted;
use teco_bounds::keys::Keys;
use teco_bounds::measures::is_count;
use teco_bounds::record::OpenCondition;
use teco_bounds::web::{LegStart, Web};
use teco_bounds::workspace::Workspace;
use teco_claims::Claim;
use teco_linear::{Form, Scale, Term};
use teco_paths::search::Shortfall;
use teco_potentials::known_claims::KnownClaims;
use teco_potentials::ways::unbounded;
use teco_trails::fault::{SearchRefusal, SearchStop};
use teco_trails::search::PathSearch;

// The most ways that are told.
const MOST_WAYS: usize = 3;

// How many rows programs may go through that look for them.
const WORK: usize = 2_000_000;

// The number that a form is, if it speaks of nothing.
fn number_of(form: &Form) -> Option<i64> {
    match form.terms() {
        [] => Some(0),
        [term] if term.power == 0 && term.symbol.is_none() => {
            i64::try_from(term.coefficient).ok()
        }
        _ => None,
    }
}

// The place of a measure that is no count, and its form, if it has one.
fn measured(entry: (usize, &Option<Form>)) -> Option<(u32, &Form)> {
    let (place, form) = entry;
    let place = u32::try_from(place).ok()?;
    if is_count(place) {
        return None;
    }
    Some((place, form.as_ref()?))
}

// The measures' places of which a form is the difference, and how much more it is; where it is one
// alone, the place of that.
fn difference_in(form: &Form, forms: &[Option<Form>], space: &mut Workspace) -> Option<Form> {
    for (place, more) in forms.iter().enumerate().filter_map(measured) {
        let rest = space.difference(form, more);
        if let Some(rest) = rest_in(&rest, forms, space) {
            let one = shifted(Some(place), 0, space);
            return Some(space.sum(&one, &rest));
        }
    }
    less_in(form, forms, space)
}

// A form that is a number, or one less a measure, by the measures' places.
fn rest_in(form: &Form, forms: &[Option<Form>], space: &mut Workspace) -> Option<Form> {
    match number_of(form) {
        Some(number) => Some(shifted(None, number, space)),
        None => less_in(form, forms, space),
    }
}

// A form that is a number less a measure, by the measures' places.
fn less_in(form: &Form, forms: &[Option<Form>], space: &mut Workspace) -> Option<Form> {
    for (place, less) in forms.iter().enumerate().filter_map(measured) {
        if let Some(number) = number_of(&space.sum(form, less)) {
            let one = shifted(Some(place), 0, space);
            let number = shifted(None, number, space);
            return Some(space.difference(&number, &one));
        }
    }
    None
}

// The symbol that a form is, if it is just one.
fn symbol_of(form: &Form) -> Option<u32> {
    match form.terms() {
        [term] if term.power == 0 && term.coefficient == 1 => term.symbol,
        _ => None,
    }
}

// The place of the measure that a symbol stands for where paths begin.
fn place_at(start: &LegStart, symbol: u32) -> Option<u32> {
    let is_it = |form: &Option<Form>| form.as_ref().and_then(symbol_of) == Some(symbol);
    u32::try_from(start.forms.iter().position(is_it)?).ok()
}

// A term over the symbols that paths begin with, over the measures that these stand for there; none where
// it speaks of another symbol.
fn term_at(term: &Term, start: &LegStart, space: &mut Workspace) -> Option<Form> {
    let scale = Scale {
        factor: term.coefficient,
        power: term.power,
    };
    let one = match term.symbol {
        Some(symbol) => shifted(Some(place_at(start, symbol)?), 0, space),
        None => space.constant(1),
    };
    Some(space.scaled(&one, &scale))
}

// A form over the symbols that paths begin with, over the measures that these stand for there; none
// where it speaks of other symbols.
fn measured_at(form: &Form, start: &LegStart, space: &mut Workspace) -> Option<Form> {
    let mut sum = Form::zero(space.alloc);
    for term in form.terms() {
        let part = term_at(term, start, space)?;
        sum = space.sum(&sum, &part);
    }
    Some(sum)
}

// The number of the first cut point behind the entry, or 0.
fn first_of(keys: &Keys) -> usize {
    keys.keys.get(1).map_or(0, |key| key.number)
}

// A condition on paths from a point as a claim there, if it speaks of what is there alone.
fn claim_at(
    search: &PathSearch<'_>,
    start: &LegStart,
    open: &OpenCondition,
    space: &mut Workspace,
) -> Option<Claim> {
    let form = measured_at(&open.wanted, start, space)?;
    claim_of(search, start.number, &form, space)
}

// A condition as a claim where its element stands.
fn claim_there(
    search: &PathSearch<'_>,
    open: &OpenCondition,
    space: &mut Workspace,
) -> Option<Claim> {
    let form = difference_in(&open.wanted, &open.forms, space)?;
    claim_of(search, open.number, &form, space)
}

// What is known at a key, as claims.
fn known_at(
    search: &PathSearch<'_>,
    keys: &Keys,
    place: Option<usize>,
    space: &mut Workspace,
) -> Vec<Claim> {
    let place = place.unwrap_or(usize::MAX);
    match (keys.keys.get(place), keys.facts.get(place)) {
        (Some(key), Some(facts)) => fact_claims(search, key, facts, false, space),
        _ => Vec::new(space.alloc),
    }
}

// Why a condition of an element could not be shown: the first one of it.
fn unshown(
    search: &PathSearch<'_>,
    web: &Web,
    keys: &Keys,
    number: usize,
    space: &mut Workspace,
) -> Option<Shortfall> {
    let open = web.record.opens.iter().find(|open| {
        open.number == number && open.source < web.starts.len()
    })?;
    let start = web.starts.get(open.source)?;
    Some(Shortfall {
        needed: claim_there(search, open, space),
        point: start.number,
        wanted: claim_at(search, start, open, space),
        known: known_at(search, keys, Some(open.source), space),
        ways: Vec::new(space.alloc),
    })
}

// The key where paths begin at a node: that of the first of some, or else the first one.
fn place_at_node(web: &Web, keys: &Keys, number: usize, paths: &[usize]) -> Option<usize> {
    let of_paths = paths
        .iter()
        .filter_map(|at| web.legs.get(*at))
        .map(|leg| leg.source);
    let is_there = |place: &usize| keys
        .keys
        .get(*place)
        .is_some_and(|key| key.number == number);
    of_paths.chain(0..keys.keys.len()).find(is_there)
}

// The elements on paths, each way once.
fn ways_of(web: &Web, paths: &[usize], space: &mut Workspace) -> Vec<Vec<usize>> {
    let mut ways: Vec<Vec<usize>> = Vec::new(space.alloc);
    for path in paths {
        let last = match web.legs.get(*path) {
            Some(leg) => leg.passed,
            None => None,
        };
        let way = web.record.way(last, space);
        let is_new = ways.iter().all(|other| other.as_slice() != way.as_slice());
        if is_new && ways.len() < MOST_WAYS {
            space.push(&mut ways, way);
        }
    }
    ways
}

// What is known at a node from which paths lead on without a bound.
fn endless(
    search: &PathSearch<'_>,
    web: &Web,
    keys: &Keys,
    at: (usize, &[usize]),
    space: &mut Workspace,
) -> Shortfall {
    let (number, paths) = at;
    let place = place_at_node(web, keys, number, paths);
    Shortfall {
        needed: None,
        point: number,
        wanted: None,
        known: known_at(search, keys, place, space),
        ways: ways_of(web, paths, space),
    }
}

// Why a search stops, as far as that can be told.
pub fn reason_for(
    search: &PathSearch<'_>,
    web: &Web,
    keys: &Keys,
    known: &mut KnownClaims,
    stop: SearchStop,
) -> Option<Shortfall> {
    let mut space = Workspace::new(search.alloc);
    let reason = match stop {
        SearchStop::Refused(SearchRefusal::Condition(number)) => {
            unshown(search, web, keys, number, &mut space)
        }
        SearchStop::Refused(SearchRefusal::Steps(number)) => {
            known.work = WORK;
            let paths = unbounded(web, known, number, &mut space);
            Some(endless(search, web, keys, (number, &paths), &mut space))
        }
        SearchStop::Refused(SearchRefusal::Size) => {
            Some(endless(search, web, keys, (first_of(keys), &[]), &mut space))
        }
        _ => None,
    };
    if space.is_stopped() { None } else { reason }
}
