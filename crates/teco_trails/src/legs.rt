//! The paths between keys.
use crate::cuts::around;
use crate::fault::SearchStop;
use crate::keys::{place_in, projected};
use crate::notes::PathNotes;
use crate::search::PathSearch;
use crate::trail::{AskedTrail, Trail};
use teco_bounds::keys::Keys;
use teco_bounds::reduced::{Bounded, UsedLimits};
use teco_bounds::web::{Leg, LegStart, Web};

// Whether a trail shows the facts of a key.
fn is_covered(keys: &Keys, target: usize, trail: &Trail, notes: &mut PathNotes) -> bool {
    let (Some(key), Some(facts)) = (keys.keys.get(target), keys.facts.get(target)) else {
        return false;
    };
    let new = projected(trail, &key.told, &mut notes.space);
    let mut asked = AskedTrail::of(trail);
    for row in 0..facts.size() {
        for column in 0..facts.size() {
            let is_more = row != column && new.at(row, column) > facts.at(row, column);
            if is_more && !asked.shows_between(facts, row, column, notes) {
                return false;
            }
        }
    }
    true
}

impl PathSearch<'_> {
    // The key that a trail ends at, if it is not the end.
    fn target(&self, keys: &Keys, trail: &Trail, notes: &mut PathNotes) -> Option<usize> {
        if trail.number > self.course.nodes.len() {
            return None;
        }
        let key = self.key(trail, &mut notes.space);
        match place_in(keys, &key) {
            Some(target) if is_covered(keys, target, trail, notes) => Some(target),
            _ => {
                notes.stop(SearchStop::Unstable);
                None
            }
        }
    }

    // The path that a trail is the end of.
    fn leg(&self, keys: &Keys, source: usize, trail: Trail, notes: &mut PathNotes) -> Leg {
        let target = self.target(keys, &trail, notes);
        let case = trail.case;
        Leg {
            source,
            target,
            bounded: Bounded::of(&case.constraints, UsedLimits::None, &mut notes.space),
            forms: case.forms,
            constraints: case.constraints,
            peak: trail.peak,
            passed: trail.passed,
        }
    }

    // A key, as a trail that begins there tells it.
    fn leg_start(&self, first: Trail, place: usize, notes: &mut PathNotes) -> LegStart {
        let mut own = Vec::new(self.alloc);
        if place != 0 {
            notes.space.extend(&mut own, first.bounds.symbols());
        }
        let case = first.case;
        LegStart {
            number: first.number,
            around: around(self.course.nodes, first.number, &mut notes.space),
            forms: case.forms,
            constraints: case.constraints,
            own,
            bounds: first.bounds,
        }
    }

    // Adds a key and the paths from it.
    fn add_legs(&mut self, web: &mut Web, keys: &Keys, place: usize, notes: &mut PathNotes) {
        if let Some(first) = self.start(keys, place, notes) {
            let start = self.leg_start(first, place, notes);
            notes.space.push(&mut web.starts, start);
        }
        for trail in self.explore(keys, place, notes) {
            let leg = self.leg(keys, place, trail, notes);
            notes.space.push(&mut web.legs, leg);
        }
    }

    // All paths between keys.
    pub fn web(&mut self, keys: &Keys) -> Result<Web, SearchStop> {
        let mut notes = PathNotes::new(true, self.alloc);
        let mut web = Web::none(self.alloc);
        for place in 0..keys.keys.len() {
            if !notes.is_stopped() {
                self.add_legs(&mut web, keys, place, &mut notes);
            }
        }
        notes.finish()?;
        web.record = notes.record;
        Ok(web)
    }
}
