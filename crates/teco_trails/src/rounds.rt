//! Facts of keys, round by round, until they stay.
use crate::fault::SearchStop;
use crate::keys::{key_of, place_in, projected, raise_quotients};
use crate::notes::PathNotes;
use crate::search::PathSearch;
use crate::trail::{AskedTrail, Trail};
use teco_base::LIMIT;
use teco_bounds::bounds::{Bounds, NONE};
use teco_bounds::constraints::symbol_of;
use teco_bounds::keys::{Key, Keys};
use teco_bounds::measures::{NUMBER, family_of};
use teco_bounds::workspace::Workspace;

// The most rounds.
const MOST_ROUNDS: usize = 400;

// The most keys, and the most measures of one.
const MOST_KEYS: usize = 150;

const MOST_TOLD: usize = 80;

// From this round on bounds that are raised are widened, and from the other one let go.
const WIDENS: usize = 1;

const LETS_GO: usize = 6;

const LARGE: i64 = 1 << 24;

// The most arrivals that are kept.
const MOST_ARRIVALS: usize = 400;

// Where a path ends: its key, what it says of the measures there, and the trail, where programs may say
// more.
#[derive(Drop)]
struct Arrival {
    target: usize,
    facts: Bounds,
    trail: Option<Trail>,
}

// Where the paths from each key end by the facts that it has; none where that is not kept.
#[derive(Drop)]
pub struct Arrivals {
    of_keys: Vec<Option<Vec<Arrival>>>,
    count: usize,
}

// The keys, how often each was raised, and which are to be gone through.
#[derive(Drop)]
struct RoundWork {
    keys: Keys,
    raised: Vec<usize>,
    is_due: Vec<bool>,
    arrivals: Arrivals,
    // Whether bounds may have been widened.
    is_widened: bool,
}

impl Arrivals {
    // Takes out what is kept of a key.
    fn take(&mut self, place: usize) -> Option<Vec<Arrival>> {
        let taken = self.of_keys.get_mut(place)?.take()?;
        self.count = self.count.saturating_sub(taken.len());
        Some(taken)
    }

    // Keeps where the paths from a key end in place of what was kept, unless that makes too many.
    fn keep(&mut self, place: usize, arrivals: Vec<Arrival>) {
        let _before = self.take(place);
        let count = self.count.saturating_add(arrivals.len());
        if let Some(slot) = self.of_keys.get_mut(place)
            && count <= MOST_ARRIVALS
        {
            self.count = count;
            *slot = Some(arrivals);
        }
    }
}

// Facts of keys that stay, where the paths from these end, and whether the facts may be narrowed.
#[derive(Drop)]
pub struct SettledKeys {
    pub keys: Keys,
    arrivals: Arrivals,
    pub is_widened: bool,
}

impl RoundWork {
    // Adds a key with its facts.
    fn add(&mut self, key: Key, facts: Bounds, notes: &mut PathNotes) {
        if self.keys.keys.len() >= MOST_KEYS || key.told.len() > MOST_TOLD {
            notes.give_up();
            return;
        }
        self.keys.add(key, facts, &mut notes.space);
        notes.space.push(&mut self.raised, 0);
        notes.space.push(&mut self.is_due, true);
        notes.space.push(&mut self.arrivals.of_keys, None);
    }

    // Notes that a key was raised in a round.
    fn note_raised(&mut self, place: usize, round: usize) {
        self.is_widened = self.is_widened || round >= WIDENS;
        if let Some(count) = self.raised.get_mut(place) {
            *count = count.saturating_add(1);
        }
        if let Some(due) = self.is_due.get_mut(place) {
            *due = true;
        }
    }
}

// The key of the least node that is due.
fn next_due(work: &RoundWork) -> Option<usize> {
    let mut found = None;
    let mut least = usize::MAX;
    for (place, key) in work.keys.keys.iter().enumerate() {
        let is_due = work.is_due.get(place) == Some(&true);
        if is_due && (found.is_none() || key.number < least) {
            least = key.number;
            found = Some(place);
        }
    }
    found
}

// The least of some numbers that is no less than a bound.
fn widened(numbers: &[i64], most: i64) -> i64 {
    for number in numbers {
        if *number >= most {
            return *number;
        }
    }
    NONE
}

// Whether the bound of these rows is on a register's number alone.
fn is_number(facts: &Bounds, row: usize, column: usize) -> bool {
    let symbol = match (row, column) {
        (0, place) => symbol_of(facts, place),
        (place, 0) => symbol_of(facts, place),
        _ => None,
    };
    match symbol {
        Some(symbol) => family_of(symbol) == Some(NUMBER),
        None => false,
    }
}

impl PathSearch<'_> {
    // A bound that was raised, in a round; behind the first ones it is widened.
    fn raised(&self, facts: &Bounds, row: usize, column: usize, most: i64, round: usize) -> i64 {
        if round < WIDENS {
            return most;
        }
        if round > LETS_GO {
            return NONE;
        }
        let wide = widened(&self.numbers, most);
        let is_large = wide <= -LARGE || wide >= LARGE;
        if is_large && !(is_number(facts, row, column) && wide.saturating_abs() <= LIMIT as i64) {
            return NONE;
        }
        wide
    }

    // The key of a trail.
    pub fn key(&self, trail: &Trail, space: &mut Workspace) -> Key {
        key_of(trail, &self.flags, &self.spoken, space)
    }

    // What a trail says of the measures of its key.
    fn facts_of(&self, trail: &Trail, key: &Key, space: &mut Workspace) -> Bounds {
        let mut facts = projected(trail, &key.told, space);
        raise_quotients(&mut facts, key, &self.flags);
        facts
    }

    // Raises facts to those of a trail; says whether some were raised.
    fn raise(
        &self,
        facts: &mut Bounds,
        trail: &Trail,
        new: &Bounds,
        round: usize,
        notes: &mut PathNotes,
    ) -> bool {
        let mut is_raised = false;
        let mut asked = AskedTrail::of(trail);
        for row in 0..facts.size() {
            for column in 0..facts.size() {
                let most = new.at(row, column);
                let is_more = row != column && most > facts.at(row, column);
                if is_more && !asked.shows_bound(facts, row, column, notes) {
                    let most = self.raised(facts, row, column, most, round);
                    facts.set(row, column, most);
                    is_raised = true;
                }
            }
        }
        is_raised
    }

    // Raises the facts of a key that is known to those of a trail.
    fn raise_key(
        &self,
        work: &mut RoundWork,
        place: usize,
        trail: &Trail,
        new: &Bounds,
        notes: &mut PathNotes,
    ) {
        let round = work.raised.get(place).copied().unwrap_or(0);
        if let Some(facts) = work.keys.facts.get_mut(place) {
            if self.raise(facts, trail, new, round, notes) {
                work.note_raised(place, round);
            }
        }
    }

    // Takes a trail to its key, and tells where it ends.
    fn arrive(&self, work: &mut RoundWork, trail: Trail, notes: &mut PathNotes) -> Option<Arrival> {
        if trail.number > self.course.nodes.len() {
            return None;
        }
        let key = self.key(&trail, &mut notes.space);
        let facts = self.facts_of(&trail, &key, &mut notes.space);
        let known = place_in(&work.keys, &key);
        let target = known.unwrap_or(work.keys.keys.len());
        match known {
            Some(place) => self.raise_key(work, place, &trail, &facts, notes),
            None => work.add(key, facts.copied(&mut notes.space), notes),
        }
        Some(arrival_at(target, facts, trail))
    }

    // The key of the entry alone.
    fn first_keys(&self, notes: &mut PathNotes) -> Keys {
        let mut keys = Keys::none(self.alloc);
        if let Some(entry) = self.entry(notes) {
            let space = &mut notes.space;
            let key = self.key(&entry, space);
            let facts = Bounds::none(space);
            keys.add(key, facts, space);
        }
        keys
    }

    // Goes through a key: takes the trails that paths from it end with to their keys.
    fn go_through(&mut self, work: &mut RoundWork, place: usize, notes: &mut PathNotes) {
        if let Some(due) = work.is_due.get_mut(place) {
            *due = false;
        }
        let mut arrivals = Vec::new(self.alloc);
        for trail in self.explore(&work.keys, place, notes) {
            if let Some(arrival) = self.arrive(work, trail, notes) {
                notes.space.push(&mut arrivals, arrival);
            }
        }
        work.arrivals.keep(place, arrivals);
    }

    // Goes through keys until none is due; says whether that comes to pass.
    fn settle(&mut self, work: &mut RoundWork, notes: &mut PathNotes) -> bool {
        for _ in 0..MOST_ROUNDS {
            if notes.is_stopped() {
                return false;
            }
            let Some(place) = next_due(work) else {
                return true;
            };
            self.go_through(work, place, notes);
        }
        false
    }

    // The facts that stay.
    pub fn settled(&mut self) -> Result<SettledKeys, SearchStop> {
        let mut notes = PathNotes::new(false, self.alloc);
        let mut arrivals = Arrivals {
            of_keys: Vec::new(self.alloc),
            count: 0,
        };
        notes.space.push(&mut arrivals.of_keys, None);
        let mut work = RoundWork {
            raised: notes.space.repeated(0, 1),
            is_due: notes.space.repeated(true, 1),
            keys: self.first_keys(&mut notes),
            arrivals,
            is_widened: false,
        };
        if !self.settle(&mut work, &mut notes) {
            notes.give_up();
        }
        notes.finish()?;
        Ok(SettledKeys {
            keys: work.keys,
            arrivals: work.arrivals,
            is_widened: work.is_widened,
        })
    }

    // Where a trail ends by keys that are known; none where its own is not.
    fn arrival(&self, keys: &Keys, trail: Trail, notes: &mut PathNotes) -> Option<Arrival> {
        let key = self.key(&trail, &mut notes.space);
        let target = place_in(keys, &key)?;
        let facts = self.facts_of(&trail, &key, &mut notes.space);
        Some(arrival_at(target, facts, trail))
    }

    // Adds where a trail ends, if its key is known; says whether it is, or the macro is over.
    fn add_end(
        &self,
        keys: &Keys,
        trail: Trail,
        ends: &mut Vec<Arrival>,
        notes: &mut PathNotes,
    ) -> bool {
        if trail.number > self.course.nodes.len() {
            return true;
        }
        match self.arrival(keys, trail, notes) {
            Some(arrival) => {
                notes.space.push(ends, arrival);
                true
            }
            None => false,
        }
    }

    // Adds where the paths from a key end by keys that are known; says whether all of theirs are.
    fn add_ends(
        &mut self,
        keys: &Keys,
        place: usize,
        ends: &mut Vec<Arrival>,
        notes: &mut PathNotes,
    ) -> bool {
        let mut are_known = true;
        for trail in self.explore(keys, place, notes) {
            are_known = self.add_end(keys, trail, ends, notes) && are_known;
        }
        are_known
    }

    // Joins what paths by facts lead to into new facts; says whether all their keys are known.
    fn join_paths(
        &mut self,
        keys: &Keys,
        kept: &mut Arrivals,
        new: &mut [Option<Bounds>],
        notes: &mut PathNotes,
    ) -> bool {
        let mut is_done = notes.space.repeated(false, keys.keys.len());
        for _ in 0..keys.keys.len() {
            let Some(place) = next_open(&is_done, new) else {
                break;
            };
            if let Some(mark) = is_done.get_mut(place) {
                *mark = true;
            }
            let known = kept.take(place);
            let is_kept = known.is_some();
            let mut ends = known.unwrap_or(Vec::new(self.alloc));
            if !is_kept && !self.add_ends(keys, place, &mut ends, notes) {
                return false;
            }
            join_all(keys, ends, new, notes);
        }
        true
    }

    // The facts that paths by these facts lead to, of the keys that are come to. Where they lead to a
    // key that has none, they stay.
    pub fn narrowed(&mut self, settled: SettledKeys) -> Result<Keys, SearchStop> {
        let mut notes = PathNotes::new(false, self.alloc);
        let SettledKeys {
            keys,
            mut arrivals,
            is_widened: _is_widened,
        } = settled;
        let mut new = entry_facts(keys.keys.len(), &mut notes.space);
        let mut left = keys;
        if self.join_paths(&left, &mut arrivals, &mut new, &mut notes) {
            left = kept(left, new, &mut notes.space);
        }
        notes.finish()?;
        Ok(left)
    }
}

// Where a trail ends that says this at its key.
fn arrival_at(target: usize, facts: Bounds, trail: Trail) -> Arrival {
    let is_rough = trail.bounds.is_rough();
    Arrival {
        target,
        facts,
        trail: if is_rough { Some(trail) } else { None },
    }
}

// Joins what trails lead to into new facts.
fn join_all(
    keys: &Keys,
    arrivals: Vec<Arrival>,
    new: &mut [Option<Bounds>],
    notes: &mut PathNotes,
) {
    for arrival in arrivals {
        let mut found = arrival.facts;
        let (Some(facts), Some(slot)) = (
            keys.facts.get(arrival.target),
            new.get_mut(arrival.target),
        ) else {
            continue;
        };
        if let Some(trail) = &arrival.trail {
            keep_shown(trail, facts, &mut found, notes);
        }
        match slot {
            Some(old) => join(old, &found),
            None => *slot = Some(found),
        }
    }
}

// Keeps of what a trail says of a key's measures no more than the key's facts, where it shows these.
fn keep_shown(trail: &Trail, facts: &Bounds, new: &mut Bounds, notes: &mut PathNotes) {
    let mut asked = AskedTrail::of(trail);
    for row in 0..new.size() {
        for column in 0..new.size() {
            let most = facts.at(row, column);
            let is_more = row != column && new.at(row, column) > most;
            if is_more && asked.shows_bound(facts, row, column, notes) {
                new.set(row, column, most);
            }
        }
    }
}

// Raises facts to others.
fn join(facts: &mut Bounds, others: &Bounds) {
    for row in 0..facts.size() {
        for column in 0..facts.size() {
            let most = facts.at(row, column).max(others.at(row, column));
            facts.set(row, column, most);
        }
    }
}

// The first key that has new facts and is not done.
fn next_open(is_done: &[bool], new: &[Option<Bounds>]) -> Option<usize> {
    is_done
        .iter()
        .zip(new.iter())
        .position(|(is_done, facts)| !*is_done && facts.is_some())
}

// The facts of so many keys, of which only the first has any, that of the entry.
fn entry_facts(count: usize, space: &mut Workspace) -> Vec<Option<Bounds>> {
    let mut new = Vec::new(space.alloc);
    for place in 0..count {
        let facts = if place == 0 {
            Some(Bounds::none(space))
        } else {
            None
        };
        space.push(&mut new, facts);
    }
    new
}

// The keys that have new facts.
fn kept(keys: Keys, new: Vec<Option<Bounds>>, space: &mut Workspace) -> Keys {
    let mut left = Keys::none(space.alloc);
    for (key, facts) in keys.keys.into_iter().zip(new.into_iter()) {
        if let Some(facts) = facts {
            left.add(key, facts, space);
        }
    }
    left
}
