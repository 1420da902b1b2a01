//! Steps level by level: what falls in each turn of an outer iteration, and between two turns of it what
//! falls in those of the iterations inside.
use crate::known_claims::KnownClaims;
use crate::potentials::{PotentialProgram, form_of, lowest};
use crate::wanted::{Scope, WantedBound};
use teco_bounds::measures::STEPS;
use teco_bounds::programs::Coefficient;
use teco_bounds::reduced::UsedLimits;
use teco_bounds::web::{Leg, Web};
use teco_bounds::workspace::Workspace;
use teco_linear::Form;
use teco_simplex::{Assignment, Relation, Sign};

// The most levels.
const MOST_LEVELS: usize = 24;

// The most pivots of a program.
pub const PIVOTS: usize = 2000;

// A level: the keys that paths lead round, the level that they are in, what falls at each key and how
// much it is at most, what a fall is worth, what coming to the level is worth, and what is to come at
// each key behind what is inside.
#[derive(Drop)]
pub struct KeyLevel {
    pub keys: Vec<bool>,
    pub parent: Option<usize>,
    pub forms: Vec<Form>,
    pub bound: Vec<u128>,
    pub worth: Vec<u128>,
    pub all: Vec<u128>,
    pub tails: Vec<Vec<u128>>,
}

impl KeyLevel {
    pub fn has(&self, key: usize) -> bool {
        self.keys.get(key) == Some(&true)
    }
}

// What is wanted of programs here.
pub fn wanted_of(highest: u32) -> WantedBound<'static> {
    WantedBound {
        place: STEPS,
        is_added: false,
        sign: 1,
        degree: 1,
        highest,
        is_loose: true,
        limits: UsedLimits::None,
        scope: Scope::All,
        pivots: PIVOTS,
        rows: 2000,
        only: None,
    }
}

// Levels, and of each path the one in which it is a turn, if it is one.
#[derive(Drop)]
pub struct Levels {
    pub levels: Vec<KeyLevel>,
    pub turn_of: Vec<Option<usize>>,
    // The highest power of N that turns are within.
    highest: u32,
}

impl Levels {
    // The innermost level that has both keys.
    pub fn common(&self, one: usize, other: usize) -> Option<usize> {
        (0..self.levels.len()).rev().find(|at| {
            self.levels
                .get(*at)
                .is_some_and(|level| level.has(one) && level.has(other))
        })
    }

    // The level inside another, or inside none, that a key is in.
    pub fn inside(&self, parent: Option<usize>, key: usize) -> Option<&KeyLevel> {
        self.levels
            .iter()
            .find(|level| level.parent == parent && level.has(key))
    }

    // Whether a path that is no turn of an outer level stays in a level.
    fn is_within(&self, place: usize, leg: &Leg, keys: &[bool]) -> bool {
        let has = |key: usize| keys.get(key) == Some(&true);
        let is_left = matches!(self.turn_of.get(place), Some(None));
        is_left && leg.source != 0 && has(leg.source) && leg.target.is_some_and(has)
    }
}

// The rows of a square table in which nothing is marked.
fn unmarked(count: usize, space: &mut Workspace) -> Vec<Vec<bool>> {
    let mut rows = Vec::new(space.alloc);
    for _ in 0..count {
        let row = space.repeated(false, count);
        space.push(&mut rows, row);
    }
    rows
}

// Which keys paths lead to from which, by those that are no turns yet: a row for each key.
fn reached(web: &Web, levels: &Levels, space: &mut Workspace) -> Vec<Vec<bool>> {
    let mut rows = unmarked(web.starts.len(), space);
    for (place, leg) in web.legs.iter().enumerate() {
        if let (Some(None), Some(target)) = (levels.turn_of.get(place), leg.target) {
            set(&mut rows, leg.source, target);
        }
    }
    for middle in 0..rows.len() {
        let onward = match rows.get(middle) {
            Some(row) => space.listed(row),
            None => Vec::new(space.alloc),
        };
        for row in rows.iter_mut() {
            if row.get(middle) == Some(&true) {
                join(row, &onward);
            }
        }
    }
    rows
}

// Marks a place of a row.
fn set(rows: &mut [Vec<bool>], row: usize, column: usize) {
    if let Some(mark) = rows.get_mut(row).and_then(|row| row.get_mut(column)) {
        *mark = true;
    }
}

// Marks in a row what is marked in another.
fn join(row: &mut [bool], other: &[bool]) {
    for (mark, more) in row.iter_mut().zip(other.iter()) {
        *mark = *mark || *more;
    }
}

// Whether paths lead from a key to another.
fn is_reached(rows: &[Vec<bool>], row: usize, column: usize) -> bool {
    match rows.get(row) {
        Some(row) => row.get(column) == Some(&true),
        None => false,
    }
}

// Keys that paths lead round, all that lead to one another; none if there are none.
fn next_keys(rows: &[Vec<bool>], space: &mut Workspace) -> Vec<bool> {
    let mut keys = Vec::new(space.alloc);
    let Some(first) = (0..rows.len()).find(|key| is_reached(rows, *key, *key)) else {
        return keys;
    };
    for key in 0..rows.len() {
        let is_in = is_reached(rows, first, key) && is_reached(rows, key, first);
        space.push(&mut keys, is_in);
    }
    keys
}

// The node at which turns of a level begin.
fn head_of(web: &Web, keys: &[bool]) -> usize {
    let mut head = usize::MAX;
    for (start, is_in) in web.starts.iter().zip(keys.iter()) {
        if *is_in {
            head = head.min(start.number);
        }
    }
    head
}

// Adds a number, times a variable, if there is one, to entries.
pub fn add_number(
    entries: &mut Vec<Coefficient>,
    variable: Option<usize>,
    coefficient: i128,
    space: &mut Workspace,
) {
    let entry = Coefficient {
        symbol: None,
        power: 0,
        variable,
        coefficient,
    };
    space.push(entries, entry);
}

// What is sought of a level: the program, and of each turn the variable that is 0 where something falls.
#[derive(Drop)]
struct Turns<'a> {
    sought: PotentialProgram<'a>,
    slacks: Vec<(usize, usize)>,
}

// That a turn makes what is sought fall, but for its variable.
fn add_fall(turns: &mut Turns<'_>, place: usize, entries: &mut Vec<Coefficient>) {
    let draft = &mut turns.sought.draft;
    let slack = draft.variable(Sign::NonNegative);
    draft.bound(slack, Relation::AtMost, 1);
    add_number(entries, Some(slack), 1, &mut draft.space);
    add_number(entries, None, -1, &mut draft.space);
    draft.space.push(&mut turns.slacks, (place, slack));
}

// That what is sought does not grow on a path of a level; a turn may make it fall.
fn add_inside(turns: &mut Turns<'_>, place: usize, leg: &Leg, is_turn: bool) {
    let mut entries = turns.sought.fall(leg);
    if is_turn {
        add_fall(turns, place, &mut entries);
    }
    turns.sought.imply_on(leg, &entries);
}

// That what is sought is within the polynomial where a path comes to a level.
fn add_arrival(sought: &mut PotentialProgram<'_>, leg: &Leg, target: usize) {
    let mut entries = sought.entries();
    sought.add_sum(&mut entries, 0, &leg.forms, 1);
    sought.add_sum(&mut entries, target, &leg.forms, -1);
    sought.imply_on(leg, &entries);
}

// Whether a key is at a node.
fn is_at(web: &Web, key: usize, number: usize) -> bool {
    match web.starts.get(key) {
        Some(start) => start.number == number,
        None => false,
    }
}

// What is so on the paths of a level, and on those that come to it.
fn add_paths(turns: &mut Turns<'_>, levels: &Levels, keys: &[bool]) {
    let web = turns.sought.web;
    let head = head_of(web, keys);
    for (place, leg) in web.legs.iter().enumerate() {
        let Some(target) = leg.target else {
            continue;
        };
        if levels.is_within(place, leg, keys) {
            add_inside(turns, place, leg, is_at(web, target, head));
        } else if keys.get(target) == Some(&true) {
            add_arrival(&mut turns.sought, leg, target);
        }
    }
}

// Makes the program: what is sought falls in as many turns as may be, and then the polynomial is least.
fn settle(turns: &mut Turns<'_>) {
    let draft = &mut turns.sought.draft;
    let mut slacks = Vec::new(draft.space.alloc);
    for (_place, slack) in &turns.slacks {
        draft.space.push(&mut slacks, *slack);
    }
    draft.minimise(&slacks);
    turns.sought.settle_least();
}

// Marks the turns of a new level in which something falls, and says whether there are some.
fn mark_turns(turns: &Turns<'_>, values: &Assignment, levels: &mut Levels) -> bool {
    let mut is_less = false;
    for (place, slack) in &turns.slacks {
        if values.numerators.get(*slack) == Some(&0) {
            is_less = true;
            if let Some(mark) = levels.turn_of.get_mut(*place) {
                *mark = Some(levels.levels.len());
            }
        }
    }
    is_less
}

// That what falls in a level is within its bound, at each of its keys.
fn claims_of(level: &KeyLevel, space: &mut Workspace) -> Vec<Form> {
    let whole = form_of(&level.bound, space);
    let mut claims = Vec::new(space.alloc);
    for (form, is_in) in level.forms.iter().zip(level.keys.iter()) {
        let rest = if *is_in {
            space.difference(&whole, form)
        } else {
            Form::zero(space.alloc)
        };
        let claim = lowest(&rest, space);
        space.push(&mut claims, claim);
    }
    claims
}

// The level by the values of its program.
fn level_by(
    sought: &mut PotentialProgram<'_>,
    values: &Assignment,
    levels: &Levels,
    keys: Vec<bool>,
) -> KeyLevel {
    let alloc = sought.draft.space.alloc;
    let first = keys.iter().position(|is_in| *is_in).unwrap_or(0);
    KeyLevel {
        parent: levels.common(first, first),
        keys,
        forms: sought.forms(values),
        bound: sought.most(values),
        worth: Vec::new(alloc),
        all: Vec::new(alloc),
        tails: Vec::new(alloc),
    }
}

// The level by the program's values, if they are found, and something falls in some of its turns.
fn found_level(turns: &mut Turns<'_>, levels: &mut Levels, keys: Vec<bool>) -> Option<KeyLevel> {
    let values = turns.sought.values(PIVOTS)?;
    if !mark_turns(turns, &values, levels) {
        return None;
    }
    Some(level_by(&mut turns.sought, &values, levels, keys))
}

// A level of these keys, if something falls in some of its turns, and the work that is spent on it.
fn tried(
    web: &Web,
    known: &KnownClaims,
    levels: &mut Levels,
    keys: Vec<bool>,
    space: &mut Workspace,
) -> (Option<KeyLevel>, usize) {
    let wanted = wanted_of(levels.highest);
    let mut turns = Turns {
        sought: PotentialProgram::of_facts(web, known, &wanted, space.alloc),
        slacks: Vec::new(space.alloc),
    };
    add_paths(&mut turns, levels, &keys);
    settle(&mut turns);
    let level = found_level(&mut turns, levels, keys);
    space.follow(&turns.sought.draft.space);
    (level, turns.sought.draft.work(PIVOTS))
}

// Adds a level of these keys; says whether something falls in some of its turns.
fn add_level(
    web: &Web,
    known: &mut KnownClaims,
    levels: &mut Levels,
    keys: Vec<bool>,
    space: &mut Workspace,
) -> bool {
    let (found, work) = tried(web, known, levels, keys, space);
    known.spend(work);
    match found {
        Some(level) => {
            known.add(claims_of(&level, space), &[], space);
            space.push(&mut levels.levels, level);
            true
        }
        None => false,
    }
}

// Adds all levels; says whether there are no others.
fn add_levels(
    web: &Web,
    known: &mut KnownClaims,
    levels: &mut Levels,
    space: &mut Workspace,
) -> bool {
    for _ in 0..MOST_LEVELS {
        let rows = reached(web, levels, space);
        let keys = next_keys(&rows, space);
        if keys.is_empty() {
            return true;
        }
        if !add_level(web, known, levels, keys, space) {
            return false;
        }
    }
    false
}

// All levels, if there are some, where turns are within a power of N.
pub fn all_levels(
    web: &Web,
    known: &mut KnownClaims,
    highest: u32,
    space: &mut Workspace,
) -> Option<Levels> {
    let mut levels = Levels {
        levels: Vec::new(space.alloc),
        turn_of: space.repeated(None, web.legs.len()),
        highest,
    };
    if add_levels(web, known, &mut levels, space) {
        return Some(levels);
    }
    None
}
