//! What steps are worth, level by level.
use crate::known_claims::KnownClaims;
use crate::levels::{KeyLevel, Levels, PIVOTS, add_number, all_levels, wanted_of};
use crate::polynomials::{most, plus, times};
use crate::potentials::{
    FoundPromise, PotentialProgram, form_of, lowest, own_steps, product, take_away,
};
use crate::unknowns::rounded_up;
use crate::wanted::{Scope, WantedBound};
use teco_bounds::measures::STEPS;
use teco_bounds::web::{Leg, Web};
use teco_bounds::workspace::Workspace;
use teco_linear::Form;
use teco_simplex::{Assignment, Sign};

// What paths cost: the program, and a number each, or its variable.
#[derive(Drop)]
struct Costs<'a> {
    sought: PotentialProgram<'a>,
    numbers: Vec<i128>,
    variables: Vec<usize>,
}

// That the steps of a path are within its cost and what falls.
fn add_cost(costs: &mut Costs<'_>, leg: &Leg, is_given: bool) {
    let mut entries = costs.sought.fall(leg);
    let draft = &mut costs.sought.draft;
    take_away(&mut entries, &leg.forms, STEPS, &mut draft.space);
    let number = own_steps(leg);
    draft.space.push(&mut costs.numbers, number);
    if is_given {
        add_number(&mut entries, None, number, &mut draft.space);
    } else {
        let cost = draft.variable(Sign::NonNegative);
        draft.space.push(&mut costs.variables, cost);
        add_number(&mut entries, Some(cost), 1, &mut draft.space);
    }
    costs.sought.imply_on(leg, &entries);
}

// Makes the program of costs: they are given, the number of its own steps for each path, or their sum
// is to be least.
fn want(costs: &mut Costs<'_>, is_given: bool) {
    let web = costs.sought.web;
    for leg in &web.legs {
        add_cost(costs, leg, is_given);
    }
    if is_given {
        costs.sought.settle_least();
    } else {
        costs.sought.draft.minimise(&costs.variables);
        costs.sought.settle();
    }
}

// What each path costs, rounded up, what falls besides at each key, the most of that, and the divisor of
// both.
#[derive(Drop)]
struct Paid {
    costs: Vec<u128>,
    forms: Vec<Form>,
    most: Vec<u128>,
    divisor: u128,
}

impl Paid {
    // The polynomial of what a path costs.
    fn cost(&self, place: usize) -> [u128; 1] {
        [self.costs.get(place).copied().unwrap_or(0)]
    }
}

// What a path costs, rounded up.
fn cost_at(costs: &Costs<'_>, values: &Assignment, place: usize) -> u128 {
    let up = match costs.variables.get(place) {
        Some(variable) => {
            let numerator = values.numerators.get(*variable).copied().unwrap_or(0);
            rounded_up(numerator, values.denominator)
        }
        None => costs.numbers.get(place).copied().unwrap_or(0),
    };
    u128::try_from(up).unwrap_or(0)
}

// What paths cost, by the values of their program.
fn paid_by(costs: &mut Costs<'_>, values: &Assignment) -> Paid {
    let mut all = Vec::new(costs.sought.draft.space.alloc);
    for place in 0..costs.numbers.len() {
        let cost = cost_at(costs, values, place);
        costs.sought.draft.space.push(&mut all, cost);
    }
    Paid {
        costs: all,
        forms: costs.sought.forms(values),
        most: costs.sought.most(values),
        divisor: u128::try_from(values.denominator).unwrap_or(1),
    }
}

// The polynomial of a key, which is 0 where there is none.
fn at(tails: &[Vec<u128>], key: usize) -> &[u128] {
    match tails.get(key) {
        Some(tail) => tail.as_slice(),
        None => &[],
    }
}

// What coming to a key is worth inside a level, or inside none, by what is to come behind that.
fn arriving(
    levels: &Levels,
    parent: Option<usize>,
    key: usize,
    tails: &[Vec<u128>],
    space: &mut Workspace,
) -> Vec<u128> {
    let inside = match levels.inside(parent, key) {
        Some(level) => level.all.as_slice(),
        None => &[],
    };
    plus(inside, at(tails, key), space)
}

// What is to come behind a path inside a level, or inside none, if it stays there.
fn staying(
    levels: &Levels,
    parent: Option<usize>,
    leg: &Leg,
    tails: &[Vec<u128>],
    space: &mut Workspace,
) -> Option<Vec<u128>> {
    match leg.target {
        Some(target) if levels.common(leg.source, target) == parent => {
            Some(arriving(levels, parent, target, tails, space))
        }
        None if parent.is_none() => Some(Vec::new(space.alloc)),
        _ => None,
    }
}

// Raises what is to come at a key, and at those of the same level inside.
fn raise(
    inside: Option<&KeyLevel>,
    key: usize,
    worth: &[u128],
    tails: &mut [Vec<u128>],
    space: &mut Workspace,
) {
    for (other, tail) in tails.iter_mut().enumerate() {
        let is_along = match inside {
            Some(level) => level.has(other),
            None => false,
        };
        if other == key || is_along {
            *tail = most(tail, worth, space);
        }
    }
}

// Where a path leads to, if that is in a level.
fn target_in(levels: &Levels, at: usize, leg: &Leg) -> Option<usize> {
    let level = levels.levels.get(at)?;
    leg.target.filter(|target| level.has(*target))
}

// What is to come in a level at a key of it, as a form over the places of measures.
fn ahead_in(level: &KeyLevel, key: usize, space: &mut Workspace) -> Form {
    let tail = form_of(at(&level.tails, key), space);
    match level.forms.get(key) {
        Some(form) => {
            let falls = product(&level.worth, form, space);
            space.sum(&falls, &tail)
        }
        None => tail,
    }
}

// What is to come at a key, as a form over the places of measures.
fn ahead(levels: &Levels, tops: &[Vec<u128>], key: usize, space: &mut Workspace) -> Form {
    let mut sum = form_of(at(tops, key), space);
    for level in &levels.levels {
        if level.has(key) {
            let part = ahead_in(level, key, space);
            sum = space.sum(&sum, &part);
        }
    }
    sum
}

// What tells what is to come: the paths, the levels, and what paths cost.
#[derive(Clone, Copy)]
struct Priced<'a> {
    web: &'a Web,
    levels: &'a Levels,
    paid: &'a Paid,
}

impl Priced<'_> {
    // Raises what is to come at each key by the paths inside a level, or inside none, that are no turns.
    fn raise_all(&self, parent: Option<usize>, tails: &mut [Vec<u128>], space: &mut Workspace) {
        let levels = self.levels;
        for (place, leg) in self.web.legs.iter().enumerate() {
            if levels.turn_of.get(place) != Some(&None) || leg.source == 0 {
                continue;
            }
            if let Some(there) = staying(levels, parent, leg, tails, space) {
                let worth = plus(&self.paid.cost(place), &there, space);
                raise(
                    levels.inside(parent, leg.source),
                    leg.source,
                    &worth,
                    tails,
                    space,
                );
            }
        }
    }

    // What is to come at each key behind the level inside this one that it is in.
    fn tails(&self, parent: Option<usize>, space: &mut Workspace) -> Vec<Vec<u128>> {
        let mut tails = Vec::new(space.alloc);
        for _ in &self.web.starts {
            let none = Vec::new(space.alloc);
            space.push(&mut tails, none);
        }
        for _ in &self.web.starts {
            self.raise_all(parent, &mut tails, space);
        }
        tails
    }

    // What a fall in a level is worth: what a turn costs, and what is to come behind it.
    fn worth(&self, at: usize, tails: &[Vec<u128>], space: &mut Workspace) -> Vec<u128> {
        let mut worth = Vec::new(space.alloc);
        for (place, leg) in self.web.legs.iter().enumerate() {
            if self.levels.turn_of.get(place) != Some(&Some(at)) {
                continue;
            }
            if let Some(target) = target_in(self.levels, at, leg) {
                let there = arriving(self.levels, Some(at), target, tails, space);
                let turn = plus(&self.paid.cost(place), &there, space);
                worth = most(&worth, &turn, space);
            }
        }
        worth
    }

    // What is to come where a path that is no turn leads to in a level.
    fn first(&self, at: usize, tails: &[Vec<u128>], space: &mut Workspace) -> Vec<u128> {
        let mut first = Vec::new(space.alloc);
        for (place, leg) in self.web.legs.iter().enumerate() {
            if self.levels.turn_of.get(place) == Some(&Some(at)) {
                continue;
            }
            if let Some(target) = target_in(self.levels, at, leg) {
                let there = arriving(self.levels, Some(at), target, tails, space);
                first = most(&first, &there, space);
            }
        }
        first
    }

    // What all steps are worth, by what is to come at keys that are in no level, or behind one.
    fn all(&self, tops: &[Vec<u128>], space: &mut Workspace) -> Vec<u128> {
        let mut first = Vec::new(space.alloc);
        for (place, leg) in self.web.legs.iter().enumerate() {
            if leg.source != 0 {
                continue;
            }
            let there = match leg.target {
                Some(target) => arriving(self.levels, None, target, tops, space),
                None => Vec::new(space.alloc),
            };
            let worth = plus(&self.paid.cost(place), &there, space);
            first = most(&first, &worth, space);
        }
        let times = times(&[self.paid.divisor], &first, space);
        plus(&times, &self.paid.most, space)
    }

    // What is claimed at a key: that the steps and what is to come are within a whole.
    fn claim(&self, whole: &Form, tops: &[Vec<u128>], key: usize, space: &mut Workspace) -> Form {
        let steps = space.symbol(STEPS);
        let ahead = ahead(self.levels, tops, key, space);
        let all = space.sum(&ahead, &steps);
        let mut sum = product(&[self.paid.divisor], &all, space);
        if let Some(form) = self.paid.forms.get(key) {
            sum = space.sum(&sum, form);
        }
        let rest = space.difference(whole, &sum);
        lowest(&rest, space)
    }

    // What is claimed at each key, by what all steps are worth.
    fn claims(&self, all: &[u128], tops: &[Vec<u128>], space: &mut Workspace) -> Vec<Form> {
        let whole = form_of(all, space);
        let mut claims = Vec::new(space.alloc);
        for key in 0..self.web.starts.len() {
            let claim = self.claim(&whole, tops, key, space);
            space.push(&mut claims, claim);
        }
        claims
    }
}

// Finds what a fall in a level is worth, and what coming to it is.
fn value(web: &Web, levels: &mut Levels, at: usize, paid: &Paid, space: &mut Workspace) {
    let priced = Priced { web, levels, paid };
    let tails = priced.tails(Some(at), space);
    let worth = priced.worth(at, &tails, space);
    let first = priced.first(at, &tails, space);
    if let Some(level) = levels.levels.get_mut(at) {
        let turns = times(&worth, &level.bound, space);
        level.all = plus(&turns, &first, space);
        level.worth = worth;
        level.tails = tails;
    }
}

// Coefficients, as far as they fit.
fn numerators_of(coefficients: &[u128], space: &mut Workspace) -> Vec<i128> {
    let mut numerators = Vec::new(space.alloc);
    for coefficient in coefficients {
        space.push(
            &mut numerators,
            i128::try_from(*coefficient).unwrap_or(i128::MAX),
        );
    }
    numerators
}

// What is promised of the steps.
fn promise_of(web: &Web, levels: &Levels, paid: &Paid, space: &mut Workspace) -> FoundPromise {
    let priced = Priced { web, levels, paid };
    let tops = priced.tails(None, space);
    let all = priced.all(&tops, space);
    FoundPromise {
        place: STEPS,
        is_added: false,
        sign: 1,
        claims: priced.claims(&all, &tops, space),
        numerators: numerators_of(&all, space),
        divisor: i128::try_from(paid.divisor).unwrap_or(1),
    }
}

// What paths cost, if that is found, and the work that is spent on it.
fn tried(
    web: &Web,
    known: &KnownClaims,
    is_given: bool,
    space: &mut Workspace,
) -> (Option<Paid>, usize) {
    let wanted = WantedBound {
        scope: Scope::Few,
        ..wanted_of(1)
    };
    let mut costs = Costs {
        sought: PotentialProgram::of_facts(web, known, &wanted, space.alloc),
        numbers: Vec::new(space.alloc),
        variables: Vec::new(space.alloc),
    };
    want(&mut costs, is_given);
    let paid = match costs.sought.values(PIVOTS) {
        Some(values) => Some(paid_by(&mut costs, &values)),
        None => None,
    };
    space.follow(&costs.sought.draft.space);
    (paid, costs.sought.draft.work(PIVOTS))
}

// What paths cost, if that is found: what is given is tried first.
fn found_costs(web: &Web, known: &mut KnownClaims, space: &mut Workspace) -> Option<Paid> {
    for is_given in [true, false] {
        let (found, work) = tried(web, known, is_given, space);
        known.spend(work);
        if found.is_some() || space.is_stopped() {
            return found;
        }
    }
    None
}

// A promise of the steps by levels, if one is found.
pub fn promised_by_levels(
    web: &Web,
    known: &mut KnownClaims,
    highest: u32,
    space: &mut Workspace,
) -> Option<FoundPromise> {
    let mut levels = all_levels(web, known, highest, space)?;
    let paid = found_costs(web, known, space)?;
    for at in (0..levels.levels.len()).rev() {
        value(web, &mut levels, at, &paid, space);
    }
    Some(promise_of(web, &levels, &paid, space))
}
