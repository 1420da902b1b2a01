//! How many turns of each iteration are still to come at most, where paths come to it.
use crate::known_claims::KnownClaims;
use crate::potentials::{PotentialProgram, form_of, lowest, product};
use crate::wanted::WantedBound;
use teco_bounds::forms::form_in;
use teco_bounds::measures::{FAMILIES, SINGLES, TURNS};
use teco_bounds::programs::{Multiple, add_form};
use teco_bounds::web::{Leg, LegStart, Web};
use teco_bounds::workspace::Workspace;
use teco_linear::Form;
use teco_simplex::Assignment;

// An iteration: where it begins, and the place of its turns.
#[derive(Clone, Copy, PartialEq, Eq)]
struct IterationTurns {
    begin: usize,
    place: u32,
}

// The place of the turns of an iteration, by how many are open round it.
fn turns_place(around: usize) -> u32 {
    u32::try_from(around)
        .unwrap_or(0)
        .saturating_mul(FAMILIES)
        .saturating_add(SINGLES)
        .saturating_add(TURNS)
}

// The iteration round where paths begin that so many are open round.
fn iteration_at(start: &LegStart, depth: usize) -> Option<IterationTurns> {
    let at = start.around.len().checked_sub(depth.saturating_add(1))?;
    let (begin, _end) = start.around.get(at)?;
    Some(IterationTurns {
        begin: *begin,
        place: turns_place(depth),
    })
}

// The iterations that keys are in, the outermost first.
fn iterations(web: &Web, space: &mut Workspace) -> Vec<IterationTurns> {
    let mut all = Vec::new(space.alloc);
    for depth in 0..web.depth() {
        for start in &web.starts {
            match iteration_at(start, depth) {
                Some(iteration) if !all.contains(&iteration) => space.push(&mut all, iteration),
                _ => {}
            }
        }
    }
    all
}

// Whether a key is in an iteration.
fn is_in(web: &Web, key: usize, iteration: IterationTurns) -> bool {
    match web.starts.get(key) {
        Some(start) => start
            .around
            .iter()
            .any(|(begin, _end)| *begin == iteration.begin),
        None => false,
    }
}

// That the turns are within the polynomial where a path comes to the iteration.
fn add_arrival(sought: &mut PotentialProgram<'_>, leg: &Leg, turns: &Form) {
    let mut entries = sought.entries();
    sought.add_sum(&mut entries, 0, &leg.forms, 1);
    add_form(
        &mut entries,
        turns,
        &Multiple::of(-1),
        &mut sought.draft.space,
    );
    sought.imply_on(leg, &entries);
}

// Whether a path comes to an iteration.
fn comes_to(web: &Web, leg: &Leg, iteration: IterationTurns) -> bool {
    match leg.target {
        Some(target) => is_in(web, target, iteration) && !is_in(web, leg.source, iteration),
        None => false,
    }
}

// Makes the program of the turns of an iteration; says whether they are counted.
fn want(sought: &mut PotentialProgram<'_>, iteration: IterationTurns) -> bool {
    let web = sought.web;
    for leg in &web.legs {
        if !comes_to(web, leg, iteration) {
            continue;
        }
        match form_in(&leg.forms, iteration.place) {
            Some(turns) => add_arrival(sought, leg, turns),
            None => return false,
        }
    }
    sought.settle_least();
    true
}

// That the turns are within the polynomial found.
fn claim_of(
    sought: &mut PotentialProgram<'_>,
    values: &Assignment,
    iteration: IterationTurns,
) -> Form {
    let polynomial = sought.most(values);
    let divisor = u128::try_from(values.denominator).unwrap_or(1);
    let space = &mut sought.draft.space;
    let most = form_of(&polynomial, space);
    let symbol = space.symbol(iteration.place);
    let turns = product(&[divisor], &symbol, space);
    let rest = space.difference(&most, &turns);
    lowest(&rest, space)
}

// What is claimed at each key: within the iteration, the turns' bound.
fn claims_of(
    sought: &mut PotentialProgram<'_>,
    values: &Assignment,
    iteration: IterationTurns,
) -> Vec<Form> {
    let web = sought.web;
    let claim = claim_of(sought, values, iteration);
    let space = &mut sought.draft.space;
    let mut claims = Vec::new(space.alloc);
    for key in 0..web.starts.len() {
        let own = if is_in(web, key, iteration) {
            space.copied(&claim)
        } else {
            Form::zero(space.alloc)
        };
        space.push(&mut claims, own);
    }
    claims
}

// What is claimed of the turns of an iteration, if that is found, and the work that is spent on it.
fn tried(
    web: &Web,
    known: &KnownClaims,
    wanted: &WantedBound<'_>,
    iteration: IterationTurns,
    space: &mut Workspace,
) -> (Option<Vec<Form>>, usize) {
    let mut sought = PotentialProgram::of_facts(web, known, wanted, space.alloc);
    let mut tried = (None, 0);
    if want(&mut sought, iteration) {
        if let Some(values) = sought.values(wanted.pivots) {
            tried.0 = Some(claims_of(&mut sought, &values, iteration));
        }
        tried.1 = sought.draft.work(wanted.pivots);
    }
    space.follow(&sought.draft.space);
    tried
}

// Adds bounds on turns to what is known, each sought like this one.
pub fn add_turns(
    web: &Web,
    known: &mut KnownClaims,
    wanted: &WantedBound<'_>,
    space: &mut Workspace,
) {
    for iteration in &iterations(web, space) {
        if space.is_stopped() {
            break;
        }
        let (claims, work) = tried(web, known, wanted, *iteration, space);
        known.spend(work);
        if let Some(claims) = claims {
            known.add(claims, &[], space);
        }
    }
}
