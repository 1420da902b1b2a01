//! The paths from a key to the next ones.
use crate::fault::SearchStop;
use crate::keys::begun;
use crate::notes::PathNotes;
use crate::steps::onward;
use crate::trail::Trail;
use std::alloc::Global;
use teco_bounds::bounds::Bounds;
use teco_bounds::keys::{Flag, Keys};
use teco_bounds::measures::{FIRST_VALUE, LAST_VALUE, STEPS, TYPED};
use teco_bounds::workspace::Workspace;
use teco_linear::Form;
use teco_model::ArgumentRange;
use teco_paths::course::MacroGraph;
use teco_paths::cut::case_of;
use teco_paths::entry::entry_cut;
use teco_paths::fault::PathFault;
use teco_rows::case::Case;

// The most cases of a node at all.
const MOST_PENDING: usize = 64;

// The most terms of what a measure is: with more a path takes too long.
const MOST_TERMS: usize = 24;

// How many constraints, and how many bounds, count as one step.
const CONSTRAINTS_A_STEP: usize = 16;

const BOUNDS_A_STEP: usize = 256;

// As how many steps a question that programs are asked counts.
const ASKED_STEPS: usize = 4;

// How often a path may pass the whole macro between two cut points.
const MOST_PASSES: usize = 3;

// What is searched: the macro, its argument, and where paths are cut.
#[derive(Drop)]
pub struct PathSearch<'a> {
    pub course: MacroGraph<'a>,
    pub argument: Option<ArgumentRange>,
    pub is_cut: Vec<bool>,
    pub flags: Vec<Flag>,
    pub numbers: Vec<i64>,
    pub spoken: Vec<bool>,
    // The places of numbers that are taken to be no further from 0 than a length may be, which is to
    // be shown.
    pub tame: Vec<u32>,
    // Whether no more is taken of constraints than multipliers show.
    pub is_exact: bool,
    // The most cases of a node between two cut points: with more the node becomes one.
    pub most_cases: usize,
    // How many steps may still be taken, and how many rows programs may go through.
    pub steps: usize,
    pub work: usize,
    // The number of the node at which the last step was.
    pub at: usize,
    pub alloc: Global,
}

// Takes the trails of the least node from some.
fn take_least(trails: &mut Vec<Trail>, space: &mut Workspace) -> Vec<Trail> {
    let mut least = usize::MAX;
    for trail in trails.iter() {
        least = least.min(trail.number);
    }
    let mut here = Vec::new(space.alloc);
    for trail in std::mem::replace(trails, Vec::new(space.alloc)) {
        if trail.number == least {
            space.push(&mut here, trail);
        } else {
            space.push(trails, trail);
        }
    }
    here
}

// Keeps of marks of places those of places that are used.
fn keep_used(marks: &mut [bool], used: &[bool]) {
    for (place, mark) in marks.iter_mut().enumerate() {
        *mark = *mark && used.get(place) == Some(&true);
    }
}

// Sets the form in a place of a case.
fn set_form(case: &mut Case, place: u32, form: Form) {
    if let Some(slot) = case.forms.get_mut(place as usize) {
        *slot = Some(form);
    }
}

// Whether a value waits in a place of a case.
fn is_waiting(case: &Case, place: usize) -> bool {
    matches!(case.forms.get(place), Some(Some(_)))
}

// Whether no value waits in a case.
fn is_settled(case: &Case) -> bool {
    case.shape.operators.len() <= 1
        && !is_waiting(case, FIRST_VALUE)
        && !is_waiting(case, LAST_VALUE)
}

// Whether a measure of a case is a sum of too many terms.
fn is_long(case: &Case) -> bool {
    case.forms
        .iter()
        .flatten()
        .any(|form| form.terms().len() > MOST_TERMS)
}

// What a step from a trail takes: by its constraints, and by the bounds that are copied and lowered.
fn work_of(trail: &Trail) -> usize {
    let size = trail.bounds.size();
    let bounds = size.saturating_mul(size).saturating_div(BOUNDS_A_STEP);
    let constraints = trail
        .case
        .constraints
        .len()
        .saturating_div(CONSTRAINTS_A_STEP);
    bounds.saturating_add(constraints).saturating_add(1)
}

impl PathSearch<'_> {
    // The case at the entry, with the measures that are used.
    fn used_entry(&self) -> Result<Case, PathFault> {
        let used = self.course.used;
        let mut cut = entry_cut(self.course.lengths, self.argument, used, self.alloc)?;
        keep_used(&mut cut.present, used);
        case_of(&[], &cut, self.alloc)
    }

    // What is known at the entry, where nothing is typed, and only an argument was a step.
    fn entry_case(&self, notes: &mut PathNotes) -> Option<Case> {
        let done = if self.argument.is_some() { 1 } else { 0 };
        let done = notes.space.constant(done);
        let mut case = notes.take(self.used_entry())?;
        set_form(&mut case, STEPS, done);
        set_form(&mut case, TYPED, Form::zero(self.alloc));
        Some(case)
    }

    // Where paths begin at the entry.
    pub fn entry(&self, notes: &mut PathNotes) -> Option<Trail> {
        let case = self.entry_case(notes)?;
        let mut bounds = Bounds::none(&mut notes.space);
        bounds.add_all(&case.constraints, &mut notes.space);
        let mut trail = Trail {
            number: 1,
            case,
            bounds,
            peak: None,
            passed: None,
            is_lean: false,
        };
        trail.forget(&mut notes.space);
        Some(trail)
    }

    // Where paths begin at a key.
    fn begin(&self, keys: &Keys, place: usize, notes: &mut PathNotes) -> Option<Trail> {
        if place == 0 {
            return self.entry(notes);
        }
        match (keys.keys.get(place), keys.facts.get(place)) {
            (Some(key), Some(facts)) => Some(begun(key, facts, &self.tame, &mut notes.space)),
            _ => {
                notes.stop(SearchStop::Unstable);
                None
            }
        }
    }

    // Where paths begin at a key, as exact as the search is.
    pub fn start(&self, keys: &Keys, place: usize, notes: &mut PathNotes) -> Option<Trail> {
        let mut first = self.begin(keys, place, notes)?;
        if self.is_exact {
            first.bounds.make_exact();
        }
        Some(first)
    }

    // The number behind that of the last node.
    fn end(&self) -> usize {
        self.course.nodes.len().saturating_add(1)
    }

    // Whether a path ends where a trail is.
    fn is_arrived(&self, trail: &Trail) -> bool {
        trail.number > self.course.nodes.len() || self.is_cut.get(trail.number) == Some(&true)
    }

    // Whether so many trails at a node ask for a cut point there.
    fn check_count(&self, here: &[Trail], is_first: bool, notes: &mut PathNotes) {
        let Some(trail) = here.first() else {
            return;
        };
        if here.len() > MOST_PENDING {
            notes.give_up();
        }
        let is_wide = here.len() > self.most_cases && !is_first;
        if is_wide && here.iter().all(|trail| is_settled(&trail.case)) {
            notes.stop(SearchStop::CutAt(trail.number));
        }
    }

    // Takes what a step from a trail takes from what is left; says whether that is enough.
    fn affords(&mut self, trail: &Trail, notes: &mut PathNotes) -> bool {
        self.at = trail.number;
        let asked = notes.take_asked().saturating_mul(ASKED_STEPS);
        let left = self.steps.checked_sub(work_of(trail).saturating_add(asked));
        self.steps = left.unwrap_or(0);
        left.is_some() && !is_long(&trail.case)
    }

    // Takes trails of a node a step further: to where paths end, or among those that are ahead.
    fn advance(
        &mut self,
        here: &[Trail],
        ahead: &mut Vec<Trail>,
        arrived: &mut Vec<Trail>,
        notes: &mut PathNotes,
    ) {
        for trail in here {
            if notes.is_stopped() {
                return;
            }
            if !self.affords(trail, notes) {
                notes.give_up();
                return;
            }
            for next in onward(&self.course, trail, notes) {
                if self.is_arrived(&next) {
                    notes.space.push(arrived, next);
                } else {
                    notes.space.push(ahead, next);
                }
            }
        }
    }

    // Where paths from a key begin, as a record wants it.
    fn first(&self, keys: &Keys, place: usize, notes: &mut PathNotes) -> Option<Trail> {
        let mut first = self.start(keys, place, notes)?;
        if !notes.record.is_kept {
            first.make_lean();
        }
        notes.record.source = place;
        notes.record.first = first.case.symbols;
        Some(first)
    }

    // Takes the trails of the least node among those that are ahead a step further.
    fn turn(
        &mut self,
        ahead: &mut Vec<Trail>,
        arrived: &mut Vec<Trail>,
        is_first: bool,
        notes: &mut PathNotes,
    ) {
        let here = take_least(ahead, &mut notes.space);
        self.check_count(&here, is_first, notes);
        self.advance(&here, ahead, arrived, notes);
    }

    // All trails that paths from a key end with.
    pub fn explore(&mut self, keys: &Keys, place: usize, notes: &mut PathNotes) -> Vec<Trail> {
        let mut arrived = Vec::new(self.alloc);
        let mut ahead = Vec::new(self.alloc);
        if let Some(first) = self.first(keys, place, notes) {
            notes.space.push(&mut ahead, first);
        }
        for step in 0..self.end().saturating_mul(MOST_PASSES) {
            if ahead.is_empty() || notes.is_stopped() {
                return arrived;
            }
            self.turn(&mut ahead, &mut arrived, step == 0, notes);
        }
        notes.give_up();
        arrived
    }
}
