//! What the search notes of paths on the way.
use crate::workspace::{Stop, Workspace};
use std::alloc::Global;
use teco_linear::Form;

// The most constraints that are copied.
const MOST_COPIES: usize = 200_000;

// A measure that was raised: to this form, where these constraints hold. A path comes to the last
// one, and each names the one before it.
#[derive(Drop)]
pub struct Peak {
    pub before: Option<usize>,
    pub place: u32,
    pub form: Form,
    pub constraints: Vec<Form>,
}

// A condition of an element that bounds do not show, where these constraints hold, and the measures there.
#[derive(Drop)]
pub struct OpenCondition {
    pub number: usize,
    pub source: usize,
    pub wanted: Form,
    pub constraints: Vec<Form>,
    pub forms: Vec<Option<Form>>,
}

// Forms, copied.
fn copied_forms(forms: &[Option<Form>], space: &mut Workspace) -> Vec<Option<Form>> {
    let mut copies = Vec::new(space.alloc);
    for form in forms {
        let copy = match form {
            Some(form) => Some(space.copied(form)),
            None => None,
        };
        space.push(&mut copies, copy);
    }
    copies
}

// A node that a path has passed, behind another.
#[derive(Clone, Copy)]
pub struct Passed {
    pub before: Option<usize>,
    pub number: usize,
}

// What is noted, if it is to be kept.
#[derive(Drop)]
pub struct Record {
    pub is_kept: bool,
    pub source: usize,
    // The first symbol that is not one of those that paths from there begin with.
    pub first: u32,
    // How many constraints were copied.
    copies: usize,
    pub peaks: Vec<Peak>,
    pub opens: Vec<OpenCondition>,
    pub passed: Vec<Passed>,
}

impl Record {
    pub fn new(is_kept: bool, alloc: Global) -> Record {
        Record {
            is_kept,
            source: 0,
            first: 0,
            copies: 0,
            peaks: Vec::new(alloc),
            opens: Vec::new(alloc),
            passed: Vec::new(alloc),
        }
    }

    // Copies constraints, which are counted.
    fn copied(&mut self, constraints: &[Form], space: &mut Workspace) -> Vec<Form> {
        self.copies = self.copies.saturating_add(constraints.len());
        if self.copies > MOST_COPIES {
            space.stop(Stop::TooMuch);
            return Vec::new(space.alloc);
        }
        space.copied_forms(constraints)
    }

    // Notes a peak behind another, and tells its place.
    pub fn peak(
        &mut self,
        before: Option<usize>,
        place: u32,
        form: &Form,
        constraints: &[Form],
        space: &mut Workspace,
    ) -> Option<usize> {
        if !self.is_kept {
            return before;
        }
        let peak = Peak {
            before,
            place,
            constraints: self.copied(constraints, space),
            form: space.copied(form),
        };
        space.push(&mut self.peaks, peak);
        self.peaks.len().checked_sub(1)
    }

    // The peak in a place, if there is one.
    pub fn peak_at(&self, at: Option<usize>) -> Option<(usize, &Peak)> {
        let place = at?;
        Some((place, self.peaks.get(place)?))
    }

    // Notes that a path passes a node behind another, and tells the place of that.
    pub fn pass(
        &mut self,
        before: Option<usize>,
        number: usize,
        space: &mut Workspace,
    ) -> Option<usize> {
        if !self.is_kept {
            return None;
        }
        space.push(&mut self.passed, Passed { before, number });
        self.passed.len().checked_sub(1)
    }

    // The numbers of the nodes that a path has passed, from its first one on.
    pub fn way(&self, last: Option<usize>, space: &mut Workspace) -> Vec<usize> {
        let mut numbers = Vec::new(space.alloc);
        let mut at = last;
        for _ in 0..self.passed.len() {
            let Some(passed) = at.and_then(|at| self.passed.get(at)) else {
                break;
            };
            space.push(&mut numbers, passed.number);
            at = passed.before;
        }
        numbers.reverse();
        numbers
    }

    // Notes a condition of the element of a number, which is not shown, and the measures there.
    pub fn open(
        &mut self,
        number: usize,
        wanted: &Form,
        constraints: &[Form],
        forms: &[Option<Form>],
        space: &mut Workspace,
    ) {
        if !self.is_kept {
            return;
        }
        let open = OpenCondition {
            number,
            source: self.source,
            constraints: self.copied(constraints, space),
            wanted: space.copied(wanted),
            forms: copied_forms(forms, space),
        };
        space.push(&mut self.opens, open);
    }
}
