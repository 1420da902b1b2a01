//! Where a path of the search has come to.
use crate::fault::SearchStop;
use crate::keys::copied_shape;
use crate::notes::PathNotes;
use teco_bounds::bounds::Bounds;
use teco_bounds::constraints::{all_forms, bound_form};
use teco_bounds::forms::{at_forms, form_in};
use teco_bounds::measures::{CODE_BEFORE, CODE_HERE, LINE_END, POINTER, SIZE};
use teco_bounds::reduced::{Bounded, UsedLimits, add_symbols};
use teco_bounds::workspace::{Stop, Workspace};
use teco_implied::{ImpliedFault, is_so, is_so_nearby};
use teco_linear::{Difference, Form};
use teco_paths::fault::PathFault;
use teco_rows::case::Case;

// With more constraints than this they are made fewer.
const MOST_CONSTRAINTS: usize = 150;

// The symbol that the form in a place is, if it is one.
fn symbol_in(forms: &[Option<Form>], place: u32) -> Option<u32> {
    form_in(forms, place)?
        .terms()
        .iter()
        .find_map(|term| term.symbol)
}

// Whether a form speaks of a symbol.
fn speaks_of(form: &Form, symbol: Option<u32>) -> bool {
    symbol.is_some() && form.terms().iter().any(|term| term.symbol == symbol)
}

// A node by its number, a case that describes the states there, what it says of differences, and the
// last peak on the way there.
#[derive(Drop)]
pub struct Trail {
    pub number: usize,
    pub case: Case,
    pub bounds: Bounds,
    pub peak: Option<usize>,
    // Where it is noted which nodes it has passed, if it is.
    pub passed: Option<usize>,
    // Whether the case has only the constraints that bound no difference.
    pub is_lean: bool,
}

// A trail of which several things are asked, and its case with all constraints, once that was made.
#[derive(Drop)]
pub struct AskedTrail<'a> {
    trail: &'a Trail,
    whole: Option<Case>,
}

impl<'a> AskedTrail<'a> {
    pub fn of(trail: &'a Trail) -> AskedTrail<'a> {
        AskedTrail { trail, whole: None }
    }

    // Whether the constraints of a lean trail show a form by programs.
    fn shows_lean(&mut self, form: &Form, space: &mut Workspace) -> Result<bool, ImpliedFault> {
        let trail = self.trail;
        let alloc = space.alloc;
        let whole = match self.whole.take() {
            Some(whole) => whole,
            None => trail.whole(space),
        };
        let shown = is_so_nearby(&whole, form, alloc);
        self.whole = Some(whole);
        shown
    }

    // Whether a form is at least 0, as far as bounds show it or, where they do not tell all, programs.
    pub fn shows(&mut self, form: &Form, notes: &mut PathNotes) -> bool {
        let trail = self.trail;
        if trail.bounds.shows(form) {
            return true;
        }
        if !trail.bounds.is_rough() {
            return false;
        }
        notes.note_asked();
        let shown = if trail.is_lean {
            self.shows_lean(form, &mut notes.space)
        } else {
            is_so(&trail.case, form, notes.space.alloc)
        };
        match shown {
            Ok(is_shown) => is_shown,
            Err(fault) => {
                notes.stop(SearchStop::from(PathFault::from(fault)));
                false
            }
        }
    }

    // Whether it shows the bound between two rows of facts.
    pub fn shows_between(
        &mut self,
        facts: &Bounds,
        row: usize,
        column: usize,
        notes: &mut PathNotes,
    ) -> bool {
        let form = bound_form(facts, row, column, &mut notes.space);
        let here = at_forms(&form, &self.trail.case.forms, &mut notes.space);
        self.shows(&here, notes)
    }

    // Whether it shows it by programs, where bounds do not tell all.
    pub fn shows_bound(
        &mut self,
        facts: &Bounds,
        row: usize,
        column: usize,
        notes: &mut PathNotes,
    ) -> bool {
        self.trail.bounds.is_rough() && self.shows_between(facts, row, column, notes)
    }
}

// Those of some symbols that are found in forms, in the order in which they are found first, and which of
// them are not found yet.
#[derive(Drop)]
struct LiveSymbols {
    is_sought: Vec<bool>,
    found: Vec<u32>,
}

impl LiveSymbols {
    // None of these is found yet.
    fn among(symbols: &[u32], space: &mut Workspace) -> LiveSymbols {
        let mut count = 0usize;
        for symbol in symbols {
            count = count.max((*symbol as usize).saturating_add(1));
        }
        let mut is_sought = space.repeated(false, count);
        for symbol in symbols {
            if let Some(mark) = is_sought.get_mut(*symbol as usize) {
                *mark = true;
            }
        }
        LiveSymbols {
            is_sought,
            found: Vec::new(space.alloc),
        }
    }

    // Finds those of a form.
    fn add(&mut self, form: &Form, space: &mut Workspace) {
        for symbol in form.terms().iter().filter_map(|term| term.symbol) {
            if let Some(mark) = self.is_sought.get_mut(symbol as usize)
                && *mark
            {
                *mark = false;
                space.push(&mut self.found, symbol);
            }
        }
    }
}

impl Trail {
    // The case with the constraints that bound differences, and no forms.
    fn whole(&self, space: &mut Workspace) -> Case {
        let mut constraints = all_forms(&self.bounds, space);
        let mut own = space.copied_forms(&self.case.constraints);
        space.append(&mut constraints, &mut own);
        Case {
            symbols: self.case.symbols,
            forms: Vec::new(space.alloc),
            constraints,
            shape: copied_shape(&self.case.shape, space),
        }
    }

    // The symbols of the characters at the pointer and before it, where they are symbols.
    fn code_symbols(&self) -> (Option<u32>, Option<u32>) {
        (
            symbol_in(&self.case.forms, CODE_HERE),
            symbol_in(&self.case.forms, CODE_BEFORE),
        )
    }

    // Leaves out of the case the constraints that bound differences, but those of characters: by these
    // outcomes see that something is known of them.
    pub fn make_lean(&mut self) {
        self.is_lean = true;
        let (here, before) = self.code_symbols();
        self.case.constraints.retain(|form| {
            Difference::of(form).is_none() || speaks_of(form, here) || speaks_of(form, before)
        });
    }

    // Takes it that a form is at least 0.
    pub fn assume(&mut self, form: &Form, space: &mut Workspace) {
        self.bounds.add(form, space);
        let copy = space.copied(form);
        space.push(&mut self.case.constraints, copy);
    }

    // How far the measure in a place is above the pointer.
    fn from_pointer(&self, place: u32, space: &mut Workspace) -> Form {
        let forms = &self.case.forms;
        let (Some(pointer), Some(measure)) = (form_in(forms, POINTER), form_in(forms, place)) else {
            space.stop(Stop::TooMuch);
            return Form::zero(space.alloc);
        };
        space.difference(measure, pointer)
    }

    // In front of the buffer's end the line's end is behind the pointer.
    pub fn sharpen(&mut self, space: &mut Workspace) {
        let ahead = self.from_pointer(SIZE, space);
        if !self.bounds.shows_above(&ahead) {
            return;
        }
        let more = self.from_pointer(LINE_END, space);
        if !self.bounds.shows_above(&more) {
            let one = space.constant(1);
            let behind = space.difference(&more, &one);
            self.assume(&behind, space);
        }
    }

    // Of the symbols that others bound, those of the path's start and those that a measure is given by, or
    // what bounds no difference.
    fn kept_symbols(&self, others: &Bounded, first: u32, space: &mut Workspace) -> Vec<u32> {
        let mut live = Vec::new(space.alloc);
        for form in self.case.forms.iter().flatten().chain(others.rough.iter()) {
            add_symbols(&mut live, form, space);
        }
        let mut kept = Vec::new(space.alloc);
        for symbol in others.bounds.symbols() {
            if *symbol < first || live.contains(symbol) {
                space.push(&mut kept, *symbol);
            }
        }
        kept
    }

    // Makes the constraints fewer where there are many: symbols that neither a measure nor the path's
    // start is given by are taken out of those that bound differences.
    pub fn compact(&mut self, first: u32, space: &mut Workspace) {
        if self.is_lean || self.case.constraints.len() <= MOST_CONSTRAINTS {
            return;
        }
        let mut all = Bounded::of(&self.case.constraints, UsedLimits::All, space);
        let kept = self.kept_symbols(&all, first, space);
        let bounds = all.bounds.of_symbols(&kept, space);
        self.case.constraints = all_forms(&bounds, space);
        space.append(&mut self.case.constraints, &mut all.rough);
    }

    // Keeps of the bounds those of symbols that measures are given by.
    pub fn forget(&mut self, space: &mut Workspace) {
        let mut live = LiveSymbols::among(self.bounds.symbols(), space);
        for form in self.case.forms.iter().flatten() {
            live.add(form, space);
        }
        if self.is_lean {
            for form in &self.case.constraints {
                live.add(form, space);
            }
        }
        if live.found.len() < self.bounds.symbols().len() {
            self.bounds = self.bounds.of_symbols(&live.found, space);
        }
    }
}
