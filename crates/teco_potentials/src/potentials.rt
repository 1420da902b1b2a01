//! Potentials: what is promised of a measure, or of the steps, by sums of measures at each key.
use crate::known_claims::{KnownClaims, is_plain};
use crate::polynomials::whole;
use crate::unknowns::Unknowns;
use crate::wanted::WantedBound;
use std::alloc::Global;
use teco_bounds::forms::{constant, form_in, power_of};
use teco_bounds::measures::{ENTRY_HELD, STEPS};
use teco_bounds::numbers::common;
use teco_bounds::programs::{Coefficient, DraftProgram, Multiple, add_form};
use teco_bounds::record::Peak;
use teco_bounds::reduced::{Bounded, Demand, UsedLimits, reduced};
use teco_bounds::web::{Leg, Web};
use teco_bounds::workspace::{Stop, Workspace};
use teco_linear::{Form, Scale, Term};
use teco_simplex::Assignment;

// A promise: the coefficients of the polynomial and their divisor, and what is claimed at each key: a
// form over the places of measures.
#[derive(Drop)]
pub struct FoundPromise {
    pub place: u32,
    pub is_added: bool,
    pub sign: i128,
    pub numerators: Vec<i128>,
    pub divisor: i128,
    pub claims: Vec<Form>,
}

impl FoundPromise {
    // Whether all that it claims is plain.
    fn is_plain(&self) -> bool {
        self.claims.iter().all(is_plain)
    }
}

// The most pivots of a program that is to make claims plain.
const PLAIN_PIVOTS: usize = 60;

// A polynomial times a form.
pub fn product(polynomial: &[u128], form: &Form, space: &mut Workspace) -> Form {
    let mut sum = Form::zero(space.alloc);
    for (power, coefficient) in polynomial.iter().enumerate() {
        let scale = Scale {
            factor: i128::try_from(*coefficient).unwrap_or(i128::MAX),
            power: u32::try_from(power).unwrap_or(0),
        };
        let part = space.scaled(form, &scale);
        sum = space.sum(&sum, &part);
    }
    sum
}

// A polynomial as a form.
pub fn form_of(polynomial: &[u128], space: &mut Workspace) -> Form {
    let one = space.constant(1);
    product(polynomial, &one, space)
}

// A polynomial of numerators as a form.
fn form_by(numerators: &[i128], space: &mut Workspace) -> Form {
    let mut sum = Form::zero(space.alloc);
    for (power, numerator) in numerators.iter().enumerate() {
        let part = power_of(u32::try_from(power).unwrap_or(0), *numerator, space);
        sum = space.sum(&sum, &part);
    }
    sum
}

// What divides all coefficients of a form.
fn divisor_of(form: &Form) -> i128 {
    let mut shared = 0u128;
    for term in form.terms() {
        shared = common(shared, term.coefficient.unsigned_abs());
    }
    i128::try_from(shared.max(1)).unwrap_or(1)
}

// A form divided by what divides all its coefficients.
pub fn lowest(form: &Form, space: &mut Workspace) -> Form {
    let divisor = divisor_of(form);
    let mut sum = Form::zero(space.alloc);
    for term in form.terms() {
        let less = space.term(Term {
            symbol: term.symbol,
            power: term.power,
            coefficient: term.coefficient.checked_div(divisor).unwrap_or(0),
        });
        sum = space.sum(&sum, &less);
    }
    sum
}

// Takes the measure in a place away, if there is a form of it.
pub fn take_away(
    entries: &mut Vec<Coefficient>,
    forms: &[Option<Form>],
    place: u32,
    space: &mut Workspace,
) {
    if let Some(form) = form_in(forms, place) {
        add_form(entries, form, &Multiple::of(-1), space);
    }
}

// The number of a path's own steps.
pub fn own_steps(leg: &Leg) -> i128 {
    match form_in(&leg.forms, STEPS) {
        Some(form) => constant(form).max(0),
        None => 0,
    }
}

// Marks a place; says whether it was not marked yet.
fn is_first(is_done: &mut [bool], place: usize) -> bool {
    match is_done.get_mut(place) {
        Some(mark) => !std::mem::replace(mark, true),
        None => false,
    }
}

// Whether a form is no greater on a path than another.
fn is_below(leg: &Leg, form: &Form, above: Option<&Form>, space: &mut Workspace) -> bool {
    let Some(above) = above else {
        return false;
    };
    let more = space.difference(above, form);
    more.is_harmless() || leg.bounded.bounds.shows(&more)
}

// A program with its unknowns, for what is wanted.
#[derive(Drop)]
pub struct PotentialProgram<'a> {
    pub web: &'a Web,
    pub known: &'a KnownClaims,
    pub draft: DraftProgram,
    pub unknowns: Unknowns,
    pub degree: u32,
    limits: UsedLimits,
    demands: Vec<Demand>,
}

impl<'a> PotentialProgram<'a> {
    // With coefficients of measures.
    pub fn of_measures(
        web: &'a Web,
        known: &'a KnownClaims,
        alloc: Global,
    ) -> PotentialProgram<'a> {
        let mut draft = DraftProgram::new(alloc);
        PotentialProgram {
            web,
            known,
            unknowns: Unknowns::of_measures(web, &mut draft, 1),
            draft,
            degree: 1,
            limits: UsedLimits::None,
            demands: Vec::new(alloc),
        }
    }

    // With coefficients of facts.
    pub fn of_facts(
        web: &'a Web,
        known: &'a KnownClaims,
        wanted: &WantedBound<'_>,
        alloc: Global,
    ) -> PotentialProgram<'a> {
        let mut draft = DraftProgram::new(alloc);
        PotentialProgram {
            web,
            known,
            unknowns: Unknowns::of_facts(web, known, &mut draft, wanted),
            draft,
            degree: wanted.degree,
            limits: wanted.limits,
            demands: Vec::new(alloc),
        }
    }

    // No entries yet.
    pub fn entries(&self) -> Vec<Coefficient> {
        Vec::new(self.draft.space.alloc)
    }

    // Adds the sum at a key, where measures are given by forms.
    pub fn add_sum(
        &mut self,
        entries: &mut Vec<Coefficient>,
        key: usize,
        forms: &[Option<Form>],
        times: i128,
    ) {
        let space = &mut self.draft.space;
        self.unknowns.add(entries, key, forms, times, space);
    }

    // That entries are implied by constraints on the way from a key, and what is known there.
    pub fn imply(&mut self, source: usize, constraints: &[Form], entries: &[Coefficient]) {
        let bounded = Bounded::of(constraints, self.limits, &mut self.draft.space);
        self.imply_by(source, bounded, entries);
    }

    // That entries are implied by the constraints of a path, and what is known where it begins.
    pub fn imply_on(&mut self, leg: &Leg, entries: &[Coefficient]) {
        if self.limits != UsedLimits::None {
            self.imply(leg.source, &leg.constraints, entries);
        } else if !leg.bounded.bounds.is_void() {
            let bounded = leg.bounded.copied(&mut self.draft.space);
            self.imply_by(leg.source, bounded, entries);
        }
    }

    // That entries are implied by what constraints say, and what is known at a key.
    fn imply_by(&mut self, source: usize, mut bounded: Bounded, entries: &[Coefficient]) {
        let space = &mut self.draft.space;
        if let Some(start) = self.web.starts.get(source) {
            let known = self.known.at(source, &start.forms, space);
            bounded.add(&known, self.limits, space);
        }
        if let Some(demand) = reduced(entries, &bounded, self.limits, space) {
            self.demand(demand);
        }
    }

    // Adds a demand, unless one that is there is enough; it stands in for those that follow from it.
    fn demand(&mut self, demand: Demand) {
        if self.demands.iter().any(|other| demand.follows(other)) {
            return;
        }
        self.demands.retain(|other| !other.follows(&demand));
        self.draft.space.push(&mut self.demands, demand);
    }

    // Makes the program of all demands.
    pub fn settle(&mut self) {
        for demand in &self.demands {
            self.draft
                .imply(&demand.entries, &demand.constraints, self.degree);
        }
    }

    // Makes the program of all demands, in which the polynomial is to be least.
    pub fn settle_least(&mut self) {
        self.unknowns.minimise(&mut self.draft, self.degree);
        self.settle();
    }

    // The values of the program, if they are found. Too little work may be left for it.
    pub fn values(&mut self, pivots: usize) -> Option<Assignment> {
        if self.draft.work(pivots) > self.known.work {
            self.draft.space.stop(Stop::TooMuch);
        }
        self.draft.solved(pivots)
    }

    // The sum at a key, as a form over the places of measures.
    pub fn form_at(&mut self, key: usize, values: &Assignment) -> Form {
        self.unknowns.form(key, values, &mut self.draft.space)
    }

    // The sums at the keys, as forms over the places of measures.
    pub fn forms(&mut self, values: &Assignment) -> Vec<Form> {
        let mut forms = Vec::new(self.draft.space.alloc);
        for key in 0..self.web.starts.len() {
            let form = self.form_at(key, values);
            self.draft.space.push(&mut forms, form);
        }
        forms
    }

    // The polynomial.
    pub fn most(&mut self, values: &Assignment) -> Vec<u128> {
        let space = &mut self.draft.space;
        let numerators = self.unknowns.polynomial(values, space);
        whole(&numerators, space)
    }

    // The sum where a path begins, less that where it leads to.
    pub fn fall(&mut self, leg: &Leg) -> Vec<Coefficient> {
        let web = self.web;
        let mut entries = self.entries();
        if let Some(start) = web.starts.get(leg.source) {
            self.add_sum(&mut entries, leg.source, &start.forms, 1);
        }
        if let Some(target) = leg.target {
            self.add_sum(&mut entries, target, &leg.forms, -1);
        }
        entries
    }

    // Adds the sum where measures are given by forms, and the measure itself, if one is promised.
    fn add_promised(
        &mut self,
        entries: &mut Vec<Coefficient>,
        key: usize,
        forms: &[Option<Form>],
        wanted: &WantedBound<'_>,
        times: i128,
    ) {
        self.add_sum(entries, key, forms, times);
        if wanted.is_count() || (key == 0 && !wanted.is_added) {
            return;
        }
        if let Some(form) = form_in(forms, wanted.place) {
            let signed = Multiple::of(times.saturating_mul(wanted.sign));
            add_form(entries, form, &signed, &mut self.draft.space);
        }
    }

    // The sum at the start of a path.
    fn begin(&mut self, source: usize, wanted: &WantedBound<'_>) -> Vec<Coefficient> {
        let web = self.web;
        let mut entries = self.entries();
        if let Some(start) = web.starts.get(source) {
            self.add_promised(&mut entries, source, &start.forms, wanted, 1);
        }
        entries
    }

    // That the sum does not grow on a path, even with what it adds to a count, if that is promised.
    fn add_leg(&mut self, leg: &Leg, wanted: &WantedBound<'_>) {
        if leg.target.is_none() && !wanted.is_count() {
            return;
        }
        let mut entries = self.begin(leg.source, wanted);
        if wanted.is_count() {
            take_away(
                &mut entries,
                &leg.forms,
                wanted.place,
                &mut self.draft.space,
            );
        }
        if let Some(target) = leg.target {
            self.add_promised(&mut entries, target, &leg.forms, wanted, -1);
        }
        self.imply_on(leg, &entries);
    }

    // That the sum is no less than the measure where it was raised.
    fn add_peak(&mut self, source: usize, peak: &Peak, wanted: &WantedBound<'_>) {
        let mut entries = self.begin(source, wanted);
        add_form(
            &mut entries,
            &peak.form,
            &Multiple::of(-1),
            &mut self.draft.space,
        );
        self.imply(source, &peak.constraints, &entries);
    }

    // That it is so at each place where it was raised on a path, unless it is so behind that.
    fn add_peaks(&mut self, leg: &Leg, wanted: &WantedBound<'_>, is_done: &mut [bool]) {
        let web = self.web;
        let mut at = leg.peak;
        let mut above = match leg.target {
            Some(_) => form_in(&leg.forms, wanted.place),
            None => None,
        };
        for _ in 0..web.record.peaks.len() {
            let Some((place, peak)) = web.record.peak_at(at) else {
                break;
            };
            at = peak.before;
            if peak.place != wanted.place
                || is_below(leg, &peak.form, above, &mut self.draft.space)
            {
                continue;
            }
            above = Some(&peak.form);
            if is_first(is_done, place) {
                self.add_peak(leg.source, peak, wanted);
            }
        }
    }

    // That the sum does not grow on the paths that count, and is no less than the measure on them.
    fn add_legs(&mut self, wanted: &WantedBound<'_>) {
        let web = self.web;
        let has_peaks = !wanted.is_count() && !wanted.is_loose;
        let mut is_done = self.draft.space.repeated(false, web.record.peaks.len());
        for (at, leg) in web.legs.iter().enumerate() {
            if !wanted.counts(at) {
                continue;
            }
            self.add_leg(leg, wanted);
            if has_peaks {
                self.add_peaks(leg, wanted, &mut is_done);
            }
        }
    }

    // That the polynomial's number alone is no less than the steps to the first keys: what a square
    // says of these is hard to show.
    fn add_first_steps(&mut self, wanted: &WantedBound<'_>) {
        if wanted.place != STEPS || wanted.degree == 1 || wanted.only.is_some() {
            return;
        }
        let mut least = 0i128;
        for leg in &self.web.legs {
            if leg.source == 0 {
                least = least.max(own_steps(leg));
            }
        }
        self.unknowns.begin_with(&mut self.draft, least);
    }

    // That the polynomial is no less than the measure at the entry.
    fn add_entry(&mut self, wanted: &WantedBound<'_>) {
        let web = self.web;
        let Some(start) = web.starts.first() else {
            return;
        };
        if wanted.is_count() || wanted.is_loose || wanted.is_added {
            return;
        }
        let mut entries = self.begin(0, wanted);
        take_away(
            &mut entries,
            &start.forms,
            wanted.place,
            &mut self.draft.space,
        );
        self.imply(0, &start.constraints, &entries);
    }

    // Makes the program of what is wanted.
    fn want(&mut self, wanted: &WantedBound<'_>) {
        self.add_legs(wanted);
        self.add_entry(wanted);
        self.add_first_steps(wanted);
        self.settle_least();
    }

    // What is claimed at a key: the polynomial, less the sum and the measure.
    fn claim(
        &mut self,
        key: usize,
        most: &Form,
        values: &Assignment,
        wanted: &WantedBound<'_>,
    ) -> Form {
        let form = self.form_at(key, values);
        let space = &mut self.draft.space;
        let mut rest = space.difference(most, &form);
        if self.web.has_form(key, wanted.place) {
            let times = Scale {
                factor: values.denominator.saturating_mul(wanted.sign),
                power: 0,
            };
            let mut measure = space.symbol(wanted.place);
            if wanted.is_added {
                let before = space.symbol(ENTRY_HELD);
                measure = space.difference(&measure, &before);
            }
            let measure = space.scaled(&measure, &times);
            rest = space.difference(&rest, &measure);
        }
        lowest(&rest, space)
    }

    // What is claimed at each key.
    fn claims(&mut self, most: &Form, values: &Assignment, wanted: &WantedBound<'_>) -> Vec<Form> {
        let mut claims = Vec::new(self.draft.space.alloc);
        for key in 0..self.web.starts.len() {
            let claim = self.claim(key, most, values, wanted);
            self.draft.space.push(&mut claims, claim);
        }
        claims
    }

    // What is promised where the polynomial is rounded up, if that is found and plain.
    fn plainer(&mut self, values: &Assignment, wanted: &WantedBound<'_>) -> Option<FoundPromise> {
        self.unknowns.round(&mut self.draft, values);
        let values = self.draft.solved(wanted.pivots.min(PLAIN_PIVOTS))?;
        let promise = self.promise(&values, wanted);
        if promise.is_plain() {
            Some(promise)
        } else {
            None
        }
    }

    // What the values of a program promise.
    fn promise(&mut self, values: &Assignment, wanted: &WantedBound<'_>) -> FoundPromise {
        let space = &mut self.draft.space;
        let numerators = self.unknowns.polynomial(values, space);
        let most = form_by(&numerators, space);
        FoundPromise {
            place: wanted.place,
            is_added: wanted.is_added,
            sign: wanted.sign,
            numerators,
            divisor: values.denominator,
            claims: self.claims(&most, values, wanted),
        }
    }
}

// What a program promises, if its values are found: where that is not plain, what is.
fn solved(sought: &mut PotentialProgram<'_>, wanted: &WantedBound<'_>) -> Option<FoundPromise> {
    let values = sought.values(wanted.pivots)?;
    let promise = sought.promise(&values, wanted);
    if promise.is_plain() {
        return Some(promise);
    }
    Some(sought.plainer(&values, wanted).unwrap_or(promise))
}

// A promise of what is wanted, if one is found, and the work that is spent on it.
fn tried(
    web: &Web,
    known: &KnownClaims,
    wanted: &WantedBound<'_>,
    space: &mut Workspace,
) -> (Option<FoundPromise>, usize) {
    let mut sought = PotentialProgram::of_facts(web, known, wanted, space.alloc);
    sought.want(wanted);
    let mut tried = (None, 0);
    if sought.draft.rows() <= wanted.rows {
        let work = sought.draft.work(wanted.pivots);
        tried = (solved(&mut sought, wanted), work);
    }
    space.follow(&sought.draft.space);
    tried
}

// A promise of what is wanted, if one is found. None is sought where the search is to stop.
pub fn promised(
    web: &Web,
    known: &mut KnownClaims,
    wanted: &WantedBound<'_>,
    space: &mut Workspace,
) -> Option<FoundPromise> {
    if space.is_stopped() {
        return None;
    }
    let (promise, work) = tried(web, known, wanted, space);
    known.spend(work);
    promise
}
