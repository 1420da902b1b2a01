//! Unknown coefficients, of which potentials are sums.
use crate::known_claims::KnownClaims;
use crate::wanted::{Scope, WantedBound};
use teco_bounds::constraints::least_forms;
use teco_bounds::forms::at_forms;
use teco_bounds::programs::{Coefficient, DraftProgram, Multiple, add_form};
use teco_bounds::web::{LegStart, Web};
use teco_bounds::workspace::Workspace;
use teco_linear::{Form, Scale};
use teco_simplex::{Assignment, Relation, Sign};

// An unknown coefficient: of a form over the places of measures, times a power of N.
#[derive(Drop)]
struct Unknown {
    form: Form,
    power: u32,
    variable: usize,
}

// A fraction's whole part, rounded up.
pub fn rounded_up(numerator: i128, divisor: i128) -> i128 {
    let whole = numerator.checked_div(divisor).unwrap_or(0);
    let rest = numerator.checked_rem(divisor).unwrap_or(0);
    if rest > 0 {
        whole.saturating_add(1)
    } else {
        whole
    }
}

// The unknown coefficients of each key.
#[derive(Drop)]
pub struct Unknowns {
    of: Vec<Vec<Unknown>>,
}

// The value of a variable, times the denominator.
fn value_of(values: &Assignment, variable: usize) -> i128 {
    values.numerators.get(variable).copied().unwrap_or(0)
}

// Adds an unknown for each power of N below a degree.
fn add_unknowns(
    unknowns: &mut Vec<Unknown>,
    draft: &mut DraftProgram,
    form: &Form,
    sign: Sign,
    powers: u32,
) {
    for power in 0..powers {
        let unknown = Unknown {
            form: draft.space.copied(form),
            power,
            variable: draft.variable(sign),
        };
        draft.space.push(unknowns, unknown);
    }
}

// Whether a form speaks of measures of a scope alone.
fn is_within(form: &Form, scope: Scope) -> bool {
    form.terms().iter().all(|term| match term.symbol {
        Some(place) => scope.has(place),
        None => true,
    })
}

// What is known at a key of the measures of a scope.
fn generators(
    start: &LegStart,
    key: usize,
    known: &KnownClaims,
    wanted: &WantedBound<'_>,
    space: &mut Workspace,
) -> Vec<Form> {
    let mut symbols = space.listed(&start.own);
    symbols.retain(|place| wanted.scope.has(*place));
    let bounds = start.bounds.of_symbols(&symbols, space);
    let mut forms = least_forms(&bounds, space);
    forms.retain(|form| wanted.limits.take(form));
    for form in known.at(key, &start.forms, space) {
        if is_within(&form, wanted.scope) {
            space.push(&mut forms, form);
        }
    }
    forms
}

// The unknowns of measures where paths begin, of either sign, and of the number 1.
fn of_own(start: &LegStart, draft: &mut DraftProgram, degree: u32) -> Vec<Unknown> {
    let mut unknowns = Vec::new(draft.space.alloc);
    let one = draft.space.constant(1);
    add_unknowns(
        &mut unknowns,
        draft,
        &one,
        Sign::Free,
        degree.saturating_add(1),
    );
    for measure in &start.own {
        let form = draft.space.symbol(*measure);
        add_unknowns(&mut unknowns, draft, &form, Sign::Free, degree);
    }
    unknowns
}

// The unknowns of what is known at a key to be at least 0, behind the entry, and of the number 1.
fn of_known(
    start: &LegStart,
    key: usize,
    known: &KnownClaims,
    draft: &mut DraftProgram,
    wanted: &WantedBound<'_>,
) -> Vec<Unknown> {
    let mut unknowns = Vec::new(draft.space.alloc);
    let one = draft.space.constant(1);
    let powers = wanted.highest.saturating_add(1);
    add_unknowns(&mut unknowns, draft, &one, Sign::NonNegative, powers);
    if key > 0 {
        for form in &generators(start, key, known, wanted, &mut draft.space) {
            add_unknowns(&mut unknowns, draft, form, Sign::NonNegative, wanted.degree);
        }
    }
    unknowns
}

impl Unknowns {
    // Of each measure of each key, of either sign, and at the entry of the polynomial.
    pub fn of_measures(web: &Web, draft: &mut DraftProgram, degree: u32) -> Unknowns {
        let mut of = Vec::new(draft.space.alloc);
        for start in &web.starts {
            let unknowns = of_own(start, draft, degree);
            draft.space.push(&mut of, unknowns);
        }
        Unknowns { of }
    }

    // Of what is known at each key to be at least 0, and at the entry of the polynomial.
    pub fn of_facts(
        web: &Web,
        known: &KnownClaims,
        draft: &mut DraftProgram,
        wanted: &WantedBound<'_>,
    ) -> Unknowns {
        let mut of = Vec::new(draft.space.alloc);
        for (key, start) in web.starts.iter().enumerate() {
            let unknowns = of_known(start, key, known, draft, wanted);
            draft.space.push(&mut of, unknowns);
        }
        Unknowns { of }
    }

    // Those of a key.
    fn at(&self, key: usize) -> &[Unknown] {
        match self.of.get(key) {
            Some(unknowns) => unknowns.as_slice(),
            None => &[],
        }
    }

    // Adds the sum of a key's measures, which are given by forms, times its unknowns.
    pub fn add(
        &self,
        entries: &mut Vec<Coefficient>,
        key: usize,
        forms: &[Option<Form>],
        times: i128,
        space: &mut Workspace,
    ) {
        for unknown in self.at(key) {
            let form = at_forms(&unknown.form, forms, space);
            let multiple = Multiple {
                number: times,
                power: unknown.power,
                variable: Some(unknown.variable),
            };
            add_form(entries, &form, &multiple, space);
        }
    }

    // The polynomial is to be least, its highest coefficient first, and then the sum of all others, so
    // that there are few; of a higher degree only the highest coefficient comes first.
    pub fn minimise(&self, draft: &mut DraftProgram, degree: u32) {
        if self.of.is_empty() {
            return;
        }
        let mut others = Vec::new(draft.space.alloc);
        for unknown in self.at(0).iter().rev() {
            if degree == 1 || unknown.power == degree {
                draft.minimise(&[unknown.variable]);
            } else {
                draft.space.push(&mut others, unknown.variable);
            }
        }
        self.add_others(&mut others, &mut draft.space);
        draft.minimise(&others);
    }

    // Adds the variables behind the entry.
    fn add_others(&self, others: &mut Vec<usize>, space: &mut Workspace) {
        for unknowns in self.of.get(1..).unwrap_or(&[]) {
            for unknown in unknowns {
                space.push(others, unknown.variable);
            }
        }
    }

    // The polynomial's number is no less than this.
    pub fn begin_with(&self, draft: &mut DraftProgram, least: i128) {
        for unknown in self.at(0) {
            if unknown.power == 0 {
                draft.bound(unknown.variable, Relation::AtLeast, least);
            }
        }
    }

    // Takes the polynomial to be no more than the values rounded up; the sum of all others is to be
    // least.
    pub fn round(&self, draft: &mut DraftProgram, values: &Assignment) {
        for unknown in self.at(0) {
            let most = rounded_up(value_of(values, unknown.variable), values.denominator);
            draft.bound(unknown.variable, Relation::AtMost, most);
        }
        draft.let_go();
        let mut others = Vec::new(draft.space.alloc);
        self.add_others(&mut others, &mut draft.space);
        draft.minimise(&others);
    }

    // The sum at a key, as a form over the places of measures.
    pub fn form(&self, key: usize, values: &Assignment, space: &mut Workspace) -> Form {
        let mut sum = Form::zero(space.alloc);
        for unknown in self.at(key) {
            let scale = Scale {
                factor: value_of(values, unknown.variable),
                power: unknown.power,
            };
            let part = space.scaled(&unknown.form, &scale);
            sum = space.sum(&sum, &part);
        }
        sum
    }

    // The numerators of the polynomial.
    pub fn polynomial(&self, values: &Assignment, space: &mut Workspace) -> Vec<i128> {
        let mut numerators = Vec::new(space.alloc);
        for unknown in self.at(0) {
            space.push(&mut numerators, value_of(values, unknown.variable));
        }
        numerators
    }
}
