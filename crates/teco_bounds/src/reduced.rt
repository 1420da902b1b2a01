//! Fewer constraints that say the same of the symbols that matter.
use crate::bounds::Bounds;
use crate::constraints::{equal_rows, least_forms, symbol_of};
use crate::forms::shifted;
use crate::numbers::common;
use crate::programs::{Coefficient, Multiple, add_form};
use crate::workspace::Workspace;
use teco_linear::{Difference, Form, Scale, Term};

// The most rounds of taking symbols out.
const ROUNDS: usize = 8;

// Constraints with a number from here on are left out.
const LARGE: i128 = 1 << 24;

// The coefficient of a symbol.
fn coefficient(form: &Form, symbol: u32) -> i128 {
    for term in form.terms() {
        if term.symbol == Some(symbol) && term.power == 0 {
            return term.coefficient;
        }
    }
    0
}

// Numbers from here on are too large for lengths.
const NUMBERS: u128 = 1 << 30;

// Which limits are used: the greatest number of 32 bits, or the greatest length too.
#[derive(Clone, Copy)]
pub enum UsedLimits {
    None,
    Numbers,
    All,
}

impl UsedLimits {
    // Whether a form may be used.
    pub fn take(self, form: &Form) -> bool {
        let least = match self {
            UsedLimits::None => u128::MAX,
            UsedLimits::Numbers => NUMBERS,
            UsedLimits::All => return true,
        };
        form.terms().iter().all(|term| {
            let size = term.coefficient.unsigned_abs();
            term.symbol.is_some() || size < LARGE.unsigned_abs() || size >= least
        })
    }
}

// Whether a form says something: it has a symbol.
fn speaks(form: &Form) -> bool {
    form.terms().iter().any(|term| term.symbol.is_some())
}

// The number of a form, and the terms behind it.
fn apart(form: &Form) -> (i128, &[Term]) {
    match form.terms() {
        [first, behind @ ..] if first.symbol.is_none() && first.power == 0 => {
            (first.coefficient, behind)
        }
        terms => (0, terms),
    }
}

// By how much a form is more than another, where they differ by a number at most.
fn excess(form: &Form, other: &Form) -> Option<i128> {
    let (number, terms) = apart(form);
    let (other_number, other_terms) = apart(other);
    if terms == other_terms {
        number.checked_sub(other_number)
    } else {
        None
    }
}

// Adds a constraint, unless one that is there says as much; it takes the place of one that says less.
fn add(forms: &mut Vec<Form>, form: Form, space: &mut Workspace) {
    if !speaks(&form) && form.is_harmless() {
        return;
    }
    for known in forms.iter_mut() {
        if let Some(more) = excess(&form, known) {
            if more < 0 {
                *known = form;
            }
            return;
        }
    }
    space.push(forms, form);
}

// How often a constraint is taken.
fn times(number: u128) -> Scale {
    Scale {
        factor: i128::try_from(number).unwrap_or(0),
        power: 0,
    }
}

// The sum of two constraints that is without a symbol.
fn without(one: &Form, other: &Form, symbol: u32, space: &mut Workspace) -> Form {
    let up = coefficient(one, symbol).unsigned_abs();
    let down = coefficient(other, symbol).unsigned_abs();
    let shared = common(up, down).max(1);
    let first = space.scaled(one, &times(down / shared));
    let second = space.scaled(other, &times(up / shared));
    space.sum(&first, &second)
}

// How many constraints have a symbol with each sign.
fn counts(forms: &[Form], symbol: u32) -> (usize, usize) {
    let (mut above, mut below) = (0usize, 0usize);
    for form in forms {
        let coefficient = coefficient(form, symbol);
        if coefficient > 0 {
            above = above.saturating_add(1);
        } else if coefficient < 0 {
            below = below.saturating_add(1);
        }
    }
    (above, below)
}

// Takes from constraints those that have a symbol with a sign.
fn taken(forms: &mut Vec<Form>, symbol: u32, sign: i128, space: &mut Workspace) -> Vec<Form> {
    let mut taken = Vec::new(space.alloc);
    for form in std::mem::replace(forms, Vec::new(space.alloc)) {
        if coefficient(&form, symbol).signum() == sign {
            space.push(&mut taken, form);
        } else {
            space.push(forms, form);
        }
    }
    taken
}

// Makes constraints be without a symbol.
fn take_out(forms: &mut Vec<Form>, symbol: u32, space: &mut Workspace) {
    let above = taken(forms, symbol, 1, space);
    let below = taken(forms, symbol, -1, space);
    for one in &above {
        for other in &below {
            let sum = without(one, other, symbol, space);
            add(forms, sum, space);
        }
    }
}

// Adds the symbols of a form to others.
pub fn add_symbols(symbols: &mut Vec<u32>, form: &Form, space: &mut Workspace) {
    for symbol in form.terms().iter().filter_map(|term| term.symbol) {
        if !symbols.contains(&symbol) {
            space.push(symbols, symbol);
        }
    }
}

// The symbols of constraints.
fn all_symbols(forms: &[Form], space: &mut Workspace) -> Vec<u32> {
    let mut symbols = Vec::new(space.alloc);
    for form in forms {
        add_symbols(&mut symbols, form, space);
    }
    symbols
}

// Makes constraints be without symbols that are not kept, where that makes them no more; says whether there was one.
fn take_out_others(forms: &mut Vec<Form>, kept: &[u32], space: &mut Workspace) -> bool {
    let mut is_less = false;
    let symbols = all_symbols(forms, space);
    for symbol in &symbols {
        let (above, below) = counts(forms, *symbol);
        let is_few = above.saturating_mul(below) <= above.saturating_add(below);
        if is_few && !kept.contains(symbol) {
            take_out(forms, *symbol, space);
            is_less = true;
        }
    }
    is_less
}

// Makes constraints be without symbols that are not kept, round by round.
fn eliminate(forms: &mut Vec<Form>, kept: &[u32], space: &mut Workspace) {
    for _ in 0..ROUNDS {
        if !take_out_others(forms, kept, space) {
            break;
        }
    }
}

// What stands for symbols that others are equal to, but for a number.
#[derive(Drop)]
struct Equals {
    symbols: Vec<u32>,
    forms: Vec<Form>,
}

impl Equals {
    // The equal symbols by bounds.
    fn of(bounds: &Bounds, space: &mut Workspace) -> Equals {
        let mut equals = Equals {
            symbols: Vec::new(space.alloc),
            forms: Vec::new(space.alloc),
        };
        for each in &equal_rows(bounds, space).equal {
            let form = shifted(symbol_of(bounds, each.other), each.more, space);
            space.push(&mut equals.symbols, each.symbol);
            space.push(&mut equals.forms, form);
        }
        equals
    }

    // What stands for a symbol.
    fn at(&self, symbol: Option<u32>) -> Option<&Form> {
        for (known, form) in self.symbols.iter().zip(self.forms.iter()) {
            if Some(*known) == symbol {
                return Some(form);
            }
        }
        None
    }

    // A term with it in place of its symbol.
    fn put_term(&self, term: &Term, space: &mut Workspace) -> Form {
        let scale = Scale {
            factor: term.coefficient,
            power: term.power,
        };
        match self.at(term.symbol) {
            Some(form) => space.scaled(form, &scale),
            None => space.term(*term),
        }
    }

    // A form with them in place of symbols.
    fn put(&self, form: &Form, space: &mut Workspace) -> Form {
        let mut sum = Form::zero(space.alloc);
        for term in form.terms() {
            let part = self.put_term(term, space);
            sum = space.sum(&sum, &part);
        }
        sum
    }

    // Entries with them in place of symbols.
    fn put_entries(&self, entries: &[Coefficient], space: &mut Workspace) -> Vec<Coefficient> {
        let mut all = Vec::new(space.alloc);
        for entry in entries {
            let multiple = Multiple {
                number: entry.coefficient,
                power: entry.power,
                variable: entry.variable,
            };
            match self.at(entry.symbol) {
                Some(form) => add_form(&mut all, form, &multiple, space),
                None => space.push(&mut all, *entry),
            }
        }
        all
    }

    // What constraints say with them in place of symbols.
    fn put_forms(&self, constraints: &[Form], space: &mut Workspace) -> Vec<Form> {
        let mut forms = Vec::new(space.alloc);
        for constraint in constraints {
            let form = self.put(constraint, space);
            add(&mut forms, form, space);
        }
        forms
    }
}

// What bounds of differences say of these symbols, at the least.
fn differences(bounds: &Bounds, symbols: &[u32], space: &mut Workspace) -> Vec<Form> {
    let mut known = Vec::new(space.alloc);
    for symbol in symbols {
        if bounds.place(Some(*symbol)).is_some() {
            space.push(&mut known, *symbol);
        }
    }
    let own = bounds.of_symbols(&known, space);
    least_forms(&own, space)
}

// A demand: that what entries add up to is implied by constraints.
#[derive(Drop)]
pub struct Demand {
    pub entries: Vec<Coefficient>,
    pub constraints: Vec<Form>,
}

// What constraints say: the bounds of those that bound differences, and the others. Limits may be left out.
#[derive(Drop)]
pub struct Bounded {
    pub bounds: Bounds,
    pub rough: Vec<Form>,
}

impl Bounded {
    pub fn of(constraints: &[Form], limits: UsedLimits, space: &mut Workspace) -> Bounded {
        let mut all = Bounded {
            bounds: Bounds::none(space),
            rough: Vec::new(space.alloc),
        };
        all.add(constraints, limits, space);
        all
    }

    pub fn copied(&self, space: &mut Workspace) -> Bounded {
        Bounded {
            bounds: self.bounds.copied(space),
            rough: space.copied_forms(&self.rough),
        }
    }

    // Adds what more constraints say.
    pub fn add(&mut self, constraints: &[Form], limits: UsedLimits, space: &mut Workspace) {
        for form in constraints {
            if !limits.take(form) {
                continue;
            }
            if Difference::of(form).is_some() {
                self.bounds.add(form, space);
            } else {
                let copy = space.copied(form);
                space.push(&mut self.rough, copy);
            }
        }
    }
}

// A demand by what bounds no difference, where one symbol stands for those that are equal.
fn rough_demand(entries: &[Coefficient], constraints: &Bounded, space: &mut Workspace) -> Demand {
    let equals = Equals::of(&constraints.bounds, space);
    Demand {
        constraints: equals.put_forms(&constraints.rough, space),
        entries: equals.put_entries(entries, space),
    }
}

// The symbols of entries.
fn symbols_of(entries: &[Coefficient], space: &mut Workspace) -> Vec<u32> {
    let mut symbols = Vec::new(space.alloc);
    for symbol in entries.iter().filter_map(|entry| entry.symbol) {
        if !symbols.contains(&symbol) {
            space.push(&mut symbols, symbol);
        }
    }
    symbols
}

// Adds to constraints what bounds say of their symbols and of those that are kept. Limits may be left out.
fn add_differences(
    forms: &mut Vec<Form>,
    bounds: &Bounds,
    kept: &[u32],
    limits: UsedLimits,
    space: &mut Workspace,
) {
    let mut symbols = space.listed(kept);
    for form in forms.iter() {
        add_symbols(&mut symbols, form, space);
    }
    for form in differences(bounds, &symbols, space) {
        if limits.take(&form) {
            add(forms, form, space);
        }
    }
}

// A demand that says as much by fewer constraints and symbols; none where the constraints can't all hold. Limits
// may be left out.
pub fn reduced(
    entries: &[Coefficient],
    constraints: &Bounded,
    limits: UsedLimits,
    space: &mut Workspace,
) -> Option<Demand> {
    let bounds = &constraints.bounds;
    if bounds.is_void() {
        return None;
    }
    let mut demand = rough_demand(entries, constraints, space);
    let kept = symbols_of(&demand.entries, space);
    add_differences(&mut demand.constraints, bounds, &kept, limits, space);
    eliminate(&mut demand.constraints, &kept, space);
    Some(demand)
}

// Whether two entries are the same.
fn is_same_entry(one: &Coefficient, other: &Coefficient) -> bool {
    one.symbol == other.symbol
        && one.power == other.power
        && one.variable == other.variable
        && one.coefficient == other.coefficient
}

// Whether two forms are the same.
fn is_same_form(one: &Form, other: &Form) -> bool {
    one.terms() == other.terms()
}

impl Demand {
    // Whether another demand, which asks for the same by no more constraints, is enough.
    pub fn follows(&self, other: &Demand) -> bool {
        let is_same = self.entries.len() == other.entries.len()
            && self
                .entries
                .iter()
                .zip(other.entries.iter())
                .all(|(one, two)| is_same_entry(one, two));
        is_same
            && other.constraints.iter().all(|form| self
                .constraints
                .iter()
                .any(|own| is_same_form(own, form)))
    }
}
