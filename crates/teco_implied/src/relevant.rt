//! Which constraints may matter to a target.

use crate::fault::ImpliedFault;
use std::alloc::Global;
use teco_linear::{Form, Term};

// The symbols that are reached, and whether N is.
#[derive(Drop)]
struct Reached {
    symbols: Vec<bool>,
    is_n: bool,
}

impl Reached {
    // What the terms of the seeds are multiples of is reached, and nothing else of these constraints.
    fn by(constraints: &[Form], seeds: &[Form], alloc: Global) -> Result<Reached, ImpliedFault> {
        let most = most_symbol(constraints).max(most_symbol(seeds));
        let mut reached = Reached {
            symbols: Vec::from_elem(alloc, false, most as usize + 1)?,
            is_n: false,
        };
        for seed in seeds {
            reached.add(seed);
        }
        Ok(reached)
    }

    // Whether what a term is a multiple of is reached.
    fn has(&self, term: &Term) -> bool {
        match term.symbol {
            Some(symbol) => self.symbols.get(symbol as usize) == Some(&true),
            None => term.power > 0 && self.is_n,
        }
    }

    // Reaches what the terms of a form are multiples of.
    fn add(&mut self, form: &Form) {
        for term in form.terms() {
            match term.symbol {
                Some(symbol) => {
                    if let Some(mark) = self.symbols.get_mut(symbol as usize) {
                        *mark = true;
                    }
                }
                None => self.is_n = self.is_n || term.power > 0,
            }
        }
    }

    // Whether all symbols of a form are reached.
    fn covers(&self, form: &Form) -> bool {
        form.terms()
            .iter()
            .all(|term| term.symbol.is_none() || self.has(term))
    }

    // Whether a form shares a symbol, or N, with what is reached. One without any is always taken.
    fn touches(&self, form: &Form) -> bool {
        let mut is_number = true;
        for term in form.terms() {
            if self.has(term) {
                return true;
            }
            is_number = is_number && term.symbol.is_none() && term.power == 0;
        }
        is_number
    }
}

/// The greatest symbol of a form, or 0.
pub fn greatest_symbol(form: &Form) -> u32 {
    let mut most = 0;
    for term in form.terms() {
        most = most.max(term.symbol.unwrap_or(0));
    }
    most
}

/// The greatest symbol of some forms, or 0.
pub fn most_symbol(forms: &[Form]) -> u32 {
    let mut most = 0;
    for form in forms {
        most = most.max(greatest_symbol(form));
    }
    most
}

// Takes the constraints that touch what is reached, and says whether there were some.
fn spread(constraints: &[Form], reached: &mut Reached, taken: &mut [bool]) -> bool {
    let mut is_more = false;
    for (constraint, mark) in constraints.iter().zip(taken.iter_mut()) {
        if !*mark && reached.touches(constraint) {
            *mark = true;
            reached.add(constraint);
            is_more = true;
        }
    }
    is_more
}

// Reaches the symbols of the constraints that touch what is reached.
fn widen(constraints: &[Form], reached: &mut Reached, alloc: Global) -> Result<(), ImpliedFault> {
    let mut touched = Vec::new(alloc);
    for place in 0..constraints.len() {
        if reached.touches(&constraints[place]) {
            touched.push(place)?;
        }
    }
    for place in &touched {
        if let Some(constraint) = constraints.get(*place) {
            reached.add(constraint);
        }
    }
    Ok(())
}

// The places of the constraints all of whose symbols are reached.
fn covered(
    constraints: &[Form],
    reached: &Reached,
    alloc: Global,
) -> Result<Vec<usize>, ImpliedFault> {
    let mut places = Vec::new(alloc);
    for place in 0..constraints.len() {
        if reached.covers(&constraints[place]) {
            places.push(place)?;
        }
    }
    Ok(places)
}

// The places that are marked.
fn marked(taken: &[bool], alloc: Global) -> Result<Vec<usize>, ImpliedFault> {
    let mut places = Vec::new(alloc);
    for place in 0..taken.len() {
        if taken[place] {
            places.push(place)?;
        }
    }
    Ok(places)
}

/// The places of the constraints that speak only of symbols of the seeds, or of those that so many
/// steps by way of constraints lead to.
pub fn near(
    constraints: &[Form],
    seeds: &[Form],
    steps: usize,
    alloc: Global,
) -> Result<Vec<usize>, ImpliedFault> {
    let mut reached = Reached::by(constraints, seeds, alloc)?;
    for _ in 0..steps {
        widen(constraints, &mut reached, alloc)?;
    }
    covered(constraints, &reached, alloc)
}

/// The places of the constraints that share a symbol with the seeds, or with another that does.
pub fn relevant(
    constraints: &[Form],
    seeds: &[Form],
    alloc: Global,
) -> Result<Vec<usize>, ImpliedFault> {
    let mut reached = Reached::by(constraints, seeds, alloc)?;
    let mut taken = Vec::from_elem(alloc, false, constraints.len())?;
    for _ in 0..constraints.len() {
        if !spread(constraints, &mut reached, &mut taken) {
            break;
        }
    }
    marked(&taken, alloc)
}
