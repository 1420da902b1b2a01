//! Which multipliers show that constraints imply a form. Nothing is promised of what is found.

use crate::chains::{Graph, is_difference};
use crate::fault::ImpliedFault;
use crate::kinds::{Monomial, highest, highest_alone, highest_in, kinds_of, placed};
use crate::points::is_refuted;
use crate::relevant::{near, relevant};
use crate::shifted::{Shifted, with_chain};
use crate::useful::useful;
use std::alloc::Global;
use teco_linear::{Form, Multiplier};
use teco_simplex::{
    Assignment, Condition, LinearProgram, Relation, Sign, SimplexFault, SolverAnswer,
};

// The most steps of the search.
const PIVOTS: usize = 2000;

// The highest power of N that constraints are multiplied with.
const MOST_POWER: u32 = 9;

// How many programs of nearby constraints there are.
const NEAR: usize = 2;

// Numbers from here on are limits: of 32-bit numbers, or of what is held.
const LIMITS: u128 = 1 << 24;

/// How far multipliers are sought.
#[derive(Clone, Copy)]
pub enum Depth {
    /// By linear programs of nearby constraints.
    Near,
    /// And by one of all constraints.
    All,
}

/// Multipliers, and the divisor.
#[derive(Drop)]
pub struct Combination {
    pub multipliers: Vec<Multiplier>,
    pub divisor: u64,
}

// A constraint times a power of N.
#[derive(Clone, Copy)]
struct ConstraintMultiple {
    constraint: usize,
    power: u32,
}

// Of each constraint, times each power of N that stands at no higher one than the target has use for.
fn columns_of(
    constraints: &[Form],
    places: &[usize],
    most: u32,
    alloc: Global,
) -> Result<Vec<ConstraintMultiple>, ImpliedFault> {
    let mut columns = Vec::new(alloc);
    for place in places {
        if let Some(constraint) = constraints.get(*place) {
            let highest = highest_in(constraint);
            for power in 0..=most.saturating_sub(highest) {
                columns.push(ConstraintMultiple {
                    constraint: *place,
                    power,
                })?;
            }
        }
    }
    Ok(columns)
}

// The rows of a program: what the multipliers do to the terms of each kind.
#[derive(Drop)]
struct Sums {
    kinds: Vec<Monomial>,
    terms: Vec<Vec<teco_simplex::Summand>>,
}

impl Sums {
    // No terms of the kinds that stand in the target.
    fn of(target: &Form, alloc: Global) -> Result<Sums, ImpliedFault> {
        let kinds = kinds_of(&[target], alloc)?;
        let mut terms = Vec::with_capacity(alloc, 16)?;
        for _ in &kinds {
            terms.push(Vec::with_capacity(alloc, 8)?)?;
        }
        Ok(Sums { kinds, terms })
    }

    // Adds a constraint times the power of N of a column, which is a variable.
    fn add(
        &mut self,
        constraint: &Form,
        power: u32,
        variable: usize,
        alloc: Global,
    ) -> Result<(), ImpliedFault> {
        for term in constraint.terms() {
            let kind = Monomial {
                symbol: term.symbol,
                power: term.power.saturating_add(power),
            };
            let place = placed(&mut self.kinds, kind)?;
            if place == self.terms.len() {
                self.terms.push(Vec::with_capacity(alloc, 8)?)?;
            }
            if let Some(terms) = self.terms.get_mut(place) {
                terms.push(teco_simplex::Summand {
                    variable,
                    coefficient: term.coefficient,
                })?;
            }
        }
        Ok(())
    }
}

// What the multipliers must do to the terms of a kind: none with a symbol may stay, nor a negative
// one without.
fn row_of(kind: Monomial, terms: Vec<teco_simplex::Summand>, target: &Form) -> Condition {
    let relation = if kind.symbol.is_some() {
        Relation::Equal
    } else {
        Relation::AtMost
    };
    Condition {
        terms,
        relation,
        bound: kind.coefficient(target),
    }
}

// What the multipliers of these columns do to the terms of each kind.
fn sums_of(
    constraints: &[Form],
    columns: &[ConstraintMultiple],
    target: &Form,
    alloc: Global,
) -> Result<Sums, ImpliedFault> {
    let mut sums = Sums::of(target, alloc)?;
    for (variable, column) in columns.iter().enumerate() {
        if let Some(constraint) = constraints.get(column.constraint) {
            sums.add(constraint, column.power, variable, alloc)?;
        }
    }
    Ok(sums)
}

// A program of so many variables, none of which is below 0.
fn program_with(variables: usize, alloc: Global) -> Result<LinearProgram, ImpliedFault> {
    let mut program = LinearProgram::new(alloc);
    for _ in 0..variables {
        program.add_variable(Sign::NonNegative)?;
    }
    Ok(program)
}

// Adds the rows that sums are.
fn add_rows(
    program: &mut LinearProgram,
    sums: &mut Sums,
    target: &Form,
) -> Result<(), ImpliedFault> {
    for (kind, terms) in sums.kinds.iter().zip(sums.terms.drain(..)) {
        program.add_row(row_of(*kind, terms, target))?;
    }
    Ok(())
}

// The program whose values are multipliers.
fn program_of(
    constraints: &[Form],
    columns: &[ConstraintMultiple],
    target: &Form,
    alloc: Global,
) -> Result<LinearProgram, ImpliedFault> {
    let mut sums = sums_of(constraints, columns, target, alloc)?;
    let mut program = program_with(columns.len(), alloc)?;
    add_rows(&mut program, &mut sums, target)?;
    Ok(program)
}

// Values as multipliers, if these numbers hold them.
fn multipliers_of(
    columns: &[ConstraintMultiple],
    values: &Assignment,
    alloc: Global,
) -> Result<Option<Combination>, ImpliedFault> {
    let Ok(divisor) = u64::try_from(values.denominator) else {
        return Ok(None);
    };
    let mut multipliers = Vec::new(alloc);
    for (column, numerator) in columns.iter().zip(&values.numerators) {
        if *numerator != 0 {
            let Ok(factor) = u64::try_from(*numerator) else {
                return Ok(None);
            };
            multipliers.push(Multiplier {
                constraint: column.constraint,
                factor,
                power: column.power,
            })?;
        }
    }
    Ok(Some(Combination {
        multipliers,
        divisor,
    }))
}

// Each of these constraints once.
fn once(places: &[usize], alloc: Global) -> Result<Combination, ImpliedFault> {
    let mut multipliers = Vec::new(alloc);
    for place in places {
        multipliers.push(Multiplier {
            constraint: *place,
            factor: 1,
            power: 0,
        })?;
    }
    Ok(Combination {
        multipliers,
        divisor: 1,
    })
}

// A constraint once, and those of a chain so many times.
fn of_shifted(shifted: &Shifted, alloc: Global) -> Result<Combination, ImpliedFault> {
    let mut multipliers = Vec::with_capacity(alloc, shifted.chain.len().saturating_add(1))?;
    multipliers.push(Multiplier {
        constraint: shifted.constraint,
        factor: 1,
        power: 0,
    })?;
    for place in &shifted.chain {
        multipliers.push(Multiplier {
            constraint: *place,
            factor: shifted.times,
            power: 0,
        })?;
    }
    Ok(Combination {
        multipliers,
        divisor: 1,
    })
}

// By a linear program, whose constraints are multiplied with powers of N up to this one.
fn by_powers(
    constraints: &[Form],
    places: &[usize],
    target: &Form,
    most: u32,
    alloc: Global,
) -> Result<Option<Combination>, ImpliedFault> {
    let columns = columns_of(constraints, places, most, alloc)?;
    let program = program_of(constraints, &columns, target, alloc)?;
    match program.solve(alloc, PIVOTS) {
        Ok(SolverAnswer::Found(values)) => multipliers_of(&columns, &values, alloc),
        Err(SimplexFault::Memory) => Err(ImpliedFault::Memory),
        _ => Ok(None),
    }
}

// Whether symbols of a constraint stand at several powers of N.
fn is_mixed(constraint: &Form) -> bool {
    let highest = highest_in(constraint);
    constraint
        .terms()
        .iter()
        .any(|term| term.symbol.is_some() && term.power < highest)
}

// The powers that are tried: as few as the target has first, which keeps numbers small, then those of
// all constraints, or what N^2 needs that stands alone, and last one more, as the highest terms of a
// mixed constraint may cancel.
fn tried_powers(constraints: &[Form], places: &[usize], target: &Form, has_more: bool) -> [u32; 3] {
    let least = highest_in(target).min(MOST_POWER);
    let alone = highest_alone(target).saturating_sub(1);
    let most = highest(constraints).max(least).max(alone).min(MOST_POWER);
    let is_any_mixed = has_more
        && places.iter().any(|place| constraints.get(*place).is_some_and(|form| is_mixed(form)));
    let more = if least > 0 && is_any_mixed {
        most.saturating_add(1).min(MOST_POWER)
    } else {
        most
    };
    [least, most, more]
}

// By linear programs with more and more powers of N.
fn by_program(
    constraints: &[Form],
    places: &[usize],
    target: &Form,
    has_more: bool,
    alloc: Global,
) -> Result<Option<Combination>, ImpliedFault> {
    let mut tried = None;
    for most in tried_powers(constraints, places, target, has_more) {
        if tried == Some(most) {
            continue;
        }
        tried = Some(most);
        let found = by_powers(constraints, places, target, most, alloc)?;
        if found.is_some() {
            return Ok(found);
        }
    }
    Ok(None)
}

// Whether a constraint has a number that is a limit.
fn is_limit(constraint: &Form) -> bool {
    constraint.terms().iter().any(|term| term.symbol.is_none()
        && term.power == 0
        && term.coefficient.unsigned_abs() >= LIMITS)
}

// Whether one of these constraints has.
fn is_any_limit(constraints: &[Form], places: &[usize]) -> bool {
    places.iter().any(|place| constraints.get(*place).is_some_and(|form| is_limit(form)))
}

// Whether each constraint says something that none before it says.
fn speaking(constraints: &[Form], alloc: Global) -> Result<Vec<bool>, ImpliedFault> {
    let mut all = Vec::with_capacity(alloc, constraints.len())?;
    for (place, form) in constraints.iter().enumerate() {
        let before = constraints.get(..place).unwrap_or(&[]);
        let is_known = before.iter().any(|known| known.terms() == form.terms());
        all.push(!is_known && !form.is_harmless())?;
    }
    Ok(all)
}

// Whether these constraints and the target bound differences alone: then there are no multipliers
// where there is no chain.
fn are_differences(constraints: &[Form], places: &[usize], target: &Form) -> bool {
    is_difference(target)
        && places.iter().all(|place| constraints
            .get(*place)
            .is_some_and(|form| is_difference(form)))
}

// Which constraints programs are made of: those that the seeds lead to, that say something, and which
// have limits or none.
#[derive(Clone, Copy)]
struct Reach<'a> {
    constraints: &'a [Form],
    seeds: &'a [Form],
    depth: Depth,
    has_limits: bool,
    speaking: &'a [bool],
}

impl Reach<'_> {
    // How many steps from the seeds are gone at most.
    fn most(self) -> usize {
        match self.depth {
            Depth::All => NEAR,
            _ => NEAR - 1,
        }
    }

    // Whether the constraint at a place may stand in a program.
    fn takes(self, place: usize) -> bool {
        self.speaking.get(place) == Some(&true)
            && self
                .constraints
                .get(place)
                .is_some_and(|form| self.has_limits || !is_limit(form))
    }

    // The constraints that so many steps from the seeds lead to, or all that are connected with them.
    fn places(self, steps: usize, alloc: Global) -> Result<Vec<usize>, ImpliedFault> {
        let mut places = if steps < NEAR {
            near(self.constraints, self.seeds, steps, alloc)?
        } else {
            relevant(self.constraints, self.seeds, alloc)?
        };
        places.retain(|place| self.takes(*place));
        Ok(places)
    }

    // Whether programs of these constraints were not tried without limits before.
    fn is_new(self, places: &[usize]) -> bool {
        !self.has_limits || is_any_limit(self.constraints, places)
    }
}

// Whether differences alone can't all hold, so that there may be multipliers where there is no chain.
fn is_round(constraints: &[Form], seeds: &[Form], alloc: Global) -> Result<bool, ImpliedFault> {
    let below = Form::constant(-1, alloc)?;
    let places = relevant(constraints, seeds, alloc)?;
    let mut graph = Graph::of(constraints, &places, alloc)?;
    Ok(graph.chain(&below, alloc)?.is_some())
}

// By linear programs of the constraints at these places that are of use.
fn by_places(
    reach: Reach<'_>,
    places: &[usize],
    target: &Form,
    has_more: bool,
    alloc: Global,
) -> Result<Option<Combination>, ImpliedFault> {
    if are_differences(reach.constraints, places, target)
        && !is_round(reach.constraints, reach.seeds, alloc)?
    {
        return Ok(None);
    }
    match useful(reach.constraints, places, target, alloc)? {
        Some(useful) => by_program(reach.constraints, &useful, target, has_more, alloc),
        None => Ok(None),
    }
}

// By linear programs of more and more constraints: first of those that speak of the seeds' symbols
// alone, and last, if that is wanted, of all that are connected with the seeds.
fn by_steps(
    reach: Reach<'_>,
    target: &Form,
    alloc: Global,
) -> Result<Option<Combination>, ImpliedFault> {
    let mut tried = 0;
    for steps in 0..=reach.most() {
        let places = reach.places(steps, alloc)?;
        if places.len() <= tried || !reach.is_new(&places) {
            continue;
        }
        tried = places.len();
        let has_more = steps == NEAR && !reach.has_limits;
        let found = by_places(reach, &places, target, has_more, alloc)?;
        if found.is_some() {
            return Ok(found);
        }
    }
    Ok(None)
}

// By linear programs: without limits first, which keeps numbers small.
fn by_programs(
    constraints: &[Form],
    seeds: &[Form],
    target: &Form,
    depth: Depth,
    alloc: Global,
) -> Result<Option<Combination>, ImpliedFault> {
    let speaking = speaking(constraints, alloc)?;
    for has_limits in [false, true] {
        let reach = Reach {
            constraints,
            seeds,
            depth,
            has_limits,
            speaking: &speaking,
        };
        let found = by_steps(reach, target, alloc)?;
        if found.is_some() {
            return Ok(found);
        }
    }
    Ok(None)
}

// By no constraint, or by one that says what the target does.
fn at_once(
    constraints: &[Form],
    target: &Form,
    alloc: Global,
) -> Result<Option<Combination>, ImpliedFault> {
    if target.is_harmless() {
        return Ok(Some(once(&[], alloc)?));
    }
    match constraints
        .iter()
        .position(|form| form.terms() == target.terms())
    {
        Some(place) => Ok(Some(once(&[place], alloc)?)),
        None => Ok(None),
    }
}

// By a chain of differences.
fn by_chain(
    graph: &mut Graph,
    target: &Form,
    alloc: Global,
) -> Result<Option<Combination>, ImpliedFault> {
    match graph.chain(target, alloc)? {
        Some(chain) => Ok(Some(once(&chain, alloc)?)),
        None => Ok(None),
    }
}

// By a chain of differences, or by one with another constraint.
fn by_chains(
    constraints: &[Form],
    places: &[usize],
    target: &Form,
    alloc: Global,
) -> Result<Option<Combination>, ImpliedFault> {
    let mut graph = Graph::of(constraints, places, alloc)?;
    let found = by_chain(&mut graph, target, alloc)?;
    if found.is_some() {
        return Ok(found);
    }
    match with_chain(constraints, places, target, &mut graph, alloc)? {
        Some(shifted) => Ok(Some(of_shifted(&shifted, alloc)?)),
        None => Ok(None),
    }
}

/// Looks for multipliers that show a target, by way of the constraints that are connected with the
/// seeds by symbols: for chains of differences first, and then by linear programs, unless values are
/// found that show that there are none.
pub fn find(
    constraints: &[Form],
    seeds: &[Form],
    target: &Form,
    depth: Depth,
    alloc: Global,
) -> Result<Option<Combination>, ImpliedFault> {
    let found = at_once(constraints, target, alloc)?;
    if found.is_some() {
        return Ok(found);
    }
    let places = relevant(constraints, seeds, alloc)?;
    let found = by_chains(constraints, &places, target, alloc)?;
    if found.is_some() || is_refuted(constraints, &places, target, alloc)? {
        return Ok(found);
    }
    by_programs(constraints, seeds, target, depth, alloc)
}
