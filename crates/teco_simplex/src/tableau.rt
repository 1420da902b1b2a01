//! The tableau: the equations that are left of a program, each with its basic variable.
use crate::equation::{Equation, Pivot};
use crate::exact::sum;
use crate::fault::SimplexFault;
use crate::program::{Condition, LinearProgram, Relation, Sign, Summand};
use std::alloc::Global;

// What a variable may do while it is at 0: only a usable one may become basic.
#[derive(Clone, Copy, PartialEq, Eq)]
pub enum Column {
    Usable,
    Free,
    Barred,
}

// How far the search goes.
#[derive(Clone, Copy)]
pub struct PivotLimits {
    // How many pivots are left.
    pub pivots: usize,
    // Behind so many pivots in a row that change no value Bland's rule takes over, by which none comes twice.
    pub patience: usize,
}

#[derive(Drop)]
pub struct Tableau {
    pub alloc: Global,
    // The program's variables, and behind them a slack for each row.
    pub columns: Vec<Column>,
    pub equations: Vec<Equation>,
    // The equations that define the free variables, each without those defined before it.
    pub definitions: Vec<Equation>,
    pub objectives: Vec<Equation>,
    pub limits: PivotLimits,
    // Memory for the terms of the next sum.
    pub spare: Vec<Summand>,
    // In how many equations and objectives each variable is, while that is kept up; else none.
    pub counts: Vec<usize>,
}

impl Tableau {
    pub fn of(
        program: &LinearProgram,
        alloc: Global,
        limits: PivotLimits,
    ) -> Result<Tableau, SimplexFault> {
        let mut tableau = Tableau {
            alloc,
            columns: Vec::new(alloc),
            equations: Vec::new(alloc),
            definitions: Vec::new(alloc),
            objectives: Vec::new(alloc),
            limits,
            spare: Vec::new(alloc),
            counts: Vec::new(alloc),
        };
        tableau.add(program)?;
        Ok(tableau)
    }

    // Takes in a program.
    fn add(&mut self, program: &LinearProgram) -> Result<(), SimplexFault> {
        self.add_columns(program)?;
        self.add_equations(program)?;
        for objective in &program.objectives {
            let terms = ordered(self.alloc, objective, program.signs.len())?;
            self.objectives.push(Equation::new(terms, 0))?;
        }
        Ok(())
    }

    fn add_columns(&mut self, program: &LinearProgram) -> Result<(), SimplexFault> {
        for sign in &program.signs {
            let column = match sign {
                Sign::NonNegative => Column::Usable,
                Sign::Free => Column::Free,
            };
            self.columns.push(column)?;
        }
        Ok(())
    }

    // A row that is no equation gets a slack, with the coefficient 1 or -1.
    fn add_equations(&mut self, program: &LinearProgram) -> Result<(), SimplexFault> {
        for row in &program.rows {
            let terms = self.terms_of(row, program.signs.len())?;
            let mut equation = Equation::new(terms, row.bound);
            equation.reduce()?;
            self.equations.push(equation)?;
        }
        Ok(())
    }

    // The terms of a row with those of its slack.
    fn terms_of(
        &mut self,
        row: &Condition,
        variables: usize,
    ) -> Result<Vec<Summand>, SimplexFault> {
        let mut terms = ordered(self.alloc, &row.terms, variables)?;
        let slack = match row.relation {
            Relation::Equal => 0,
            Relation::AtLeast => -1,
            Relation::AtMost => 1,
        };
        if slack != 0 {
            terms.push(Summand {
                variable: self.columns.len(),
                coefficient: slack,
            })?;
            self.columns.push(Column::Usable)?;
        }
        Ok(terms)
    }

    pub fn column(&self, variable: usize) -> Column {
        self.columns
            .get(variable)
            .copied()
            .unwrap_or(Column::Barred)
    }

    // In how many equations the variable is, while that is counted.
    pub fn count(&self, variable: usize) -> usize {
        self.counts.get(variable).copied().unwrap_or(usize::MAX)
    }

    // Makes the variable basic in the equation at the place: takes it out of all others.
    pub fn pivot(&mut self, place: usize, variable: usize) -> Result<(), SimplexFault> {
        let pivot = self.eliminated(place, variable)?;
        self.equations.push(pivot)?;
        Ok(())
    }

    // Sets the equation at the place aside as the definition of the free variable.
    pub fn define(&mut self, place: usize, variable: usize) -> Result<(), SimplexFault> {
        let definition = self.eliminated(place, variable)?;
        self.definitions.push(definition)?;
        Ok(())
    }

    // Takes the equation at the place out of the tableau; another may come to its place.
    pub fn take(&mut self, place: usize) -> Option<Equation> {
        if place < self.equations.len() {
            Some(self.equations.swap_remove(place))
        } else {
            None
        }
    }

    // Takes the equation at the place out of the tableau, and the variable out of all that is left.
    fn eliminated(&mut self, place: usize, variable: usize) -> Result<Equation, SimplexFault> {
        self.limits.pivots = self
            .limits
            .pivots
            .checked_sub(1)
            .ok_or(SimplexFault::GivenUp)?;
        let mut pivot = self.take(place).ok_or(SimplexFault::GivenUp)?;
        pivot.orient(variable)?;
        pivot.basic = Some(variable);
        self.eliminate(&Pivot::of(&pivot, variable))?;
        Ok(pivot)
    }

    // Takes the pivot's variable out of the equations and the objectives.
    fn eliminate(&mut self, pivot: &Pivot<'_>) -> Result<(), SimplexFault> {
        for equation in self.equations.iter_mut() {
            equation.eliminate(pivot, &mut self.spare, &mut self.counts)?;
        }
        for objective in self.objectives.iter_mut() {
            objective.eliminate(pivot, &mut self.spare, &mut self.counts)?;
        }
        Ok(())
    }
}

// The terms in the order of their variables, each of the first `variables` in one term at most.
fn ordered(
    alloc: Global,
    terms: &[Summand],
    variables: usize,
) -> Result<Vec<Summand>, SimplexFault> {
    if are_ordered(terms, variables) {
        let mut copies = Vec::with_capacity(alloc, terms.len().saturating_add(1))?;
        copies.extend_from_slice(terms)?;
        return Ok(copies);
    }
    let mut sorted = Vec::from_slice(alloc, terms)?;
    sorted.sort_by_key(|term| term.variable)?;
    let mut merged = Vec::<Summand>::with_capacity(alloc, sorted.len())?;
    for term in &sorted {
        if term.variable >= variables {
            return Err(SimplexFault::UnknownVariable);
        }
        match merged.last_mut() {
            Some(last) if last.variable == term.variable => {
                last.coefficient = sum(last.coefficient, term.coefficient)?;
            }
            _ => merged.push(*term)?,
        }
    }
    merged.retain(|term| term.coefficient != 0);
    Ok(merged)
}

// Whether the terms are so already.
fn are_ordered(terms: &[Summand], variables: usize) -> bool {
    let mut least = 0;
    for term in terms {
        if term.variable < least || term.variable >= variables || term.coefficient == 0 {
            return false;
        }
        least = term.variable.saturating_add(1);
    }
    true
}
