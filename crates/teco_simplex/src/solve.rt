//! From a program to its answer.
ghost use Rattle.std.specs.Prelude.{IfOk};
ghost use Rattle.teco_simplex.specs.Satisfaction.{IsSatisfying};

use crate::counts::count_more;
use crate::equation::{Equation, Pivot};
use crate::exact::{difference, sum};
use crate::fault::SimplexFault;
use crate::program::{LinearProgram, SolverAnswer, Summand};
use crate::simplex::End;
use crate::tableau::{Column, PivotLimits, Tableau};
use std::alloc::Global;

// Behind so many pivots in a row that change no value the search is slow, and maybe in a cycle.
pub const PATIENCE: usize = 1000;

impl LinearProgram {
    /// Looks for values that satisfy the rows and are least, by at most so many pivots. Pivots that take the free
    /// variables out and that prepare equations count too.
    ///
    /// The same program has the same answer each time. Values that are found satisfy the program; that they are
    /// least, and the answers `Infeasible` and `Unbounded`, are not checked.
    ///
    /// # Errors
    ///
    /// `GivenUp` at the limit, `TooLarge` where a number leaves 128 bits, `UnknownVariable` for a term that names no
    /// variable, and `Memory`.
    pub fn solve(&self, alloc: Global, pivots: usize) -> Result<SolverAnswer, SimplexFault>
        ensures { IfOk result (λ answer. IsSatisfying self.now answer) }
    {
        self.solve_within(
            alloc,
            PivotLimits {
                pivots,
                patience: PATIENCE,
            },
        )
    }

    pub(crate) fn solve_within(
        &self,
        alloc: Global,
        limits: PivotLimits,
    ) -> Result<SolverAnswer, SimplexFault>
        ensures { IfOk result (λ answer. IsSatisfying self.now answer) }
    {
        let mut tableau = Tableau::of(self, alloc, limits)?;
        tableau.answer(self)
    }
}

impl Tableau {
    // The answer of the program that it is the tableau of.
    fn answer(&mut self, program: &LinearProgram) -> Result<SolverAnswer, SimplexFault>
        ensures { IfOk result (λ answer. IsSatisfying program.now answer) }
    {
        self.prepare()?;
        if !self.make_feasible()? {
            return Ok(SolverAnswer::Infeasible);
        }
        if self.minimise_all()? == End::Unbounded {
            return Ok(SolverAnswer::Unbounded);
        }
        let values = self.values(program.signs.len())?;
        if program.is_satisfied_by(&values) {
            Ok(SolverAnswer::Found(values))
        } else {
            Err(SimplexFault::TooLarge)
        }
    }

    // Takes the free variables out, and gives equations basic variables as far as that is free.
    fn prepare(&mut self) -> Result<(), SimplexFault> {
        self.define_free()?;
        self.bar_zeros();
        self.choose_slacks()?;
        self.settle()
    }

    // Takes each free variable that is in an equation out, by the shortest one.
    fn define_free(&mut self) -> Result<(), SimplexFault> {
        for variable in 0..self.columns.len() {
            if self.column(variable) == Column::Free
                && let Some(place) = self.shortest(variable)
            {
                self.define(place, variable)?;
            }
        }
        Ok(())
    }

    fn shortest(&self, variable: usize) -> Option<usize> {
        let mut found = None;
        let mut least = usize::MAX;
        for (place, equation) in self.equations.iter().enumerate() {
            let length = equation.terms.len();
            if length < least && equation.coefficient(variable) != 0 {
                least = length;
                found = Some(place);
            }
        }
        found
    }

    // Makes each constant at least 0, and a slack basic where its sign allows it.
    fn choose_slacks(&mut self) -> Result<(), SimplexFault> {
        let counts = self.counted()?;
        for equation in self.equations.iter_mut() {
            if equation.constant < 0 {
                equation.negate()?;
            }
            equation.basic = lone(equation, &counts);
            if let Some(variable) = equation.basic {
                equation.orient(variable)?;
            }
        }
        Ok(())
    }

    // In how many equations and objectives each variable is.
    pub fn counted(&self) -> Result<Vec<usize>, SimplexFault> {
        let mut counts = Vec::from_elem(self.alloc, 0usize, self.columns.len())?;
        for equation in self.equations.iter().chain(&self.objectives) {
            for term in &equation.terms {
                count_more(&mut counts, term.variable);
            }
        }
        Ok(counts)
    }

    // Gives each equation with the constant 0 a basic variable, and drops those that say 0 = 0.
    fn settle(&mut self) -> Result<(), SimplexFault> {
        self.counts = self.counted()?;
        for _ in 0..self.equations.len() {
            let Some(place) = self.unsettled() else {
                break;
            };
            match self.rarest(place) {
                Some(variable) => self.pivot(place, variable)?,
                None => drop(self.take(place)),
            }
        }
        self.counts.clear();
        Ok(())
    }

    // The variable of the equation at the place that is in the fewest equations, before others one
    // with a coefficient of 1 or -1.
    fn rarest(&self, place: usize) -> Option<usize> {
        let mut found = None;
        let mut least = (true, usize::MAX);
        for term in &self.equations.get(place)?.terms {
            let is_unit = term.coefficient == 1 || term.coefficient == -1;
            let cost = (!is_unit, self.count(term.variable));
            if found.is_none() || cost < least {
                least = cost;
                found = Some(term.variable);
            }
        }
        found
    }

    // The shortest equation with the constant 0 and no basic variable.
    fn unsettled(&self) -> Option<usize> {
        let mut found = None;
        let mut least = usize::MAX;
        for (place, equation) in self.equations.iter().enumerate() {
            let length = equation.terms.len();
            if equation.basic.is_none() && equation.constant == 0 && length < least {
                least = length;
                found = Some(place);
            }
        }
        found
    }

    // The first phase: brings the constants of the equations with no basic variable to 0. Says
    // whether that can be.
    fn make_feasible(&mut self) -> Result<bool, SimplexFault> {
        if self.is_feasible() {
            return Ok(true);
        }
        let objectives = std::mem::replace(&mut self.objectives, Vec::new(self.alloc));
        let is_feasible = self.lower_infeasibility();
        self.objectives = objectives;
        if !is_feasible? {
            return Ok(false);
        }
        self.free_objectives()?;
        self.settle()?;
        Ok(true)
    }

    // Brings what is missing to its least value, in the place of the objectives. Says whether nothing is missing then.
    fn lower_infeasibility(&mut self) -> Result<bool, SimplexFault> {
        let infeasibility = self.infeasibility()?;
        self.objectives.push(infeasibility)?;
        let _ = self.minimise(0)?;
        Ok(self.is_feasible())
    }

    // Takes the basic variables out of the objectives.
    fn free_objectives(&mut self) -> Result<(), SimplexFault> {
        for equation in &self.equations {
            if let Some(basic) = equation.basic {
                let by = Pivot::of(equation, basic);
                for objective in self.objectives.iter_mut() {
                    objective.eliminate(&by, &mut self.spare, &mut self.counts)?;
                }
            }
        }
        Ok(())
    }

    // Brings the objectives to their least values, one after the other. Those that wait are not changed
    // by pivots.
    fn minimise_all(&mut self) -> Result<End, SimplexFault> {
        let waiting = std::mem::replace(&mut self.objectives, Vec::new(self.alloc));
        for objective in waiting {
            let mut objective = objective;
            objective.terms.retain(|term| {
                self.columns.get(term.variable) != Some(&Column::Barred)
            });
            self.objectives.push(objective)?;
            self.free_objectives()?;
            if self.minimise(0)? == End::Unbounded {
                return Ok(End::Unbounded);
            }
            self.keep_least(0);
            self.objectives.clear();
            self.drop_barred();
        }
        Ok(End::Least)
    }

    // Bars the variables that equations with the constant 0 keep at 0, as long as there are more.
    fn bar_zeros(&mut self) {
        for _ in 0..self.equations.len() {
            let mut is_more = false;
            for equation in &self.equations {
                if equation.is_sum_of_zeros() {
                    for term in &equation.terms {
                        if let Some(column) = self.columns.get_mut(term.variable) {
                            *column = Column::Barred;
                            is_more = true;
                        }
                    }
                }
            }
            if !is_more {
                return;
            }
            self.drop_barred();
        }
    }

    // Takes the variables that stay at 0 out of the equations.
    fn drop_barred(&mut self) {
        for equation in self.equations.iter_mut() {
            equation.terms.retain(|term| {
                self.columns.get(term.variable) != Some(&Column::Barred)
            });
        }
    }

    fn is_feasible(&self) -> bool {
        self.equations.iter().all(|equation| equation.basic.is_some() || equation.constant == 0)
    }

    // What is missing in the equations with no basic variable, as an objective.
    fn infeasibility(&self) -> Result<Equation, SimplexFault> {
        let mut coefficients = Vec::from_elem(self.alloc, 0i128, self.columns.len())?;
        for equation in &self.equations {
            if equation.basic.is_some() {
                continue;
            }
            for term in &equation.terms {
                if let Some(coefficient) = coefficients.get_mut(term.variable) {
                    *coefficient = difference(*coefficient, term.coefficient)?;
                }
            }
        }
        let mut terms = Vec::new(self.alloc);
        for (variable, coefficient) in coefficients.iter().enumerate() {
            if *coefficient != 0 {
                terms.push(Summand {
                    variable,
                    coefficient: *coefficient,
                })?;
            }
        }
        Ok(Equation::new(terms, 0))
    }
}

// A variable of this equation alone, whose coefficient has the sign of the constant.
fn lone(equation: &Equation, counts: &[usize]) -> Option<usize> {
    equation
        .terms
        .iter()
        .find(|term| {
            counts.get(term.variable) == Some(&1)
                && (term.coefficient > 0 || equation.constant == 0)
        })
        .map(|term| term.variable)
}
