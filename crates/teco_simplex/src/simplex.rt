//! The simplex method: pivots that lower an objective while all constants stay at least 0.
use crate::equation::Equation;
use crate::exact::product;
use crate::fault::SimplexFault;
use crate::tableau::{Column, Tableau};

// Which of several pivots is taken.
#[derive(Clone, Copy)]
pub enum Rule {
    // The entering variable that is in the fewest equations, and the shortest equation.
    Rarest,
    // The first variables.
    Bland,
}

// Where an objective ends.
#[derive(Clone, Copy)]
pub enum End {
    Least,
    Unbounded,
}

// An equation whose basic variable may leave, and by what it is compared.
#[derive(Clone, Copy)]
struct Leaving {
    place: usize,
    coefficient: i128,
    constant: i128,
    length: usize,
    basic: Option<usize>,
}

impl Leaving {
    fn of(place: usize, equation: &Equation, coefficient: i128) -> Leaving {
        Leaving {
            place,
            coefficient,
            constant: equation.constant,
            length: equation.terms.len(),
            basic: equation.basic,
        }
    }

    // The ratio of constant and coefficient decides, then the rule.
    fn is_before(&self, other: &Leaving, rule: Rule) -> Result<bool, SimplexFault> {
        let own = product(self.constant, other.coefficient)?;
        let others = product(other.constant, self.coefficient)?;
        if own != others {
            return Ok(own < others);
        }
        let is_first = self.basic < other.basic;
        Ok(match rule {
            Rule::Rarest if self.length != other.length => self.length < other.length,
            _ => is_first,
        })
    }
}

impl Tableau {
    // Brings the objective at the place to its least value.
    pub fn minimise(&mut self, objective: usize) -> Result<End, SimplexFault> {
        self.counts = self.counted()?;
        let end = self.descend(objective);
        self.counts.clear();
        end
    }

    fn descend(&mut self, objective: usize) -> Result<End, SimplexFault> {
        let mut stalled = 0usize;
        for _ in 0..self.limits.pivots.saturating_add(1) {
            let rule = if stalled < self.limits.patience {
                Rule::Rarest
            } else {
                Rule::Bland
            };
            let Some(variable) = self.entering(objective, rule) else {
                return Ok(End::Least);
            };
            let Some(leaving) = self.leaving(variable, rule)? else {
                return Ok(End::Unbounded);
            };
            stalled = if leaving.constant == 0 {
                stalled.saturating_add(1)
            } else {
                0
            };
            self.pivot(leaving.place, variable)?;
        }
        Err(SimplexFault::GivenUp)
    }

    // A variable whose growth lowers the objective.
    fn entering(&self, objective: usize, rule: Rule) -> Option<usize> {
        let mut found = None;
        let mut least = usize::MAX;
        for term in &self.objectives.get(objective)?.terms {
            let lowers = match self.column(term.variable) {
                Column::Usable => term.coefficient < 0,
                Column::Free => true,
                Column::Barred => false,
            };
            let count = self.count(term.variable);
            if lowers && count <= least {
                least = count;
                found = Some(term.variable);
                if rule == Rule::Bland {
                    break;
                }
            }
        }
        found
    }

    // The equation that first stops the variable's growth.
    fn leaving(&self, variable: usize, rule: Rule) -> Result<Option<Leaving>, SimplexFault> {
        let mut first: Option<Leaving> = None;
        for (place, equation) in self.equations.iter().enumerate() {
            let coefficient = equation.coefficient(variable);
            if coefficient <= 0 {
                continue;
            }
            let candidate = Leaving::of(place, equation, coefficient);
            let is_first = match &first {
                Some(leaving) => candidate.is_before(leaving, rule)?,
                None => true,
            };
            if is_first {
                first = Some(candidate);
            }
        }
        Ok(first)
    }

    // Keeps the objective at its least value: what would raise it stays at 0.
    pub fn keep_least(&mut self, objective: usize) {
        let Some(equation) = self.objectives.get(objective) else {
            return;
        };
        for term in &equation.terms {
            if term.coefficient > 0
                && let Some(column) = self.columns.get_mut(term.variable)
            {
                *column = Column::Barred;
            }
        }
    }
}
