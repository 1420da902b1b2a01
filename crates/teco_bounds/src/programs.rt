//! Linear programs whose variables are coefficients: that sums of them are implied by constraints.
use crate::workspace::{Stop, Workspace};
use std::alloc::Global;
use teco_linear::Form;
use teco_simplex::{
    Assignment, Condition, LinearProgram, Relation, Sign, SimplexFault, SolverAnswer, Summand,
};

// How many rows the pivots of a program may go through.
const WORK: usize = 600_000;

// A number times a variable, or alone, at a symbol, or at none, and a power of N.
#[derive(Clone, Copy)]
pub struct Coefficient {
    pub symbol: Option<u32>,
    pub power: u32,
    pub variable: Option<usize>,
    pub coefficient: i128,
}

impl Coefficient {
    // Entries are grouped by this.
    fn place(&self) -> u64 {
        let symbol = match self.symbol {
            Some(symbol) => u64::from(symbol) + 1,
            None => 0,
        };
        symbol * 256 + u64::from(self.power & 255)
    }
}

// How a form is taken: times a number, a power of N, and a variable, if there is one.
#[derive(Clone, Copy)]
pub struct Multiple {
    pub number: i128,
    pub power: u32,
    pub variable: Option<usize>,
}

impl Multiple {
    // So many times.
    pub fn of(number: i128) -> Multiple {
        Multiple {
            number,
            power: 0,
            variable: None,
        }
    }
}

// Adds a multiple of a form to entries.
pub fn add_form(
    entries: &mut Vec<Coefficient>,
    form: &Form,
    multiple: &Multiple,
    space: &mut Workspace,
) {
    for term in form.terms() {
        let Some(coefficient) = term.coefficient.checked_mul(multiple.number) else {
            space.stop(Stop::TooMuch);
            return;
        };
        let entry = Coefficient {
            symbol: term.symbol,
            power: term.power.saturating_add(multiple.power),
            variable: multiple.variable,
            coefficient,
        };
        space.push(entries, entry);
    }
}

// A program that is being made.
#[derive(Drop)]
pub struct DraftProgram {
    program: LinearProgram,
    pub space: Workspace,
}

impl DraftProgram {
    pub fn new(alloc: Global) -> DraftProgram {
        DraftProgram {
            program: LinearProgram::new(alloc),
            space: Workspace::new(alloc),
        }
    }

    pub fn variable(&mut self, sign: Sign) -> usize {
        let variable = self.program.signs.len();
        self.space.push(&mut self.program.signs, sign);
        variable
    }

    pub fn rows(&self) -> usize {
        self.program.rows.len()
    }

    // That a sum stands so to a number.
    fn add_row(&mut self, terms: Vec<Summand>, relation: Relation, bound: i128) {
        let row = Condition {
            terms,
            relation,
            bound,
        };
        self.space.push(&mut self.program.rows, row);
    }

    // That entries of one symbol and power come to 0, or to no less than 0 where there is no symbol.
    fn add_group(&mut self, group: &[Coefficient]) {
        let mut terms = Vec::new(self.space.alloc);
        let mut bound = 0i128;
        let mut relation = Relation::AtLeast;
        for entry in group {
            if entry.symbol.is_some() {
                relation = Relation::Equal;
            }
            match entry.variable {
                Some(variable) => self.space.push(
                    &mut terms,
                    Summand {
                        variable,
                        coefficient: entry.coefficient,
                    },
                ),
                None => match bound.checked_sub(entry.coefficient) {
                    Some(less) => bound = less,
                    None => self.space.stop(Stop::TooMuch),
                },
            }
        }
        if !terms.is_empty() || bound != 0 {
            self.add_row(terms, relation, bound);
        }
    }

    // Adds the demand of each group of entries, which are sorted.
    fn add_groups(&mut self, entries: &[Coefficient]) {
        let mut first = 0usize;
        for (at, entry) in entries.iter().enumerate() {
            let next = at.saturating_add(1);
            let is_last = match entries.get(next) {
                Some(other) => other.place() != entry.place(),
                None => true,
            };
            if is_last {
                self.add_group(entries.get(first..next).unwrap_or(&[]));
                first = next;
            }
        }
    }

    // That what the entries add up to is implied by constraints, each also times powers of N below a
    // degree.
    pub fn imply(&mut self, entries: &[Coefficient], constraints: &[Form], degree: u32) {
        let mut all = self.space.listed(entries);
        for constraint in constraints {
            for power in 0..degree {
                let multiple = Multiple {
                    number: -1,
                    power,
                    variable: Some(self.variable(Sign::NonNegative)),
                };
                add_form(&mut all, constraint, &multiple, &mut self.space);
            }
        }
        if all.sort_by_key(|entry| entry.place()).is_err() {
            self.space.stop(Stop::Memory);
        }
        self.add_groups(&all);
    }

    // Adds that the sum of variables is to be least, behind what was added before.
    pub fn minimise(&mut self, variables: &[usize]) {
        let mut objective = Vec::new(self.space.alloc);
        for variable in variables {
            self.space.push(
                &mut objective,
                Summand {
                    variable: *variable,
                    coefficient: 1,
                },
            );
        }
        self.space.push(&mut self.program.objectives, objective);
    }

    // Takes it that a variable stands so to a number.
    pub fn bound(&mut self, variable: usize, relation: Relation, bound: i128) {
        let mut terms = Vec::new(self.space.alloc);
        self.space.push(
            &mut terms,
            Summand {
                variable,
                coefficient: 1,
            },
        );
        self.add_row(terms, relation, bound);
    }

    // What was to be least no longer is.
    pub fn let_go(&mut self) {
        self.program.objectives.clear();
    }

    // How many rows its pivots go through, about: as often all as there are rows, if it may.
    pub fn work(&self, pivots: usize) -> usize {
        let rows = self.program.rows.len().saturating_add(1);
        rows.saturating_mul(rows.min(pivots))
    }

    // The values of the variables, if there are some and they are found. A large program may take
    // fewer pivots.
    pub fn solved(&mut self, pivots: usize) -> Option<Assignment> {
        if self.space.is_stopped() {
            return None;
        }
        let rows = self.program.rows.len().saturating_add(1);
        let pivots = pivots.min(WORK.checked_div(rows).unwrap_or(0));
        match self.program.solve(self.space.alloc, pivots) {
            Ok(SolverAnswer::Found(values)) => Some(values),
            Ok(_) => None,
            Err(fault) => {
                if matches!(fault, SimplexFault::Memory) {
                    self.space.stop(Stop::Memory);
                }
                None
            }
        }
    }
}
