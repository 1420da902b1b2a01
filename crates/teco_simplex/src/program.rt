//! Programs and their answers.
ghost use Rattle.std.specs.Prelude.{◌≡◌, [], ◌∷◌, ◌++◌, length, IfOk, OnOk, OnErr};

use crate::fault::SimplexFault;
use std::alloc::Global;

/// Which values a variable may take.
#[derive(Clone, Copy)]
pub enum Sign {
    /// The variable is at least 0.
    NonNegative,
    /// The variable may take any value.
    Free,
}

/// How a row's sum stands to its bound.
#[derive(Clone, Copy)]
pub enum Relation {
    /// The sum is the bound.
    Equal,
    /// The sum is the bound or more.
    AtLeast,
    /// The sum is the bound or less.
    AtMost,
}

/// A coefficient times a variable, which is named by its place among the program's variables.
#[derive(Clone, Copy)]
pub struct Summand {
    /// The variable's place, from 0.
    pub variable: usize,
    /// Any whole number, also 0.
    pub coefficient: i128,
}

/// A condition: the sum of the terms stands in the relation to the bound. A variable may come in
/// several terms.
#[derive(Drop)]
pub struct Condition {
    /// The sum's terms, in any order.
    pub terms: Vec<Summand>,
    /// How the sum stands to the bound.
    pub relation: Relation,
    /// What the sum is compared with.
    pub bound: i128,
}

/// A linear program. The objectives are to be minimised in order: each one among the values that are
/// least for those before it.
#[derive(Drop)]
pub struct LinearProgram {
    /// One for each variable.
    pub signs: Vec<Sign>,
    /// The conditions.
    pub rows: Vec<Condition>,
    /// The sums to be minimised, the one that matters most first.
    pub objectives: Vec<Vec<Summand>>,
}

/// A value for each variable: its numerator over the one denominator, which is above 0.
#[derive(Drop)]
pub struct Assignment {
    /// The least number, above 0, that makes all numerators whole.
    pub denominator: i128,
    /// One for each variable, in order.
    pub numerators: Vec<i128>,
}

/// What the search says of a program. Of the three only `Found` is checked.
#[derive(Drop)]
pub enum SolverAnswer {
    /// Values that satisfy all rows.
    Found(Assignment),
    /// No values satisfy all rows.
    Infeasible,
    /// An objective has no least value.
    Unbounded,
}

impl LinearProgram {
    /// A program with no variable.
    pub fn new(alloc: Global) -> LinearProgram
        ensures signs { result.signs.items ≡ [] }
        ensures rows { result.rows.items ≡ [] }
        ensures objectives { result.objectives.items ≡ [] }
    {
        LinearProgram {
            signs: Vec::new(alloc),
            rows: Vec::new(alloc),
            objectives: Vec::new(alloc),
        }
    }

    /// Adds a variable, and gives its place. The only error is `Memory`, here and below.
    pub fn add_variable(&mut self, sign: Sign) -> Result<usize, SimplexFault>
        ensures place { IfOk result (λ place. place ≡ length self.old.signs.items) }
        ensures ok { OnOk result (self.new.signs.items ≡ self.old.signs.items ++ sign ∷ []) }
        ensures err { OnErr result (self.new.signs.items ≡ self.old.signs.items) }
        ensures kept { (self.new.rows ≡ self.old.rows) × (self.new.objectives ≡ self.old.objectives) }
    {
        let place = self.signs.len();
        self.signs.push(sign)?;
        Ok(place)
    }

    /// Adds a condition.
    pub fn add_row(&mut self, row: Condition) -> Result<(), SimplexFault>
        ensures ok { OnOk result (self.new.rows.items ≡ self.old.rows.items ++ row ∷ []) }
        ensures err { OnErr result (self.new.rows.items ≡ self.old.rows.items) }
        ensures kept { (self.new.signs ≡ self.old.signs) × (self.new.objectives ≡ self.old.objectives) }
    {
        self.rows.push(row)?;
        Ok(())
    }

    /// Adds an objective, which matters less than those before it.
    pub fn add_objective(&mut self, objective: Vec<Summand>) -> Result<(), SimplexFault>
        ensures ok { OnOk result (self.new.objectives.items ≡ self.old.objectives.items ++ objective ∷ []) }
        ensures err { OnErr result (self.new.objectives.items ≡ self.old.objectives.items) }
        ensures kept { (self.new.signs ≡ self.old.signs) × (self.new.rows ≡ self.old.rows) }
    {
        self.objectives.push(objective)?;
        Ok(())
    }
}
