//! Linear programs in exact whole numbers: values that satisfy rows of sums, and that minimise one
//! objective after the other. Nothing rests on how they are found: what is found is checked.
#![tactic(auto)]

mod check;
mod counts;
mod equation;
mod exact;
mod fault;
mod narrow;
mod outline;
mod program;
mod read;
mod simplex;
mod solve;
mod tableau;

pub use fault::SimplexFault;
pub use program::{Assignment, Condition, LinearProgram, Relation, Sign, SolverAnswer, Summand};
