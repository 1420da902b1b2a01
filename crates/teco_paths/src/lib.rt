//! Whether what is claimed at cut points of a macro hangs together, so that each run of it ends in
//! time: paths of cases from cut point to cut point.
#![tactic(auto)]

pub mod claimed;
pub mod coefficients;
pub mod course;
pub mod cut;
pub mod entry;
mod facts;
pub mod fault;
pub mod following;
mod halves;
pub mod laws;
mod light;
pub mod outcomes;
mod possible;
mod room;
pub mod search;
pub mod shapes;
mod sharp;
pub mod spot;
pub mod steps;
pub mod targets;
pub mod translated;
mod used;
pub mod verdict;
