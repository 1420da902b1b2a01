//! What is promised of a macro by what a search knows of it: linear programs whose variables are coefficients of
//! facts. Nothing is promised of what is found: it is checked elsewhere.
#![tactic(auto)]

mod invariants;
pub mod known_claims;
mod levels;
mod polynomials;
mod potentials;
pub mod promises;
mod turns;
mod unknowns;
mod wanted;
pub mod ways;
mod worth;
