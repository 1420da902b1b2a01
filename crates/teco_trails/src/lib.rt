//! The paths of a macro between its cut points, and what is known at these. Nothing is promised of it: what is found
//! by it is checked elsewhere.
#![tactic(auto)]

pub mod cuts;
pub mod fault;
mod keys;
pub mod legs;
mod notes;
pub mod pushes;
pub mod rounds;
pub mod search;
pub mod spoken;
mod steps;
mod trail;
