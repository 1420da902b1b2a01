//! Laws of what a run changes.
#![tactic(auto)]

pub mod laws;
