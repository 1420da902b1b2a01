//! Laws of edits.
#![tactic(auto)]

pub mod laws;
