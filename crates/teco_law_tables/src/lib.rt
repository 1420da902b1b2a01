//! The laws of tables: a macro with a closed one ends in time and without a code; and straight text
//! has one.
#![tactic(auto)]

pub mod laws;
pub mod straight;
