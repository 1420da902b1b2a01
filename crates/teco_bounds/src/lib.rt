//! What a search for claims knows: bounds on the differences of measures, the keys and the paths between them, and
//! linear programs on these. Nothing is promised of it: what is found by it is checked elsewhere.
#![tactic(auto)]

pub mod bounds;
pub mod constraints;
pub mod forms;
pub mod keys;
pub mod measures;
pub mod numbers;
pub mod programs;
pub mod record;
pub mod reduced;
pub mod units;
pub mod web;
pub mod workspace;
