//! The laws of runs: a run of a macro stands at the nodes of its expansion, and goes along their ways;
//! each step keeps what always holds; and a run has one end.
#![tactic(auto)]

pub mod laws;
