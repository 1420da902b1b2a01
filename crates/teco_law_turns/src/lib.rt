//! Every run over a closed table takes at most the number of steps that is printed of it:
//! definitions and laws, without any command of TECO.
#![tactic(auto)]

pub mod laws;
