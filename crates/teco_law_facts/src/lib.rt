//! The laws that what the verifier knows holds of the command machine.
#![tactic(auto)]

pub mod laws;
pub mod sound;
