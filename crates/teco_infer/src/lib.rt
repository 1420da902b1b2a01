//! The search for claims of the linear rules: what is found is checked by `check_claimed`, and
//! nothing is promised of what is not found.
#![tactic(auto)]

mod infer;
mod reason;
mod written;

pub use infer::Inference;
