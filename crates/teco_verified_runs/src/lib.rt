//! Running macros that have a closed table: the calls of the promised ones, by what was verified.
#![tactic(auto)]

mod first_page;
mod run;

pub use first_page::apply;
pub use run::{run_verified, run_verified_with};
