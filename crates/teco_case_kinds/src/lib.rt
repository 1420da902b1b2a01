//! Kinds of cases that need no verdict, and the parts of which each kind is made.
#![tactic(auto)]

pub mod case_file;
pub mod claims;
pub mod editing;
pub mod fault;
pub mod findings;
mod folder;
pub mod formats;
pub mod implications;
pub mod outcomes;
pub mod paths;
mod phrase;
mod pieces;
pub mod programs;
mod running;
pub mod sessions;
pub mod settings;
mod spelling;
pub mod subject;
mod sums;
