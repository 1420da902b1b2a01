//! A small text on which a macro fails: the machine itself runs it on some hundred small worlds.
#![tactic(auto)]

mod bench;
mod commands;
mod finding;
mod instances;
mod pieces;
mod sought;
mod texts;
mod trial;
mod witness;

pub use finding::find_witness;
pub use witness::{Setting, SmallWorld, Subject, Witness, WitnessEnd};
