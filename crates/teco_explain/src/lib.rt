//! What codes and refusals mean, for people: in a few words, with an example, and how to mend what
//! causes them.
#![tactic(auto)]

mod around;
mod codes;
mod commands;
mod explained;
mod faults;
mod hints;
mod leaving;
mod near;
mod note;
mod outline;
mod partners;
mod places;
mod plain;
mod refusals;
mod slips;

pub use codes::{CODES, code_named, note_of_code};
pub use commands::{CardRow, SECTIONS, Section, command_named};
pub use explained::Explained;
pub use near::near_words;
pub use note::Explanation;
pub use outline::Outline;
pub use places::{place_in, position_in, text_begin_in};
pub use plain::is_plain;
pub use refusals::{REFUSALS, note_of_refusal, number_of, refusal_numbered};
pub use slips::{Modes, Slips};
