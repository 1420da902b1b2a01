//! What a macro can change, in a line of words that is read at once.
#![tactic(auto)]

mod class;
mod line;
mod listed;
mod quoted;

pub use line::{NOTHING_TOLD, in_words};
