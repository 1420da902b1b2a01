//! Files that are edited in place: a host gives a new text the name of its file.
#![tactic(auto)]

mod in_place;
pub mod laws;

pub use in_place::{Drops, Ending, InPlace, Replaces, new_text_of};
