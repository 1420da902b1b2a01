//! Edits of files in place, by what is promised of a macro.
#![tactic(auto)]

mod editing;
mod object;
mod outcome;

pub use editing::{InPlaceEdits, edit_by_job};
pub use outcome::EditOutcome;
