//! What the words of the command line ask for, as values.
#![tactic(auto)]

mod choosing;
mod editing;
mod running;

pub use choosing::FileChoice;
pub use editing::{Change, Keeping, Look, NAME, Naming, PageChoice};
pub use running::{LetterCase, Script};
