//! Examples and policies in the comments of libraries, tried: a text, and what a macro makes of it.
#![tactic(auto)]

mod fuzzing;
mod keeping;
mod report;
mod running;
mod testing;

pub use fuzzing::fuzz_macro;
pub use testing::{Tests, test_examples, test_notes};
