//! What the elements of a macro can do to a text, told before it runs.
#![tactic(auto)]

mod argument;
mod change;
pub mod laws;

pub use argument::{NumericArgument, Pending, Side, Sign};
pub use change::{Change, Characters, Class, Range, Text};
