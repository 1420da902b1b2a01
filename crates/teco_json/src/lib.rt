//! Objects of JSON, by which programs read what was done.
#![tactic(auto)]

mod members;
mod quoted;

pub use members::{Member, Value, object};
pub use quoted::push_quoted;
