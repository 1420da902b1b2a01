//! Pending arguments: values, operators, commas and parentheses, taken from left to right.
#![tactic(auto)]

mod args;
mod level;

pub use args::{ArgFault, Args};
