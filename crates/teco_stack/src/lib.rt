//! Stacks that share what lies below: a copy takes no memory.
#![tactic(auto)]

mod stack;

pub use stack::{Chain, SharedStack};
