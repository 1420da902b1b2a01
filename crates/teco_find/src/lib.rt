//! Search texts, and where they are found.
#![tactic(auto)]

mod anchor;
mod classes;
mod fault;
mod find;
mod items;
mod last_pattern;
mod mark;
mod named;
mod needle;
mod parts;
mod pattern;
mod pieces;
mod read;
mod rests;

pub use fault::FindFault;
pub use last_pattern::LastPattern;
pub use pattern::{Pattern, minimum};
