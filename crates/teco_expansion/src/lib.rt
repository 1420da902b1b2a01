//! The expansion of a library from an entry, as nodes that a checker reads.
#![tactic(auto)]

mod few;
mod gaps;
mod gather;
mod kept;
mod link;
mod names;
mod node;
mod nodes;
mod order;
mod overlap;
mod reading;
mod refusal;
mod same;
mod spot;
mod steps;
mod texts;
mod visit;
mod walk;
mod ways;

pub use gather::expand;
pub use nodes::Nodes;
pub use refusal::{ExpandFault, ExpandReason, PlacedReason};
