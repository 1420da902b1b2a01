//! Which policies follow from what the elements of a macro can do to a text.
#![tactic(auto)]

mod facts;
mod following;
mod gathered;
pub mod laws;
mod manner;
mod modes;
mod pieces;
mod simple;
mod single;
mod sought;

pub use facts::Facts;
pub use following::{always_keep, ends_within_line, keeps_others, leaves_others};
pub use manner::{Manner, is_each};
pub use pieces::begins_more;
