//! A text with a pointer: what every store of a text promises, a store in one vector, a store in
//! one block with a gap, where an edit costs its own characters and the way from the last one, and
//! line places.
#![tactic(auto)]

mod block;
mod fault;
mod gap_text;
mod lines;
mod moves;
mod parts;
mod store;
mod vec_text;

pub use fault::TextFault;
pub use gap_text::GapText;
pub use lines::line_place;
pub use parts::pieces;
pub use store::TextStore;
pub use vec_text::VecText;
