//! The elements of a command string or macro, read from its bytes.
#![tactic(auto)]

mod ahead;
mod blanks;
mod form;
mod letters;
mod reader;
mod readings;
mod skips;
mod texts;

pub use ahead::{Reading, read_ahead};
pub use blanks::blank_end;
pub use form::texts_of;
pub use reader::element;
pub use readings::Readings;
pub use skips::{bracket, route_of, skip};
pub use teco_model::{Element, Skip};
