//! What stays of the command machine between two runs, and what each command does to it that is no
//! flow, file or macro command; searches in the buffer among them.
#![tactic(auto)]

mod conversion;
mod deletion;
mod editor;
mod finding;
mod insertion;
mod motion;
mod pages;
mod places;
mod query;
mod screen;
mod searching;
mod storage;
mod stuck;
mod turning;
mod typing;

pub use editor::Editor;
pub use query::Reply;
pub use searching::{Finding, Wanted, look, search};
pub use stuck::Stuck;
