//! Where the program reads and writes, and what sources, requests and words are.
#![tactic(auto)]

mod console;
mod dollars;
mod fault;
mod files;
mod forms;
mod given;
mod linting;
mod method;
mod naming;
mod outcome;
mod premise;
mod reading;
mod request;
mod searches;
mod setting;
mod showing;
mod sourced;
mod stated_words;
mod stating;

pub use console::{Console, Means, Voice, write_bytes};
pub use dollars::tell_dollars;
pub use fault::{AnswerFault, written};
pub use files::{STREAM, Shelf, read_file};
pub use forms::{Escape, form_of, form_of_word, is_readable};
pub use linting::{SearchDoubts, lint};
pub use method::{Edition, Method, method_for};
pub use naming::{element_at, letters};
pub use outcome::Outcome;
pub use premise::{Grouped, KnownNumber, Premise};
pub use reading::{ReadLibrary, read_source};
pub use request::{Origin, Request};
pub use searches::filled;
pub use setting::Setting;
pub use showing::{explain, explain_all, show, show_source, tell_near};
pub use sourced::{NAMES, Sourced, macro_named};
pub use stated_words::explain_as_json;
pub use stating::{Stated, all_stated};
