//! Runs of a macro on files, by what is promised of it: edits on terms, and lists of steps.
#![tactic(auto)]

mod bound;
mod following;
mod in_memory;
mod jobs;
pub mod laws;
mod names;
mod opening;
mod tracing;
mod watching;

pub use in_memory::{Came, TextCall, run_on_text};
pub use jobs::{CountsForm, Job, OneWork, Replaced, Task, Watched, Work, edit_by, rewrite_by};
pub use names::Names;
pub use tracing::{Listing, TracedMacro, trace_library};
pub use watching::Seen;
