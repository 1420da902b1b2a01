//! What `apply`, `edit` and `trace` do by a macro of a library: it is accepted first, and then run on files.
#![tactic(auto)]

mod applying;
mod asking;
mod editing;
mod keeping;
mod subject;
mod tracing;

pub use applying::{Errand, apply_macro};
pub use editing::edit_files;
pub use tracing::trace_macro;
