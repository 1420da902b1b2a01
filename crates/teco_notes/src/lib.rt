//! What comments of libraries say of macros: examples, policies, and texts that they take.
#![tactic(auto)]

mod asked;
mod example;
mod finding;
mod keeps;
mod naming;
mod site;

pub use asked::{AskingFault, policies_of};
pub use example::Example;
pub use finding::{FoundNote, Note, element_at, notes_of, prototype_of};
pub use keeps::{NoPolicy, NoTakes};
pub use site::NoteSite;
