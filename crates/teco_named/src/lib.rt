//! Macros that are called by name: they are found in folders, given their texts, and listed.
#![tactic(auto)]

mod called;
mod fault;
mod folders;
mod listing;
mod near;
mod searches;
mod showing;
mod spelling;
mod taking;

pub use called::{CalledMacro, find_macro, is_file};
pub use fault::NamedFault;
pub use folders::MacroFolders;
pub use listing::list_macros;
pub use showing::show_macro;
pub use taking::{BoundTexts, GivenTexts, texts_for_macro};
