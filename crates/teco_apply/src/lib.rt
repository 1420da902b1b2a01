//! Running macros of which a promise is given.
#![tactic(auto)]

mod by_pages;
mod editing;
mod first_page;
mod guard;
mod in_place;
mod ready;
mod run;
mod stages;

pub use by_pages::{Edit, Edited, PAGES, edit_file};
pub use first_page::apply_promised;
pub use guard::{Asked, Guard, Observer, Willing};
pub use in_place::{Rewrite, Rewritten, edit_in_place};
pub use ready::NotReady;
pub use run::{PromisedCall, run_promised};
pub use teco_in_place::{Drops, Ending, Replaces};
pub use teco_options::{NAME, PageChoice};
