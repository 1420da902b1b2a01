//! The commands of pages and files, on an editor, what it has open, and a host.
#![tactic(auto)]

mod files;
mod halt;
mod pages;

pub use files::{abandon_output, close_output, copy_all, exit, open_input, open_output};
pub use halt::Halt;
pub use pages::{append, has_unread, look_through, turn_page, write_page, write_range, yank};
