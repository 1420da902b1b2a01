//! What `edit` does beside the runs of a macro: which files are edited, what differs in their texts,
//! and what is said of them.
#![tactic(auto)]

mod backups;
mod choosing;
mod diff;
mod folders;
mod lines;
mod pattern;
mod progress;
mod typed;

pub use backups::taken_backup;
pub use choosing::{ChosenFile, choose};
pub use diff::{changed_lines, is_binary, write_diff};
pub use folders::Folders;
pub use pattern::matches;
pub use progress::{EditProgress, FilesDone};
pub use typed::{named_lines, without_code};
