//! Files of the system: inputs that are read ahead, and outputs that are written beside their target
//! and replace it.
#![tactic(auto)]

mod backup;
mod comparing;
mod descriptor;
mod identity;
mod inheritance;
mod links;
mod process;
mod size_limit;
mod source;
mod strays;
mod system;
mod target;
mod trouble;
mod unfinished;

pub use backup::Backup;
pub use identity::Identity;
pub use process::ProcessFacts;
pub use source::ReadFile;
pub use strays::{FolderFiles, SweptFiles, remove_strays};
pub use system::System;
pub use target::folder_of;
pub use trouble::{Purpose, Trouble, TroubleReason, name_to_tell};
pub use unfinished::{Closed, Closing, Ended, Finish, Handling, Unfinished, sync_folder};
