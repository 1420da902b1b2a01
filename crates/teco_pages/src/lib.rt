//! The host of the files of the system, and all of hosts and pages.
#![tactic(auto)]

mod ahead;
mod file_host;
mod policy_host;
mod texts;

pub use ahead::InputAhead;
pub use file_host::FileHost;
pub use policy_host::{EditTerms, PolicyHost};
pub use teco_files::{
    Backup, Closed, Closing, FolderFiles, Handling, ProcessFacts, Purpose, System, Trouble,
    TroubleReason, folder_of, remove_strays, sync_folder,
};
pub use teco_hosts::{Count, Failed, Fault, History, Host, HostCall, MemHost, Pages, TestHost};
pub use texts::{Texts, note_input, note_output, note_read, note_written};
