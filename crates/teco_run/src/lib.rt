//! The command machine: it runs command strings on the text of a store.
#![tactic(auto)]

mod arguments;
mod at_once;
mod begun;
mod body;
mod call;
mod course;
mod desk;
mod execution;
mod file;
mod flow;
mod frames;
pub mod laws;
mod machine;
mod macros;
mod miss;
mod obey;
mod pace;
mod page;
mod pending;
mod perform;
mod search;
mod site;
mod way;

pub use execution::{Execution, Progress};
pub use machine::Machine;
pub use site::{Site, Stopped};
pub use teco_model::{HostFault, Stop};
