//! Hosts, which have the files outside, and the pages of an input that is read from one.
#![tactic(auto)]

mod ahead;
mod count;
mod fault;
mod history;
mod host;
pub mod laws;
mod mem_host;
mod pages;
mod test_host;
mod write;

pub use count::Count;
pub use fault::{Failed, Fault};
pub use history::History;
pub use host::Host;
pub use mem_host::MemHost;
pub use pages::Pages;
pub use test_host::{HostCall, TestHost};
