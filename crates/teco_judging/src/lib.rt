//! Hosts whose outputs are judged by policies, and what is said of a policy that is broken.
#![tactic(auto)]

mod breaches;
mod judged;

pub use breaches::{Breaking, tell_broken};
pub use judged::Judged;
