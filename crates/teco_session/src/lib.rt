//! Sessions: command strings from a reader are run one after another, and what they type is
//! written.
#![tactic(auto)]

mod ahead;
mod fault;
mod listener;
mod output;
mod sessions;
mod strings;

pub use ahead::CHUNK;
pub use fault::SessionFault;
pub use listener::{Listener, Silent};
pub use sessions::{Conduct, Done, STRINGS, session, session_heard, session_max, write_stop};
pub use teco_model::Limits;
