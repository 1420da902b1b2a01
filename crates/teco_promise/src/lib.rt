//! What was proved of a macro, however it was found: who runs it asks for no more.
#![tactic(auto)]

mod promise;

pub use promise::{Promise, Statement};
