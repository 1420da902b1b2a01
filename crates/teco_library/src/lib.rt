//! Library files: TECO text that gives texts to registers, and nothing else but that a comment at
//! its front may declare the argument of a register.
#![tactic(auto)]

mod fault;
mod header;
mod library;
mod reading;

pub use fault::LibraryFault;
pub use library::Library;
