//! The registers: 36 pairs of a number and a text, and the push-down list of such pairs.
#![tactic(auto)]

mod fault;
mod pair;
mod regs;

pub use fault::RegFault;
pub use regs::Regs;
