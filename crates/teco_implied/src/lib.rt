//! What the constraints of a case imply: multipliers that show it are sought, and checked.
#![tactic(auto)]

mod chains;
mod fault;
mod implied;
mod kinds;
mod multipliers;
mod points;
mod relevant;
mod shifted;
mod useful;

pub use fault::ImpliedFault;
pub use implied::{are_met, is_impossible, is_so, is_so_nearby};
