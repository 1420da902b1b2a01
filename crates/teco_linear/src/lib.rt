//! Linear forms over symbols, with polynomials in N as coefficients; whether an inequality follows
//! from others by given multipliers, and which bound the difference of two symbols. All numbers are
//! whole and of 128 bits: what passes them is refused, never wrapped.
#![tactic(auto)]

mod difference;
mod fault;
mod form;
mod implied;
mod term;
mod terms;

pub use difference::Difference;
pub use fault::LinearFault;
pub use form::{Form, MAX_TERMS};
pub use implied::{Multiplier, is_implied};
pub use term::{MAX_POWER, Scale, Term};
