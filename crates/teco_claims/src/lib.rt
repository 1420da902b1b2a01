//! Claims: what a certificate of the linear rules says of a macro at its cut points, and the text of
//! it, which has one spelling.
#![tactic(auto)]

mod claims;
mod fault;
mod printing;
mod reading;
mod spelled;
mod term;

pub use claims::{Claim, Claims, Cut};
pub use fault::ClaimsFault;
pub use term::{ClaimMeasure, ClaimSingle, ClaimTerm, Fraction, MAX_POWER, MAX_TERMS};
