//! Polynomials in N of degree at most 8, with coefficients of 64 bits: by them the verifier bounds
//! sizes and steps.
#![tactic(auto)]

mod coefficients;
pub mod laws;
mod poly;
pub mod reading;
mod text;

pub use poly::Poly;
pub use text::number_at;
