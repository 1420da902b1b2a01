//! Certificates of the linear rules: what is claimed of a macro, as a text, and macros of which that was
//! checked.
#![tactic(auto)]

mod certificate;
mod check;
mod checksum;
mod claimed;
pub mod laws;
mod reading;
mod refusal;
mod unverified;
mod verify;

pub use certificate::LinearCertificate;
pub use check::check_linear;
pub use claimed::Claimed;
pub use refusal::{LinearRefusal, NodePlace};
pub use unverified::{Unshown, Unverified};
pub use verify::{verify_further, verify_linear, verify_quickly};
