//! Certificates: what the verifier has found, as a text that can be checked.
#![tactic(auto)]

mod certificate;
mod fault;
pub mod laws;
pub mod lines;
mod order;
mod printing;
mod reading;

pub use certificate::Certificate;
pub use fault::CertificateFault;
