//! What the verifier says of a macro of a library: a bound on its commands, or a refusal.
#![tactic(auto)]

mod account;
mod asked;
mod attempt;
mod certifying;
mod course;
mod known;
mod meeting;
mod memo;
mod named;
mod pending;
mod refusal;
mod search;
mod unfit;
mod verdict;
mod verified;
mod watching;

pub use account::{Account, account_of};
pub use known::Known;
pub use refusal::Refusal;
pub use teco_facts::Choice;
pub use teco_library::Library;
pub use teco_model::Needs;
pub use verdict::{check_certificate, verify};
pub use verified::Verified;
