//! Macros that are accepted, however that was found, and why others are refused.
#![tactic(auto)]

mod acceptance;
mod blame;
mod changing;
mod claim;
mod claims;
mod damage;
mod failing;
mod failure_words;
mod known;
mod library;
mod mending;
mod reasoning;
mod refusing;
mod unaccepted;
mod verdict;

pub use acceptance::{Accepted, verified_by};
pub use blame::{Held, tell_no_text, tell_premise, tell_promise, warn_no_text};
pub use changing::changes_in_words;
pub use claim::{ClaimedCertificate, accepted, read_claim};
pub use claims::{accepted_by_claims, refusal_of, refusal_of_text, register_at};
pub use damage::{MENDING, is_whole};
pub use failing::{Unclaimed, claimed_by};
pub use failure_words::words_of_witness;
pub use known::{words_of, words_of_choice};
pub use library::{
    AcceptedMacro, ReadFor, Setup, UnacceptedMacro, explained, library_of, read_library,
    read_library_for,
};
pub use reasoning::{RefusedMacro, reason_of};
pub use refusing::{
    other_edition, refuse, refuse_claim, refuse_known, refuse_macro, tell_other_edition,
};
pub use unaccepted::Unaccepted;
pub use verdict::Verdict;
