//! The definition of the verifier, in `specs/`, and the plain types that it speaks of. It knows
//! nothing of how a verdict is found.
#![tactic(auto)]

pub mod choices;
pub mod refusal;
pub mod values;

pub use choices::{LongerText, LoopLine};
pub use refusal::RefusalReason;
pub use values::{Distances, Interval, Value};
