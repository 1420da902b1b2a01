//! What elements that answer with a value, and `[` and `]`, do to states that are known by linear forms.
#![tactic(auto)]

pub mod characters;
pub mod conversions;
pub mod pushes;
pub mod queries;
pub mod values;
mod ways;
