//! What motions and insertions do to states that are known by linear forms, and rows that change what is
//! kept and no more.
#![tactic(auto)]

pub mod changes;
pub mod insertions;
pub mod motions;
