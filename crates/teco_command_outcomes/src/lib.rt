//! What deletions, and commands on lines, registers and typed text, do to states that are known by linear
//! forms.
#![tactic(auto)]

pub mod deletions;
pub mod line_motions;
pub mod storages;
pub mod texts;
pub mod typings;
