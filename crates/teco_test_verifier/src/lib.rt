//! Tests of the verifier's crates, and of edits by verified macros.
#![tactic(auto)]

#[cfg(test)]
mod edits;
#[cfg(test)]
mod expansions;
#[cfg(test)]
mod first_steps;
#[cfg(test)]
mod stacks;
#[cfg(test)]
mod subjects;
