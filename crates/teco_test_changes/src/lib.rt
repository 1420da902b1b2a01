//! Tests of changes.
#![tactic(auto)]

#[cfg(test)]
mod following;
#[cfg(test)]
mod told;
#[cfg(test)]
mod words;
