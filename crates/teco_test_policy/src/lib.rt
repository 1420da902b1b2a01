//! Tests of policies.
#![tactic(auto)]

#[cfg(test)]
mod breaches;
#[cfg(test)]
mod words;
