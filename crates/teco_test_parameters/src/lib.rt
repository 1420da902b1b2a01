//! Tests of names and parameters.
#![tactic(auto)]

#[cfg(test)]
mod declared;
#[cfg(test)]
mod given;
#[cfg(test)]
mod named;
