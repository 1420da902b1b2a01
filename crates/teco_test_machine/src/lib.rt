//! Tests of runs and of sessions: what no case of a file can say.
#![tactic(auto)]

#[cfg(test)]
mod files;
#[cfg(test)]
mod first_steps;
#[cfg(test)]
mod heard;
#[cfg(test)]
mod long;
#[cfg(test)]
mod run;
#[cfg(test)]
mod transfers;
#[cfg(test)]
mod trial;
