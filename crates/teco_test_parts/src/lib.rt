//! Tests of the stores of texts, of sources, and of the host of the system's files.
#![tactic(auto)]

#[cfg(test)]
mod buffers;
#[cfg(test)]
mod faulty;
#[cfg(test)]
mod outputs;
#[cfg(test)]
mod scratch;
#[cfg(test)]
mod sources;
#[cfg(test)]
mod stores;
#[cfg(test)]
mod troubles;
