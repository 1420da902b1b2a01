//! A host of files and, under names of their own, of the standard streams.
#![tactic(auto)]

mod streams;

pub use streams::{INPUT, OUTPUT, Streams, told_name};
