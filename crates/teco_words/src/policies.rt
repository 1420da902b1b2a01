//! What the edit of a file must not do, as words say it.
use crate::fault::WordsFault;
use clap::ArgMatches;
use std::alloc::Global;
use teco_policy::{Policy, PolicyOption};

// Reads the words behind an option.
fn read_each(
    alloc: Global,
    policies: &mut Vec<Policy>,
    option: PolicyOption,
    words: &[&str],
    exact: bool,
) -> Result<(), WordsFault> {
    for word in words {
        policies.push(Policy::read(alloc, option, word.as_bytes(), exact)?)?;
    }
    Ok(())
}

/// What the edit of a file must not do. Searches are in the mode of the edit.
pub fn policies_of(alloc: Global, words: &ArgMatches<'_>) -> Result<Vec<Policy>, WordsFault> {
    let exact = words.get_flag("exact");
    let keep = words.get_strs("keep").unwrap_or(&[]);
    let add = words.get_strs("add").unwrap_or(&[]);
    let take = words.get_strs("take").unwrap_or(&[]);
    let most = words.get_strs("most").unwrap_or(&[]);
    let mut policies = Vec::new(alloc);
    read_each(alloc, &mut policies, PolicyOption::Keep, keep, exact)?;
    read_each(alloc, &mut policies, PolicyOption::Add, add, exact)?;
    read_each(alloc, &mut policies, PolicyOption::Take, take, exact)?;
    read_each(alloc, &mut policies, PolicyOption::Most, most, exact)?;
    Ok(policies)
}
