//! Names that lead to files that a process has open.
use crate::target::{entry_of, folder_of};
use crate::trouble::TroubleReason;
use std::alloc::Global;
use std::fs::Files;

// How many links the system follows before it gives up.
const LINKS: usize = 40;

/// Does a name lead to a file that a process has open, as `/dev/stdout` does? What such a link is
/// resolved to is the file behind it, which somebody else is writing.
pub fn leads_to_open_file<R: Files>(
    rt: &R,
    alloc: Global,
    name: &str,
) -> Result<bool, TroubleReason> {
    let mut path = String::from_str(alloc, name)?;
    for _ in 0..LINKS {
        if is_among_open_files(rt, alloc, &path)? {
            return Ok(true);
        }
        match next_of(rt, alloc, &path)? {
            Some(next) => path = next,
            None => return Ok(false),
        }
    }
    Err(TroubleReason::NoPlace)
}

// Is a name in a folder where the system keeps the links to a process's open files?
fn is_among_open_files<R: Files>(rt: &R, alloc: Global, path: &str) -> Result<bool, TroubleReason> {
    let folder = rt.canonicalize(alloc, folder_of(path))?;
    Ok(is_open_files(folder.as_str()))
}

fn is_open_files(folder: &str) -> bool {
    folder.starts_with("/proc/") && folder.ends_with("/fd")
}

// Where a link leads, or none where the path is no link.
fn next_of<R: Files>(rt: &R, alloc: Global, path: &str) -> Result<Option<String>, TroubleReason> {
    match entry_of(rt, path)? {
        Some(metadata) if metadata.is_symlink() => Ok(Some(led_to(rt, alloc, path)?)),
        _ => Ok(None),
    }
}

// The path that a link leads to.
fn led_to<R: Files>(rt: &R, alloc: Global, path: &str) -> Result<String, TroubleReason> {
    let link = rt.read_link(alloc, path)?.into_string();
    if link.starts_with('/') {
        return Ok(link);
    }
    Ok(format!(in alloc; "{}/{link}", folder_of(path))?)
}
