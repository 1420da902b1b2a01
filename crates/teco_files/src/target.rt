//! Where an output will be.
use crate::links::leads_to_open_file;
use crate::trouble::TroubleReason;
use std::alloc::Global;
use std::fs::{Files, Metadata};
use std::{fs, io};

/// Where an output will be, and the file that it will replace, if there is one.
#[derive(Drop)]
pub struct Target {
    pub path: String,
    pub replaced: Option<Metadata>,
}

impl Target {
    /// Finds where the output of a name will be. A name that leads by links to a regular file is
    /// that file's; what exists and is no regular file is refused, and what leads to a file that a
    /// process has open.
    pub fn of<R: Files>(rt: &R, alloc: Global, name: &str) -> Result<Target, TroubleReason> {
        let Some(entry) = entry_of(rt, name)? else {
            return Target::new(alloc, name);
        };
        if !entry.is_symlink() {
            return Target::existing(String::from_str(alloc, name)?, entry);
        }
        // only links lead to open files
        if leads_to_open_file(rt, alloc, name)? {
            return Err(TroubleReason::InUse);
        }
        let path = rt.canonicalize(alloc, name)?.into_string();
        let metadata = fs::symlink_metadata(rt, &path)?;
        Target::existing(path, metadata)
    }

    // The file at a path, which is no link.
    fn existing(path: String, metadata: Metadata) -> Result<Target, TroubleReason> {
        if !metadata.is_file() {
            return Err(TroubleReason::NotRegular);
        }
        Ok(Target {
            path,
            replaced: Some(metadata),
        })
    }

    // A target that does not exist yet. It has a name in its folder.
    fn new(alloc: Global, name: &str) -> Result<Target, TroubleReason> {
        if name.is_empty() || name.ends_with('/') {
            return Err(TroubleReason::NotRegular);
        }
        Ok(Target {
            path: String::from_str(alloc, name)?,
            replaced: None,
        })
    }
}

/// What stands under a name itself, be it a link, if there is something.
pub fn entry_of<R: Files>(rt: &R, name: &str) -> io::Result<Option<Metadata>> {
    match fs::symlink_metadata(rt, name) {
        Ok(metadata) => Ok(Some(metadata)),
        Err(e) if e.kind() == io::ErrorKind::NotFound => Ok(None),
        Err(error) => Err(error),
    }
}

/// The folder that a path names its file in.
pub fn folder_of(path: &str) -> &str {
    match path.rsplit_once('/') {
        Some(("", _)) => "/",
        Some((folder, _)) => folder,
        None => ".",
    }
}
