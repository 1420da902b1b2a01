//! Which names the files that are edited are kept under.
use crate::choosing::ChosenFile;
use std::alloc::{AllocError, Global};
use std::collections::BTreeSet;
use std::fs::Files;
use std::str;
use teco_files::folder_of;

// The path of a file itself: where links lead, from the root on; none where that can't be told.
fn own_path<R: Files>(rt: &R, alloc: Global, name: &[u8]) -> Result<Option<String>, AllocError> {
    let Ok(name) = str::from_utf8(name) else {
        return Ok(None);
    };
    if let Ok(path) = rt.canonicalize(alloc, name) {
        return Ok(Some(path.into_string()));
    }
    let Ok(folder) = rt.canonicalize(alloc, folder_of(name)) else {
        return Ok(None);
    };
    let last = match name.rsplit_once('/') {
        Some((_, last)) => last,
        None => name,
    };
    let folder = folder.into_string();
    Ok(Some(format!(in alloc; "{folder}/{last}")?))
}

// The paths of files themselves.
fn own_paths<R: Files>(
    rt: &R,
    alloc: Global,
    files: &[ChosenFile],
) -> Result<BTreeSet<String>, AllocError> {
    let mut paths = BTreeSet::new(alloc);
    for file in files {
        if let Some(path) = own_path(rt, alloc, &file.name)? {
            paths.insert(path)?;
        }
    }
    Ok(paths)
}

/// The first path of a file under which another would be kept, where files are kept with a suffix;
/// none where no file would be.
pub fn taken_backup<R: Files>(
    rt: &R,
    alloc: Global,
    files: &[ChosenFile],
    suffix: &str,
) -> Result<Option<String>, AllocError> {
    let paths = own_paths(rt, alloc, files)?;
    for path in &paths {
        let kept = format!(in alloc; "{path}{suffix}")?;
        if paths.contains(kept.as_str()) {
            return Ok(Some(kept));
        }
    }
    Ok(None)
}
