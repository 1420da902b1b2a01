//! The file of a macro that is called by name.
use crate::fault::NamedFault;
use crate::folders::MacroFolders;
use crate::near::near_names;
use std::alloc::{AllocError, Global};
use std::fs::Files;
use std::{fs, io, str};
use teco_base::Reg;
use teco_console::Origin;
use teco_source::Shown;

/// A macro that is called by name, and its file.
#[derive(Drop)]
pub struct CalledMacro {
    name: String,
    path: String,
    is_installed: bool,
}

impl CalledMacro {
    /// Its name.
    pub fn name(&self) -> &str {
        &self.name
    }

    /// The name of its file.
    pub fn path(&self) -> &str {
        &self.path
    }

    /// Is its file one of the installed library?
    pub fn is_installed(&self) -> bool {
        self.is_installed
    }

    /// Its register.
    pub fn entry(&self) -> Reg {
        Reg::default()
    }

    /// What it is read from.
    pub fn origin(&self) -> Origin<'_> {
        Origin::of_file(&self.path)
    }
}

/// Does a path lead to something that is no folder?
pub fn is_file<R: Files>(rt: &R, path: &str) -> io::Result<bool> {
    match fs::metadata(rt, path) {
        Ok(found) => Ok(!found.is_dir()),
        Err(error) if error.kind() == io::ErrorKind::OutOfMemory => Err(error),
        Err(_) => Ok(false),
    }
}

// The first of these paths that leads to a file.
fn first_file<'p, R: Files>(rt: &R, paths: &'p [Vec<u8>]) -> io::Result<Option<&'p str>> {
    for path in paths {
        if let Ok(path) = str::from_utf8(path)
            && is_file(rt, path)?
        {
            return Ok(Some(path));
        }
    }
    Ok(None)
}

// Paths as a message has them.
fn listed(alloc: Global, paths: &[Vec<u8>]) -> Result<String, AllocError> {
    let mut listed = String::new(alloc);
    for path in paths {
        if !listed.is_empty() {
            listed.push_str(", no ")?;
        }
        let shown = format!(in alloc; "{}", Shown(path))?;
        listed.push_str(&shown)?;
    }
    Ok(listed)
}

// Says that there is no macro of a name.
fn unfound<R: Files + AllocGlobal + Copy>(
    rt: &R,
    folders: &MacroFolders,
    name: &str,
    paths: &[Vec<u8>],
) -> Result<NamedFault, NamedFault> {
    let alloc = rt.alloc();
    let near = near_names(rt, folders, name)?;
    Ok(NamedFault::Unfound {
        name: String::from_str(alloc, name)?,
        places: listed(alloc, paths)?,
        near,
    })
}

/// The macro of a name: the first of its files that is there.
pub fn find_macro<R: Files + AllocGlobal + Copy>(
    rt: &R,
    folders: &MacroFolders,
    name: &str,
) -> Result<CalledMacro, NamedFault> {
    let alloc = rt.alloc();
    let paths = folders.files_of(alloc, name)?;
    let Some(path) = first_file(rt, &paths)? else {
        return Err(unfound(rt, folders, name, &paths)?);
    };
    Ok(CalledMacro {
        name: String::from_str(alloc, name)?,
        path: String::from_str(alloc, path)?,
        is_installed: folders.is_installed(path),
    })
}
