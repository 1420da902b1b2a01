//! The folders in which macros are looked for.
use std::alloc::{AllocError, Global};
use std::env;
use std::env::{Env, VarError};
use std::fs::Files;
use std::io::ErrorKind;
use teco_parameters::places;

/// What names the user's own folder.
const VARIABLE: &str = "TECO_LIBRARY";

/// The folder of the installed library, beside that of the program.
const SHARED: &str = "share/teco";

/// The folders beside the one in which the program runs.
#[derive(Drop)]
pub struct MacroFolders {
    own: Option<String>,
    installed: Option<String>,
}

// The user's own folder, if one is named.
fn own_folder<R: Env + AllocGlobal>(rt: &R) -> Result<Option<String>, AllocError> {
    match env::var(rt, VARIABLE) {
        Ok(folder) if !folder.is_empty() => Ok(Some(folder)),
        Err(VarError::OutOfMemory) => Err(AllocError),
        _ => Ok(None),
    }
}

// The folder in which a program's own one stands.
fn above<'a>(program: &'a str) -> Option<&'a str> {
    let (folder, _) = program.rsplit_once('/')?;
    let (above, _) = folder.rsplit_once('/')?;
    Some(above)
}

// The folder of the installed library, by the path of the program.
fn shared_above(alloc: Global, program: &str) -> Result<Option<String>, AllocError> {
    match above(program) {
        Some(above) => Ok(Some(format!(in alloc; "{above}/{SHARED}")?)),
        None => Ok(None),
    }
}

// The folder that is installed with the program, if it is known where that is.
fn installed_folder<R: Files + AllocGlobal>(rt: &R) -> Result<Option<String>, AllocError> {
    match env::current_exe(rt) {
        Ok(program) => shared_above(rt.alloc(), program.as_os_str()),
        Err(error) if error.kind() == ErrorKind::OutOfMemory => Err(AllocError),
        Err(_) => Ok(None),
    }
}

// The bytes of a folder's name.
fn bytes_of(folder: &Option<String>) -> Option<&[u8]> {
    match folder {
        Some(folder) => Some(folder.as_bytes()),
        None => None,
    }
}

impl MacroFolders {
    /// The folders of who runs the program.
    pub fn read<R: Files + Env + AllocGlobal>(rt: &R) -> Result<MacroFolders, AllocError> {
        Ok(MacroFolders {
            own: own_folder(rt)?,
            installed: installed_folder(rt)?,
        })
    }

    /// The files that a name may stand for, in the order in which they are tried.
    pub fn files_of(&self, alloc: Global, name: &str) -> Result<Vec<Vec<u8>>, AllocError> {
        let own = bytes_of(&self.own);
        places(alloc, name.as_bytes(), own, bytes_of(&self.installed))
    }

    /// The names of the folders, in this order.
    pub fn names(&self, alloc: Global) -> Result<Vec<&str>, AllocError> {
        let mut names = Vec::new(alloc);
        names.push(".")?;
        if let Some(own) = &self.own {
            names.push(own.as_str())?;
        }
        if let Some(installed) = &self.installed {
            names.push(installed.as_str())?;
        }
        Ok(names)
    }

    /// Is a file one of the installed library?
    pub fn is_installed(&self, path: &str) -> bool {
        match &self.installed {
            Some(folder) => path.starts_with(folder.as_str()),
            None => false,
        }
    }
}
