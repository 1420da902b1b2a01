//! Unfinished outputs that runs of the program left which were killed.
ghost use Rattle.std.specs.Prelude.{◌≡◌, ◌≤◌, List, ℕ, length, true, IfOk};
ghost use Rattle.teco_files.specs.Strays.{IsOutputName};

use crate::process::{ProcessFacts, is_output_name};
use std::alloc::{AllocError, Global};
use std::fs::Files;
use std::io::Read;
use std::{fs, io, str};

// How many bytes of names are read at a time.
const ROOM: usize = 1 << 15;

/// The files of a folder. A name alone takes none away: it is one of an unfinished output, and the
/// folder has just said that its process left it.
pub trait SweptFiles {
    // the files that may be removed as the folder is
    ghost is_free: { Self → List ℕ → Type 0 };

    /// Reads the next names, each ended by a NUL; none at their end.
    fn next_names(&mut self, room: &mut [u8]) -> io::Result<usize>
        ensures { IfOk result (λ n. n ≤ length room.new) };

    /// Is the file of a name an unfinished output that a process left which is gone?
    fn is_left(&self, name: &str) -> Result<bool, AllocError>
        ensures named { IfOk result (λ is. is ≡ true → IsOutputName name.now) }
        ensures free { IfOk result (λ is. is ≡ true → is_free self.now name.now) };

    /// Removes the file of a name, and says whether it could be removed.
    fn remove(&mut self, name: &str) -> Result<bool, AllocError>
        requires named { IsOutputName name.now }
        requires free { is_free self.old name.now };
}

/// The files of a folder of the system.
#[derive(Drop)]
pub struct FolderFiles<'a, R: Files> {
    rt: &'a R,
    alloc: Global,
    folder: &'a str,
    names: R::Dir,
    facts: ProcessFacts,
}

impl<'a, R: Files> FolderFiles<'a, R> {
    /// Those of the folder at a path.
    pub fn open(
        rt: &'a R,
        alloc: Global,
        folder: &'a str,
        facts: ProcessFacts,
    ) -> io::Result<FolderFiles<'a, R>> {
        let names = rt.open_dir(folder)?;
        Ok(FolderFiles {
            rt,
            alloc,
            folder,
            names,
            facts,
        })
    }

    // The path of the file of a name.
    fn path(&self, name: &str) -> Result<String, AllocError> {
        let folder = self.folder;
        format!(in self.alloc; "{folder}/{name}")
    }
}

impl<R: Files> SweptFiles for FolderFiles<'_, R> {
    ghost is_free = { λ _ name. IsOutputName name };

    fn next_names(&mut self, room: &mut [u8]) -> io::Result<usize> {
        self.names.read(room)
    }

    fn is_left(&self, name: &str) -> Result<bool, AllocError> {
        if !self.facts.is_stray(self.rt, self.alloc, name)? {
            return Ok(false);
        }
        match fs::symlink_metadata(self.rt, &self.path(name)?) {
            Ok(found) => Ok(self.facts.owns(&found)),
            Err(_) => Ok(false),
        }
    }

    fn remove(&mut self, name: &str) -> Result<bool, AllocError> {
        Ok(fs::remove_file(self.rt, &self.path(name)?).is_ok())
    }
}

/// Removes the unfinished outputs in a folder whose process is gone, and says how many there were.
pub fn remove_strays<F: SweptFiles>(alloc: Global, files: &mut F) -> io::Result<usize> {
    let mut removed = 0usize;
    for name in &outputs_in(alloc, files)? {
        if files.is_left(name)? && files.remove(name)? {
            removed = removed.saturating_add(1);
        }
    }
    Ok(removed)
}

// The names of the unfinished outputs in a folder.
fn outputs_in<F: SweptFiles>(alloc: Global, files: &mut F) -> io::Result<Vec<String>> {
    let mut outputs = Vec::new(alloc);
    let mut room = vec![in alloc; 0; ROOM]?;
    for _ in 0..u64::MAX {
        let n = files.next_names(&mut room)?;
        if n == 0 {
            break;
        }
        push_outputs(&room[..n], &mut outputs)?;
    }
    Ok(outputs)
}

// Adds the unfinished outputs among names, each ended by a NUL, to others.
fn push_outputs(names: &[u8], outputs: &mut Vec<String>) -> io::Result<()> {
    let alloc = *outputs.allocator();
    for name in names.split(|byte| *byte == 0) {
        let Ok(name) = str::from_utf8(name) else {
            continue;
        };
        if is_output_name(name) {
            outputs.push(String::from_str(alloc, name)?)?;
        }
    }
    Ok(())
}
