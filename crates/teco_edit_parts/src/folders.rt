//! The folders of the files that are edited.
use std::alloc::{AllocError, Global};
use std::collections::BTreeSet;
use std::fs::Files;
use std::io::Write;
use std::str;
use teco_console::Voice;
use teco_files::{FolderFiles, ProcessFacts, folder_of, remove_strays, sync_folder};
use teco_source::Shown;

/// The folders of the files that are edited: those that were looked through for what killed runs
/// left, and those in which files were replaced.
#[derive(Drop)]
pub struct Folders {
    alloc: Global,
    seen: BTreeSet<String>,
    changed: BTreeSet<String>,
}

// Adds a folder to others, and says whether it is a new one.
fn add(folders: &mut BTreeSet<String>, alloc: Global, folder: &str) -> Result<bool, AllocError> {
    if folders.contains(folder) {
        return Ok(false);
    }
    folders.insert(String::from_str(alloc, folder)?)?;
    Ok(true)
}

// Says how many unfinished files were removed in a folder, if any.
fn tell_removed<E: Write + Drop>(voice: &mut Voice<E>, folder: &str, count: usize) {
    if count > 0 {
        let folder = Shown(folder.as_bytes());
        voice.say(format_args!("{folder}: unfinished files of killed runs were removed: {count}"));
    }
}

impl Folders {
    /// None yet.
    pub fn new(alloc: Global) -> Folders {
        Folders {
            alloc,
            seen: BTreeSet::new(alloc),
            changed: BTreeSet::new(alloc),
        }
    }

    /// Removes what killed runs left in the folder of a file, the first time that one of its files
    /// is edited, and says how much it was.
    pub fn sweep<R: Files, E: Write + Drop>(
        &mut self,
        rt: &R,
        voice: &mut Voice<E>,
        name: &[u8],
        facts: ProcessFacts,
    ) -> Result<(), AllocError> {
        let Ok(name) = str::from_utf8(name) else {
            return Ok(());
        };
        let folder = folder_of(name);
        if !add(&mut self.seen, self.alloc, folder)? {
            return Ok(());
        }
        if let Ok(mut files) = FolderFiles::open(rt, self.alloc, folder, facts) {
            let removed = remove_strays(self.alloc, &mut files);
            tell_removed(voice, folder, removed.unwrap_or(0));
        }
        Ok(())
    }

    /// A file of this folder was replaced.
    pub fn note_changed(&mut self, folder: Option<&str>) -> Result<(), AllocError> {
        if let Some(folder) = folder {
            let _is_new = add(&mut self.changed, self.alloc, folder)?;
        }
        Ok(())
    }

    /// Makes the names in the folders in which files were replaced outlast a power cut.
    pub fn sync<R: Files>(&self, rt: &R) {
        for folder in &self.changed {
            let _synced = sync_folder(rt, folder);
        }
    }
}
