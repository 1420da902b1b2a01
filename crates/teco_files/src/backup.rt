//! Files that are kept under another name before they are replaced.
use crate::inheritance::inherit_owner;
use crate::system::System;
use crate::target::entry_of;
use crate::trouble::TroubleReason;
use std::alloc::Global;
use std::fs::{Files, OpenFile, OpenOptions};
use std::io::{BufReader, Write};
use std::os::unix::fs::OpenOptionsExt;
use std::{fs, io};

// What the name of a file has behind it until it has the name of its backup. It is none of an unfinished
// output, so no later run removes a file that is kept.
const MARK: &str = ".kept-";

// A copy has its own permissions only when it is whole.
const PRIVATE: u32 = 0o600;

/// How a file that is replaced is kept: under its path with a suffix behind it, as it was, with its
/// owner, its group, its permissions and whatever else the system keeps with it.
#[derive(Drop)]
pub struct Backup {
    pub suffix: String,
    /// May it take the place of a file that has its name?
    pub replaces: bool,
}

/// A file that has another name beside its own.
#[derive(Drop)]
struct KeptFile {
    // the name that it has
    path: String,
    // the name that it will have, in the place of another file; it has that where there is none
    replaced: Option<String>,
}

impl KeptFile {
    // Takes the other name away, since the file is not replaced.
    fn undo<R: Files>(self, rt: &R) {
        let _undone = fs::remove_file(rt, &self.path);
    }

    // Gives it the name of its backup, behind the replacement. Where that is refused the file gets its
    // own name back.
    fn settle<R: Files>(self, rt: &R, own: &str) -> Result<(), TroubleReason> {
        let KeptFile { path, replaced } = self;
        let Some(backup) = replaced else {
            return Ok(());
        };
        match fs::rename(rt, &path, &backup) {
            Ok(()) => {
                // it stays where both are names of one file
                let _removed = fs::remove_file(rt, &path);
                Ok(())
            }
            Err(error) => {
                fs::rename(rt, &path, own)?;
                Err(TroubleReason::Backup(error))
            }
        }
    }
}

impl Backup {
    // Gives the file at a path another name beside its own: that of its backup, or one for a while where
    // a file has that and it will be replaced. What has that name is never written through, be it a link.
    fn keep<R: System>(
        &self,
        rt: &R,
        alloc: Global,
        own: &str,
        beside: &str,
    ) -> Result<KeptFile, TroubleReason> {
        let suffix = self.suffix.as_str();
        let backup = format!(in alloc; "{own}{suffix}")?;
        if entry_of(rt, &backup)?.is_none() {
            add_name(rt, alloc, own, &backup)?;
            return Ok(KeptFile {
                path: backup,
                replaced: None,
            });
        }
        if !self.replaces {
            return Err(TroubleReason::Kept);
        }
        let path = path_for_a_while(alloc, own, beside)?;
        add_name(rt, alloc, own, &path)?;
        Ok(KeptFile {
            path,
            replaced: Some(backup),
        })
    }
}

// A name beside a file that no other has: that of the file, a mark and what tells an unfinished output
// from others.
fn path_for_a_while(alloc: Global, own: &str, beside: &str) -> Result<String, TroubleReason> {
    let number = match beside.rsplit_once(".somleut-") {
        Some((_, number)) => number,
        None => "",
    };
    Ok(format!(in alloc; "{own}{MARK}{number}")?)
}

// Gives a file a second name. Where the system lets it have none, that is the name of a copy.
fn add_name<R: System>(rt: &R, alloc: Global, own: &str, path: &str) -> Result<(), TroubleReason> {
    match rt.hard_link(own, path) {
        Ok(()) => Ok(()),
        Err(e) if e.kind() == io::ErrorKind::AlreadyExists => Err(TroubleReason::Kept),
        Err(_) => copy(rt, alloc, own, path),
    }
}

// Copies a file, with its owner and its group as far as the system lets that be, and its permissions.
fn copy<R: System>(rt: &R, alloc: Global, own: &str, path: &str) -> Result<(), TroubleReason> {
    let mut options = OpenOptions::new();
    options.write(true).create_new(true).mode(PRIVATE);
    let file = match options.open(rt, path) {
        Ok(file) => file,
        Err(e) if e.kind() == io::ErrorKind::AlreadyExists => return Err(TroubleReason::Kept),
        Err(error) => return Err(TroubleReason::Backup(error)),
    };
    match copy_into(rt, alloc, own, file) {
        Ok(()) => Ok(()),
        Err(error) => {
            let _removed = fs::remove_file(rt, path);
            Err(TroubleReason::Backup(error))
        }
    }
}

// Copies a file into an open one.
fn copy_into<R: System>(rt: &R, alloc: Global, own: &str, mut file: R::File) -> io::Result<()> {
    let source = fs::open(rt, own)?;
    let permissions = inherit_owner(
        rt,
        &file,
        file.metadata().ok().as_ref(),
        &source.metadata()?,
    );
    let mut source = BufReader::new(alloc, source)?;
    io::copy(&mut source, &mut file)?;
    file.flush()?;
    file.set_permissions(permissions)
}

/// Moves an output over its target, and keeps the target as it was where that is asked for. The target's
/// name always leads to the old file or to the new one, and a file that has the backup's name stays
/// where it is until the new one is in its place.
pub fn replace<R: System>(
    rt: &R,
    alloc: Global,
    backup: Option<&Backup>,
    beside: &str,
    target: &str,
) -> Result<(), TroubleReason> {
    let Some(backup) = backup else {
        return Ok(fs::rename(rt, beside, target)?);
    };
    let kept = backup.keep(rt, alloc, target, beside)?;
    match fs::rename(rt, beside, target) {
        Ok(()) => kept.settle(rt, target),
        Err(error) => {
            kept.undo(rt);
            Err(TroubleReason::System(error))
        }
    }
}
