//! Which files are edited: those of words, of a list and of folders.
ghost use Rattle.std.specs.Prelude.{◌≡◌, ◌++◌, ◌∷◌, [], None, false, IfOk, OnOk};
ghost use Rattle.teco_edit_parts.specs.Choices.{named_by, names_of};

use crate::pattern::matches;
use std::alloc::{AllocError, Global};
use std::fs::Files;
use std::io::{Input, Read};
use std::{fmt, fs, io, str};
use teco_console::{AnswerFault, Voice, read_file};
use teco_options::FileChoice;
use teco_source::Shown;

/// How many bytes of the names in a folder are read at a time.
const ROOM: usize = 1 << 15;

/// A file that is edited.
#[derive(Drop)]
pub struct ChosenFile {
    pub name: Vec<u8>,
    /// Was it found in a folder or in a list, and not named by a word?
    pub is_found: bool,
}

// The last part of a path.
fn last_part(path: &[u8]) -> &[u8] {
    match path.iter().rposition(|byte| *byte == b'/') {
        Some(at) => path.get(at.saturating_add(1)..).unwrap_or(path),
        None => path,
    }
}

// Is a name of one of these patterns?
fn is_of(patterns: &[&str], name: &[u8]) -> bool {
    patterns
        .iter()
        .any(|pattern| matches(pattern.as_bytes(), name))
}

// Is a file of a folder taken?
fn takes(choice: &FileChoice<'_>, name: &[u8]) -> bool {
    let is_included = choice.included.is_empty() || is_of(choice.included, name);
    is_included && !is_of(choice.excluded, name)
}

// The files that are chosen so far, in order.
#[derive(Drop)]
struct Choosing<'r, 'v, 'c, 'n, R: Files, E: io::Write + Drop> {
    rt: &'r R,
    alloc: Global,
    voice: &'v mut Voice<E>,
    choice: &'c FileChoice<'n>,
    chosen: Vec<ChosenFile>,
}

// What a path leads to, as far as it matters.
#[derive(Clone, Copy)]
enum PathKind {
    Folder,
    File,
    Other,
    // the system does not say
    Untold,
}

// The names in a folder, but hidden ones, in the order of their bytes.
fn names_in<R: Files>(rt: &R, alloc: Global, folder: &str) -> io::Result<Vec<Vec<u8>>> {
    let mut listing = rt.open_dir(folder)?;
    let mut names = Vec::new(alloc);
    push_listed(alloc, &mut listing, &mut names)?;
    names.sort_unstable();
    Ok(names)
}

// Adds the names of a listing to others, but hidden ones.
fn push_listed<L: Read>(
    alloc: Global,
    listing: &mut L,
    names: &mut Vec<Vec<u8>>,
) -> io::Result<()> {
    let mut room = vec![in alloc; 0; ROOM]?;
    for _ in 0..u64::MAX {
        let n = listing.read(&mut room)?;
        if n == 0 {
            break;
        }
        push_names(alloc, room.get(..n).unwrap_or(&[]), names)?;
    }
    Ok(())
}

// Adds the names that are each ended by a NUL to others, but hidden ones.
fn push_names(alloc: Global, listed: &[u8], names: &mut Vec<Vec<u8>>) -> Result<(), AllocError> {
    for name in listed.split(|byte| *byte == 0) {
        if !name.is_empty() && !name.starts_with(b".") {
            names.push(name.to_vec(alloc)?)?;
        }
    }
    Ok(())
}

// The path of what has a name in a folder. The name may be no text.
fn path_in(alloc: Global, folder: &str, name: &[u8]) -> Result<Vec<u8>, AllocError> {
    let mut path = folder.as_bytes().to_vec(alloc)?;
    if !folder.ends_with('/') {
        path.push(b'/')?;
    }
    path.extend_from_slice(name)?;
    Ok(path)
}

// Notes a folder, to be looked through.
fn note_folder(folders: &mut Vec<String>, folder: String) -> Result<(), AllocError> {
    folders.push(folder)?;
    Ok(())
}

// Adds a file to others.
#[tactic(auto, using(crate::proofs::Choices::names_of_more))]
fn push_file(files: &mut Vec<ChosenFile>, name: &[u8], is_found: bool) -> Result<(), AllocError>
    ensures { OnOk result (names_of files.new.items ≡ names_of files.old.items ++ name.now ∷ []) }
{
    let name = name.to_vec(*files.allocator())?;
    files.push(ChosenFile { name, is_found })?;
    Ok(())
}

// The files that words name, where no folder is looked through.
fn named(alloc: Global, names: &[&[u8]]) -> Result<Vec<ChosenFile>, AllocError>
    ensures { IfOk result (λ files. names_of files.items ≡ named_by names.now) }
{
    let mut files = Vec::new(alloc);
    for name in names {
        push_file(&mut files, *name, false)?;
    }
    Ok(files)
}

impl<R: Files, E: io::Write + Drop> Choosing<'_, '_, '_, '_, R, E> {
    // One more file.
    fn push(&mut self, name: &[u8], is_found: bool) -> Result<(), AllocError> {
        push_file(&mut self.chosen, name, is_found)
    }

    // What a path leads to. Links that stand in folders are not followed.
    fn kind_of(&self, path: &str, follows: bool) -> PathKind {
        let found = if follows {
            fs::metadata(self.rt, path)
        } else {
            fs::symlink_metadata(self.rt, path)
        };
        match found {
            Ok(found) if found.is_dir() => PathKind::Folder,
            Ok(found) if found.is_file() => PathKind::File,
            Ok(_) => PathKind::Other,
            Err(_) => PathKind::Untold,
        }
    }

    // Says that the files of a folder can't be told.
    fn tell_unread<D: fmt::Display + Drop>(&mut self, path: &[u8], reason: D) {
        let path = Shown(path);
        self.voice
            .complain(format_args!("cannot look through {path}: {reason}"));
    }

    // The files of a folder, and the folders in it. A folder that can't be read is told, and stands
    // among the files: as such it fails, and is counted.
    fn look_through(&mut self, folder: &str, folders: &mut Vec<String>) -> Result<(), AllocError> {
        match names_in(self.rt, self.alloc, folder) {
            Ok(names) => self.look_at_all(folder, &names, folders),
            Err(error) => {
                self.tell_unread(folder.as_bytes(), error);
                self.push(folder.as_bytes(), true)
            }
        }
    }

    // Takes the files of a folder, and notes the folders in it, the first one last.
    fn look_at_all(
        &mut self,
        folder: &str,
        names: &[Vec<u8>],
        folders: &mut Vec<String>,
    ) -> Result<(), AllocError> {
        let known = folders.len();
        for name in names {
            self.look_at(folder, name, folders)?;
        }
        if let Some(inner) = folders.as_mut_slice().get_mut(known..) {
            inner.reverse();
        }
        Ok(())
    }

    // Takes a file of a folder, or notes a folder in it. What can't be looked at, be it for its name,
    // is taken too: its edit fails, which is told with its path, and counted.
    fn look_at(
        &mut self,
        folder: &str,
        name: &[u8],
        folders: &mut Vec<String>,
    ) -> Result<(), AllocError> {
        if is_of(self.choice.excluded, name) {
            return Ok(());
        }
        let path = path_in(self.alloc, folder, name)?;
        match str::from_utf8(&path) {
            Ok(text) => self.look_at_path(text, name, folders),
            Err(_) => self.push(&path, true),
        }
    }

    // Takes a file of this path and this name, or notes a folder.
    fn look_at_path(
        &mut self,
        path: &str,
        name: &[u8],
        folders: &mut Vec<String>,
    ) -> Result<(), AllocError> {
        match self.kind_of(path, false) {
            PathKind::Folder => note_folder(folders, String::from_str(self.alloc, path)?),
            PathKind::File if !takes(self.choice, name) => Ok(()),
            PathKind::File | PathKind::Untold => self.push(path.as_bytes(), true),
            PathKind::Other => Ok(()),
        }
    }

    // Takes the files of a folder, and of those in it.
    fn take_folder(&mut self, folder: &str) -> Result<(), AllocError> {
        let mut folders = Vec::new(self.alloc);
        note_folder(&mut folders, String::from_str(self.alloc, folder)?)?;
        self.take_folders(&mut folders)
    }

    // Takes the files of folders, the last one first, and of those in them.
    fn take_folders(&mut self, folders: &mut Vec<String>) -> Result<(), AllocError> {
        for _ in 0..u64::MAX {
            match folders.pop() {
                Some(folder) => self.look_through(folder.as_str(), folders)?,
                None => break,
            }
        }
        Ok(())
    }

    // Takes what a word names: a file, or a folder if these are looked through.
    fn take(&mut self, name: &[u8]) -> Result<(), AllocError> {
        match str::from_utf8(name) {
            Ok(path) if self.choice.is_recursive && self.kind_of(path, true) == PathKind::Folder =>
                { self.take_folder(path) }
            _ => self.push(name, false),
        }
    }

    // Takes what each word names, and says which patterns fit none of it.
    fn take_words(&mut self) -> Result<(), AllocError> {
        let choice = self.choice;
        for name in choice.names {
            self.take(*name)?;
        }
        for pattern in choice.included {
            self.tell_unfit(*pattern);
        }
        Ok(())
    }

    // Says that a pattern fits no file that was found, if none is.
    fn tell_unfit(&mut self, pattern: &str) {
        let fits = self.chosen.iter().any(|file| file.is_found
            && matches(pattern.as_bytes(), last_part(&file.name)));
        if !fits {
            let shown = Shown(pattern.as_bytes());
            self.voice.complain(format_args!(
                "--include {shown} fits no file of the folders; in a pattern * is any text and ? any \
                    byte, and all else stands for itself"
            ));
        }
    }

    // Takes the files of a list. One that names none is told.
    fn take_list(&mut self, name: &str, list: &[u8]) -> Result<(), AllocError> {
        let end = if self.choice.ends_by_nul { 0 } else { b'\n' };
        let known = self.chosen.len();
        for name in list.split(|byte| *byte == end) {
            if !name.is_empty() {
                self.push(name, true)?;
            }
        }
        if self.chosen.len() == known {
            let shown = Shown(name.as_bytes());
            self.voice.complain(format_args!("--files-from {shown}: the list names no file"));
        }
        Ok(())
    }
}

/// The files that are edited, in order: those of words, each folder's at its place, and then those of
/// a list. Hidden files and folders are left out, and links, devices and the like in folders. What can't
/// be looked at stands among them, so that its edit fails. A folder that can't be read is told, and a
/// list that names no file, and a pattern that fits none.
pub fn choose<R: Files + Input, E: io::Write + Drop>(
    rt: &R,
    voice: &mut Voice<E>,
    choice: &FileChoice<'_>,
) -> Result<Vec<ChosenFile>, AnswerFault>
    ensures words { choice.now.is_recursive ≡ false → choice.now.list ≡ None
        → IfOk result (λ files. names_of files.items ≡ named_by choice.now.names.now) }
{
    let alloc = voice.alloc();
    match choice.list {
        None if !choice.is_recursive => return Ok(named(alloc, choice.names)?),
        _ => {}
    }
    let mut choosing = Choosing {
        rt,
        alloc,
        voice,
        choice,
        chosen: Vec::new(alloc),
    };
    choosing.take_words()?;
    if let Some(list) = choice.list {
        choosing.take_list(list, &read_file(rt, alloc, list)?)?;
    }
    Ok(choosing.chosen)
}
