//! A folder of the system for the files of a case, and what is left in it.
use crate::case_file::NamedText;
use crate::fault::CaseFault;
use std::alloc::Global;
use std::fs::DirEntry;
use std::rt::Env;
use std::{env, fs, io, str};
use teco_files::System;
use teco_hosts::MemHost;

/// The folder, which is there only while a case is run.
const FOLDER: &str = "work";

// The path of a file in the folder.
fn path_of(alloc: Global, name: &[u8]) -> Result<String, CaseFault> {
    match str::from_utf8(name) {
        Ok(name) => Ok(format!(in alloc; "{FOLDER}/{name}")?),
        Err(_) => Err(io::Error::from(io::ErrorKind::InvalidFilename).into()),
    }
}

/// Makes the folder with these files, and goes there.
pub fn enter<R: System + Env + AllocGlobal + Copy>(
    rt: &R,
    files: &[NamedText<'_>],
) -> Result<(), CaseFault> {
    fs::create_dir(rt, FOLDER)?;
    for file in files {
        fs::write(rt, path_of(rt.alloc(), file.name)?, file.text)?;
    }
    env::set_current_dir(rt, FOLDER)?;
    Ok(())
}

/// What a folder has.
#[derive(Drop)]
pub struct Contents {
    pub files: MemHost,
    pub names: Vec<String>,
}

impl Contents {
    // Adds a file of the folder and its name.
    fn add<R: System + AllocGlobal + Copy>(
        &mut self,
        rt: &R,
        entry: &DirEntry<R>,
    ) -> Result<(), CaseFault> {
        let text = fs::read(rt, entry.path())?;
        self.files.put(entry.file_name().as_bytes(), &text)?;
        self.names
            .push(String::from_str(rt.alloc(), entry.file_name())?)?;
        Ok(())
    }

    // Goes back, takes what the folder has, and removes it.
    fn take<R: System + Env + AllocGlobal + Copy>(&mut self, rt: &R) -> Result<(), CaseFault> {
        env::set_current_dir(rt, "..")?;
        for entry in fs::read_dir(rt, FOLDER)? {
            self.add(rt, &entry?)?;
        }
        fs::remove_dir_all(rt, FOLDER)?;
        Ok(())
    }
}

/// Goes back, and removes the folder; tells what it had.
pub fn leave<R: System + Env + AllocGlobal + Copy>(rt: &R) -> Result<Contents, CaseFault> {
    let mut contents = Contents {
        files: MemHost::new(rt.alloc()),
        names: Vec::new(rt.alloc()),
    };
    contents.take(rt)?;
    Ok(contents)
}
