//! The names of macros, with what they take and do.
use crate::called::{CalledMacro, find_macro};
use crate::fault::NamedFault;
use crate::folders::MacroFolders;
use crate::spelling::Declared;
use crate::taking::parameters_in;
use std::alloc::{AllocError, Global};
use std::collections::BTreeSet;
use std::fs::Files;
use std::io::{Input, Write};
use std::{fs, io};
use teco_console::{Console, Escape, Outcome, Request, method_for, read_source};
use teco_parameters::{is_name, summary_of};
use teco_source::{Shown, Source};

// The name that a file gives a macro, if it is one for that.
fn name_of_file(file: &str) -> Option<&str> {
    let name = file.strip_suffix(".tes")?;
    is_name(name.as_bytes()).then_some(name)
}

// Passes on that memory was wanting, and no other fault.
fn check_memory(error: &io::Error) -> Result<(), AllocError> {
    if error.kind() == io::ErrorKind::OutOfMemory {
        Err(AllocError)
    } else {
        Ok(())
    }
}

// Adds the name that a file gives a macro, if it is one for that.
fn add_name(alloc: Global, file: &str, names: &mut BTreeSet<String>) -> Result<(), AllocError> {
    if let Some(name) = name_of_file(file) {
        names.insert(String::from_str(alloc, name)?)?;
    }
    Ok(())
}

// Adds the names that the files of a folder give. One that can't be read has none.
fn add_names<R: Files + AllocGlobal + Copy>(
    rt: &R,
    folder: &str,
    names: &mut BTreeSet<String>,
) -> Result<(), AllocError> {
    match fs::read_dir(rt, folder) {
        Ok(entries) => {
            for entry in entries {
                match entry {
                    Ok(entry) => add_name(rt.alloc(), entry.file_name(), names)?,
                    Err(error) => check_memory(&error)?,
                }
            }
            Ok(())
        }
        Err(error) => check_memory(&error),
    }
}

/// The names of all macros, in the order of their bytes.
pub fn all_names<R: Files + AllocGlobal + Copy>(
    rt: &R,
    folders: &MacroFolders,
) -> Result<BTreeSet<String>, AllocError> {
    let mut names = BTreeSet::new(rt.alloc());
    for folder in folders.names(rt.alloc())? {
        add_names(rt, folder, &mut names)?;
    }
    Ok(names)
}

// What begins comments that say something else of a macro.
const OTHERS: [&[u8]; 4] = [b"TAKES", b"KEEPS", b"EXAMPLE", b"TECO-LIB"];

// What a library says that its macro does, in a line; nothing if it says none.
fn summary_line(library: &[u8]) -> &[u8] {
    let summary = summary_of(library).unwrap_or(&[]);
    if OTHERS.iter().any(|other| summary.starts_with(*other)) {
        return &[];
    }
    summary
        .split(|byte| *byte == b'\n')
        .next()
        .unwrap_or(&[])
        .trim_ascii()
}

// The line of a macro: its name, what it takes and what it does.
fn line_of(alloc: Global, name: &str, source: &Source) -> Result<String, NamedFault> {
    let mut line = String::from_str(alloc, name)?;
    for parameter in parameters_in(alloc, source)? {
        let declared = format!(in alloc; " {}", Declared(&parameter))?;
        line.push_str(&declared)?;
    }
    let summary = summary_line(source.text());
    if !summary.is_empty() {
        let shown = format!(in alloc; ": {}", Shown(summary))?;
        line.push_str(&shown)?;
    }
    line.push_str("\n")?;
    Ok(line)
}

impl CalledMacro {
    /// The source of its library.
    pub fn source<R: Files + Input>(
        &self,
        rt: &R,
        alloc: Global,
        escape: Escape,
    ) -> Result<Source, NamedFault> {
        let request = Request {
            library: self.origin(),
            escape,
            method: method_for(None, true),
            searches: &[],
        };
        Ok(read_source(rt, alloc, request)?)
    }
}

// The line of the macro of a name.
fn line_for<R: Files + Input + AllocGlobal + Copy>(
    rt: &R,
    folders: &MacroFolders,
    name: &str,
) -> Result<String, NamedFault> {
    let called = find_macro(rt, folders, name)?;
    let source = called.source(rt, rt.alloc(), Escape::ByName)?;
    line_of(rt.alloc(), name, &source)
}

/// Prints the name of each macro with what it takes and does, a line each. What keeps one from being
/// listed is told, and the others go on.
pub fn list_macros<R: Files + Input + AllocGlobal + Copy, O: Write + Drop, E: Write + Drop>(
    rt: &R,
    console: &mut Console<O, E>,
    folders: &MacroFolders,
) -> Result<Outcome, NamedFault> {
    let names = all_names(rt, folders)?;
    for name in names.iter() {
        match line_for(rt, folders, name) {
            Ok(line) => console.out.write_all(line.as_bytes())?,
            Err(NamedFault::Memory) => return Err(NamedFault::Memory),
            Err(fault) => console.voice.complain(fault),
        }
    }
    Ok(Outcome::Done)
}
