//! The macro that a case is about.
use crate::case_file::NamedCase;
use crate::fault::CaseFault;
use std::alloc::Global;
use teco_base::{LIMIT, Reg};
use teco_console::{Edition, Method};
use teco_library::{Library, LibraryFault};

/// The editions of the rules, by their names.
pub const METHODS: &[(&str, Method)] = &[
    ("1", Method::Only(Edition::First)),
    ("2", Method::Only(Edition::Second)),
];

/// A macro of a library, and how it is verified.
#[derive(Clone, Copy)]
pub struct MacroSubject {
    pub entry: Reg,
    pub method: Method,
}

impl MacroSubject {
    /// The macro of a case. It is verified by the first edition where the case names none.
    pub fn of(case: &NamedCase<'_>) -> Result<MacroSubject, CaseFault> {
        let entry = match case.text("entry")? {
            [name] => Reg::of(*name),
            _ => None,
        };
        Ok(MacroSubject {
            entry: entry.ok_or(case.wrong("entry"))?,
            method: method_of(case)?,
        })
    }
}

/// The library of a case.
pub fn library_of(alloc: Global, case: &NamedCase<'_>) -> Result<Library, CaseFault> {
    let text = case.text("library")?;
    if text.len() > LIMIT {
        return Err(case.wrong("library"));
    }
    match Library::read(alloc, text) {
        Ok(library) => Ok(library),
        Err(LibraryFault::NotALibrary { .. }) => Err(case.wrong("library")),
        Err(LibraryFault::Memory) => Err(CaseFault::Memory),
    }
}

// The way of verifying that a case names by its edition of the rules.
fn method_of(case: &NamedCase<'_>) -> Result<Method, CaseFault> {
    let name = case.word_if_any("rules")?.unwrap_or("1");
    for (edition, method) in METHODS.iter() {
        if *edition == name {
            return Ok(*method);
        }
    }
    Err(case.wrong("rules"))
}
