//! Library files with their sources.
ghost use Rattle.std.specs.Prelude.{◌≤◌, IfOk};
ghost use Rattle.std.specs.Result.{IfErr};
ghost use Rattle.teco_base.specs.declared.TheConstants.{LIMIT};
ghost use Rattle.teco_library.specs.Reads.{Reads};
ghost use Rattle.teco_acceptance.specs.Accepted.{IsAccepted};
ghost use Rattle.teco_acceptance.specs.Refused.{ReadsNone};

use crate::acceptance::{Accepted, verified_by};
use crate::claim::{ClaimedCertificate, accepted};
use crate::refusing::refuse;
use crate::unaccepted::Unaccepted;
use std::alloc::Global;
use std::io::Write;
use teco_base::{LIMIT, Reg};
use teco_console::{
    AnswerFault, Console, Edition, Means, Method, ReadLibrary, Request, Setting, Shelf, Sourced,
    read_source,
};
use teco_explain::Explained;
use teco_library::{Library, LibraryFault};
use teco_paths::search::ClaimSearch;
use teco_source::Source;
use teco_verifier::RefusalReason as Why;
use teco_verify::Refusal;

/// The library that a source says.
pub fn library_of(alloc: Global, source: &Source) -> Result<Library, Refusal>
    ensures library { IfOk result (λ library. Reads source.now (Ok library)) }
    ensures none { IfErr result (ReadsNone source.now) }
{
    if source.text().len() > LIMIT {
        return Err(Refusal::Memory);
    }
    match Library::read(alloc, source.text()) {
        Ok(library) => Ok(library),
        Err(LibraryFault::NotALibrary { place }) => Err(Refusal::No {
            why: Why::Library,
            register: None,
            place,
        }),
        Err(LibraryFault::Memory) => Err(Refusal::Memory),
    }
}

// The library that a source says. Where it says none, the refusal is printed, and there is none.
fn library_in<O: Write + Drop, E: Write + Drop>(
    console: &mut Console<O, E>,
    source: Source,
    method: Method,
) -> Result<Option<Sourced>, AnswerFault> {
    match library_of(console.alloc, &source) {
        Ok(library) => Ok(Some(Sourced {
            source,
            library,
            method,
        })),
        Err(refusal) => {
            refuse(console, &source, refusal, Edition::First)?;
            Ok(None)
        }
    }
}

/// Reads a library. Where the file is none, the refusal is printed, and there is none.
pub fn read_library<R: Shelf, O: Write + Drop, E: Write + Drop>(
    rt: &R,
    console: &mut Console<O, E>,
    request: Request<'_>,
) -> Result<Option<Sourced>, AnswerFault> {
    let source = read_source(rt, console.alloc, request)?;
    library_in(console, source, request.method)
}

/// The macro of a library that is to be run, and what registers are given before.
#[derive(Clone, Copy)]
pub struct Setup<'a> {
    pub settings: &'a [Setting],
    /// May these texts become a part of the library, so that the verifier knows their lengths?
    pub is_open: bool,
}

// Refuses a text for a register that the library gives one.
fn check_settings(library: &Library, settings: &[Setting]) -> Result<(), AnswerFault> {
    for given in settings {
        if library.contains(given.register()) {
            return Err(AnswerFault::Taken {
                register: char::from(given.register().name()),
            });
        }
    }
    Ok(())
}

// A library with the texts that registers are given, if they and it are one.
fn fixed_library<O: Write + Drop, E: Write + Drop>(
    console: &mut Console<O, E>,
    written: &ReadLibrary<'_>,
    settings: &[Setting],
    method: Method,
) -> Result<Option<Sourced>, AnswerFault> {
    let source = written.source_with(console.alloc, settings)?;
    library_in(console, source, method)
}

/// A library that is read for the run of a macro.
#[derive(Drop)]
pub struct ReadFor {
    /// What registers are given is a part of it, where that may be.
    pub sourced: Sourced,
    /// The library alone, where that is another.
    pub alone: Option<Sourced>,
}

/// A macro that is accepted, with its library.
#[derive(Drop)]
pub struct AcceptedMacro<'l> {
    pub sourced: &'l Sourced,
    pub accepted: Accepted<'l>,
}

/// A macro that is refused, with its library.
#[derive(Drop)]
pub struct UnacceptedMacro<'l> {
    pub sourced: &'l Sourced,
    pub unaccepted: Unaccepted,
}

impl ReadFor {
    /// The macro, by its certificate if there is one, or verified; by the library alone where it is refused
    /// with what registers are given.
    pub fn accepted<S: ClaimSearch>(
        &self,
        means: Means,
        entry: Reg,
        claim: Option<&ClaimedCertificate<'_>>,
    ) -> Result<AcceptedMacro<'_>, UnacceptedMacro<'_>>
        ensures { IfOk result (λ found. IsAccepted found.sourced.now.library entry found.accepted) }
    {
        let sourced = &self.sourced;
        match accepted::<S>(means, &sourced.library, entry, sourced.method, claim) {
            Ok(accepted) => {
                accepted.is_proved();
                Ok(AcceptedMacro { sourced, accepted })
            }
            Err(unaccepted) => self.accepted_alone::<S>(means, entry, unaccepted),
        }
    }

    // The macro by the library alone, if there is one. Where that refuses it too, it is to blame only if
    // the macro writes what registers are given.
    fn accepted_alone<S: ClaimSearch>(
        &self,
        means: Means,
        entry: Reg,
        unaccepted: Unaccepted,
    ) -> Result<AcceptedMacro<'_>, UnacceptedMacro<'_>>
        ensures { IfOk result (λ found. IsAccepted found.sourced.now.library entry found.accepted) }
    {
        let sourced = &self.sourced;
        let Some(alone) = &self.alone else {
            return Err(UnacceptedMacro {
                sourced,
                unaccepted,
            });
        };
        match verified_by::<S>(means, &alone.library, entry, alone.method) {
            Ok(accepted) => {
                accepted.is_proved();
                Ok(AcceptedMacro {
                    sourced: alone,
                    accepted,
                })
            }
            Err(unaccepted_alone) if unaccepted.is_written() => Err(UnacceptedMacro {
                sourced: alone,
                unaccepted: unaccepted_alone,
            }),
            Err(_) => Err(UnacceptedMacro {
                sourced,
                unaccepted,
            }),
        }
    }
}

/// Reads a library for the run of a macro. Where the file is none, the refusal is printed, and there is
/// none.
pub fn read_library_for<R: Shelf, O: Write + Drop, E: Write + Drop>(
    rt: &R,
    console: &mut Console<O, E>,
    request: Request<'_>,
    setup: Setup<'_>,
) -> Result<Option<ReadFor>, AnswerFault> {
    let written = ReadLibrary::read(rt, console.alloc, request)?;
    let source = written.source(console.alloc)?;
    let Some(plain) = library_in(console, source, request.method)? else {
        return Ok(None);
    };
    check_settings(&plain.library, setup.settings)?;
    if setup.settings.is_empty() || !setup.is_open {
        return Ok(Some(ReadFor {
            sourced: plain,
            alone: None,
        }));
    }
    let read = match fixed_library(console, &written, setup.settings, request.method)? {
        Some(fixed) => ReadFor {
            sourced: fixed,
            alone: Some(plain),
        },
        None => ReadFor {
            sourced: plain,
            alone: None,
        },
    };
    Ok(Some(read))
}

/// What a refusal of a macro of this source by an edition of the rules is for people; none for want of
/// memory.
pub fn explained<'a>(
    source: &'a Source,
    refusal: &Refusal,
    edition: Edition,
) -> Option<Explained<'a>> {
    match refusal {
        Refusal::No {
            why,
            register,
            place,
        } => Some(Explained {
            source,
            why: *why,
            register: *register,
            place: *place,
            is_by_table: edition == Edition::First,
        }),
        Refusal::Memory => None,
    }
}
