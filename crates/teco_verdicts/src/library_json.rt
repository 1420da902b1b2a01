//! Verdicts on the macros of a library, for machines: an object of JSON in each line.
ghost use Rattle.teco_console.specs.Macros as macros;
ghost use Rattle.teco_verdicts.specs.Each.{AnswersAll, AnswersNamed, LibraryObjectsFor, ObjectsOfAll};
ghost use Rattle.teco_verdicts.specs.Json.{ObjectBy};

use crate::json::{answer_no_library, answer_verdict};
use std::io::Write;
use teco_acceptance::library_of;
use teco_console::{
    AnswerFault, Console, Method, NAMES, Outcome, Request, Shelf, Sourced, macro_named, read_source,
};
use teco_paths::search::ClaimSearch;
use teco_source::Source;

// Prints the verdict on the macro of a name, if a library has it, and answers the worst outcome so far.
fn answer_named<S: ClaimSearch, O: Write + Drop, E: Write + Drop>(
    console: &mut Console<O, E>,
    sourced: &Sourced,
    name: u8,
    before: Outcome,
) -> Result<Outcome, AnswerFault>
    ensures { AnswersNamed (ObjectBy sourced.now.method sourced.now.library)
        (macros.macro_named sourced.now.library.texts name)
        (O.contents console.old.out) (O.contents console.new.out) before result }
{
    match macro_named(&sourced.library, name) {
        Some(entry) => match answer_verdict::<S, _, _>(console, sourced, entry) {
            Ok(outcome) => Ok(before.worse(outcome)),
            Err(fault) => Err(fault),
        },
        None => Ok(before),
    }
}

// Prints the verdict on each macro of a library.
fn answer_each<S: ClaimSearch, O: Write + Drop, E: Write + Drop>(
    console: &mut Console<O, E>,
    sourced: &Sourced,
) -> Result<Outcome, AnswerFault>
    ensures { AnswersAll (ObjectBy sourced.now.method sourced.now.library)
        sourced.now.library.texts (O.contents console.old.out) (O.contents console.new.out) result }
{
    let mut outcome = Outcome::Done;
    for name in NAMES {
        match answer_named::<S, _, _>(console, sourced, *name, outcome) {
            Ok(after) => outcome = after,
            Err(fault) => return Err(fault),
        }
    }
    Ok(outcome)
}

// Prints the verdict on each macro of the library that a source says.
fn answer_library<S: ClaimSearch, O: Write + Drop, E: Write + Drop>(
    console: &mut Console<O, E>,
    source: Source,
    method: Method,
) -> Result<Outcome, AnswerFault>
    ensures { ObjectsOfAll method source
        (O.contents console.old.out) (O.contents console.new.out) result }
{
    match library_of(console.alloc, &source) {
        Ok(library) => {
            let sourced = Sourced {
                source,
                library,
                method,
            };
            answer_each::<S, _, _>(console, &sourced)
        }
        Err(refusal) => answer_no_library(console, &source, &refusal),
    }
}

/// Verifies each macro of a library, A to Z and then 0 to 9, and prints an object of JSON for each,
/// in a line of its own.
pub fn verify_library_as_json<S: ClaimSearch, R: Shelf, O: Write + Drop, E: Write + Drop>(
    rt: &R,
    console: &mut Console<O, E>,
    request: Request<'_>,
) -> Result<Outcome, AnswerFault>
    ensures { LibraryObjectsFor (R.holds rt.now) request.entry
        (O.contents console.old.out) (O.contents console.new.out) result }
{
    let source = read_source(rt, console.alloc, request)?;
    answer_library::<S, _, _>(console, source, request.method)
}
