//! `verify --changes`: what macros can change.
ghost use Rattle.teco_acceptance.specs.Refused.{ReadsNone};

use crate::change_objects::changes_object;
use crate::json::{answer_no_library, answer_refused, print};
use crate::verifying::tell_refused;
use std::io::Write;
use teco_acceptance::{changes_in_words, library_of, refuse, refuse_macro, verified_by};
use teco_base::Reg;
use teco_console::{
    AnswerFault, Console, NAMES, Outcome, Request, Shelf, Sourced, macro_named, read_source,
};
use teco_library::Library;
use teco_paths::search::ClaimSearch;
use teco_promise::Promise;
use teco_source::Source;
use teco_verify::Refusal;

/// How it is printed what a macro can change.
#[derive(Clone, Copy)]
pub enum ChangesForm {
    /// In words.
    Words,
    /// As an object of JSON.
    Object,
}

// Prints what the macro of a promise can change.
fn answer_changes<O: Write + Drop, E: Write + Drop>(
    console: &mut Console<O, E>,
    promise: &Promise<'_>,
    form: ChangesForm,
) -> Result<Outcome, AnswerFault> {
    match form {
        ChangesForm::Words => {
            let words = changes_in_words(console.alloc, promise)?;
            console.answer(format_args!("{words}\n"))?;
            Ok(Outcome::Done)
        }
        ChangesForm::Object => {
            let object = changes_object(console.alloc, promise)?;
            print(console, &object, Outcome::Done)
        }
    }
}

// Prints what a macro can change, or why it is refused.
fn change_one<S: ClaimSearch, O: Write + Drop, E: Write + Drop>(
    console: &mut Console<O, E>,
    sourced: &Sourced,
    entry: Reg,
    form: ChangesForm,
) -> Result<Outcome, AnswerFault> {
    match verified_by::<S>(console.means(), &sourced.library, entry, sourced.method) {
        Ok(accepted) => answer_changes(console, &accepted.promise(), form),
        Err(unaccepted) => match form {
            ChangesForm::Words => refuse_macro::<S, _, _>(console, sourced, entry, unaccepted),
            ChangesForm::Object => answer_refused(console, sourced, entry, &unaccepted),
        },
    }
}

// Prints the name of a macro of several, and what it can change or why it is refused.
fn change_named<S: ClaimSearch, O: Write + Drop, E: Write + Drop>(
    console: &mut Console<O, E>,
    sourced: &Sourced,
    entry: Reg,
) -> Result<Outcome, AnswerFault> {
    let name = char::from(entry.name());
    match verified_by::<S>(console.means(), &sourced.library, entry, sourced.method) {
        Ok(accepted) => {
            console.answer(format_args!("{name}: "))?;
            answer_changes(console, &accepted.promise(), ChangesForm::Words)
        }
        Err(unaccepted) => tell_refused(console, sourced, name, &unaccepted),
    }
}

// Prints what each macro of a library can change.
fn change_each<S: ClaimSearch, O: Write + Drop, E: Write + Drop>(
    console: &mut Console<O, E>,
    sourced: &Sourced,
    form: ChangesForm,
) -> Result<Outcome, AnswerFault> {
    let mut outcome = Outcome::Done;
    for name in NAMES {
        if let Some(entry) = macro_named(&sourced.library, *name) {
            outcome = outcome.worse(match form {
                ChangesForm::Words => change_named::<S, _, _>(console, sourced, entry)?,
                ChangesForm::Object => change_one::<S, _, _>(console, sourced, entry, form)?,
            });
        }
    }
    Ok(outcome)
}

// The macro of a library that has no other.
fn sole_macro(library: &Library) -> Option<Reg> {
    let mut sole = None;
    for name in NAMES {
        if let Some(entry) = macro_named(library, *name) {
            if sole.is_some() {
                return None;
            }
            sole = Some(entry);
        }
    }
    sole
}

// Prints that a source says no library, and where.
fn tell_no_library<O: Write + Drop, E: Write + Drop>(
    console: &mut Console<O, E>,
    source: &Source,
    request: Request<'_>,
    refusal: Refusal,
    form: ChangesForm,
) -> Result<Outcome, AnswerFault>
    requires { ReadsNone source.now refusal }
{
    match form {
        ChangesForm::Words => refuse(console, source, refusal, request.method.newest()),
        ChangesForm::Object => answer_no_library(console, source, &refusal),
    }
}

/// Verifies a macro, or each macro of a library where none is named, and prints what it can change; or
/// why it is refused. In words it is a line, behind the name of the macro where there are several.
pub fn tell_changes<S: ClaimSearch, R: Shelf, O: Write + Drop, E: Write + Drop>(
    rt: &R,
    console: &mut Console<O, E>,
    request: Request<'_>,
    entry: Option<Reg>,
    form: ChangesForm,
) -> Result<Outcome, AnswerFault> {
    let source = read_source(rt, console.alloc, request)?;
    let library = match library_of(console.alloc, &source) {
        Ok(library) => library,
        Err(refusal) => return tell_no_library(console, &source, request, refusal, form),
    };
    let sole = entry.or(sole_macro(&library));
    let sourced = Sourced {
        source,
        library,
        method: request.method,
    };
    match sole {
        Some(entry) => change_one::<S, _, _>(console, &sourced, entry, form),
        None => change_each::<S, _, _>(console, &sourced, form),
    }
}
