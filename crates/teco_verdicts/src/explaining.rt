//! `explain` of a macro: its elements, and what is known before each.
ghost use Rattle.std.specs.Prelude.{◌≡◌};

use crate::linear::tell_refused;
use crate::listing::list_claimed;
use std::alloc::{AllocError, Global};
use std::io::Write;
use teco_acceptance::{
    changes_in_words, claimed_by, read_library, refuse, tell_premise, words_of, words_of_choice,
};
use teco_base::Reg;
use teco_console::{
    AnswerFault, Console, Edition, Method, Outcome, Request, Shelf, Sourced, element_at, written,
};
use teco_library::Library;
use teco_paths::search::ClaimSearch;
use teco_promise::Promise;
use teco_source::{LineAndByte, Shown};
use teco_verify::{Account, account_of};

/// The name of a register, or a hyphen.
pub fn name_of(register: Option<Reg>) -> char {
    match register {
        None => '-',
        Some(register) => char::from(register.name()),
    }
}

/// The text of a register, or none.
pub fn text_of(library: &Library, register: Option<Reg>) -> &[u8] {
    match register {
        None => &[],
        Some(register) => library.text(register).unwrap_or(&[]),
    }
}

/// A place of the text of a register of this name as it is listed, with what stands there; `is_end` where
/// that is the end of the text.
pub fn shown_place(
    alloc: Global,
    name: char,
    text: &[u8],
    place: usize,
    is_end: bool,
) -> Result<String, AllocError> {
    let LineAndByte { line, column } = LineAndByte::of(text, place);
    if is_end {
        return format!(in alloc; "{name}:{line}:{column}\t(return)");
    }
    let found = Shown(element_at(text, place));
    format!(in alloc; "{name}:{line}:{column}\t{found}")
}

// An element as it is listed: where it stands, and what it is.
fn shown_element(
    alloc: Global,
    library: &Library,
    account: &Account<'_>,
    number: usize,
) -> Result<String, AllocError> {
    let name = name_of(account.register(number));
    if number == 1 {
        return format!(in alloc; "-:1:1\tM{name}");
    }
    let text = text_of(library, account.register(number));
    let place = account.begin(number).unwrap_or(0);
    let is_end = account.element(number).is_none();
    shown_place(alloc, name, text, place, is_end)
}

// What is known before an element, in words, or a hyphen.
fn words_at(alloc: Global, account: &Account<'_>, number: usize) -> Result<String, AllocError> {
    match account.known(number) {
        None => String::from_str(alloc, "-"),
        Some(known) => words_of(alloc, &known),
    }
}

// Lists what is known before an element, behind what it is.
fn list_known<O: Write + Drop, E: Write + Drop>(
    console: &mut Console<O, E>,
    account: &Account<'_>,
    number: usize,
    shown: &str,
) -> Result<(), AnswerFault> {
    let words = words_at(console.alloc, account, number)?;
    written(console.answer(format_args!("{number}\t{shown}\t{words}\n")))
}

// Lists what is chosen for the iteration that an element begins, if it begins one.
fn list_choice<O: Write + Drop, E: Write + Drop>(
    console: &mut Console<O, E>,
    account: &Account<'_>,
    number: usize,
) -> Result<(), AnswerFault> {
    let Some(choice) = account.choice(number) else {
        return Ok(());
    };
    let words = words_of_choice(console.alloc, &choice, account.turns(number))?;
    written(console.answer(format_args!("\t\t\t{words}\n")))
}

// Lists an element, and what is known before it.
fn list_element<O: Write + Drop, E: Write + Drop>(
    console: &mut Console<O, E>,
    library: &Library,
    account: &Account<'_>,
    number: usize,
) -> Result<(), AnswerFault> {
    let shown = shown_element(console.alloc, library, account, number)?;
    list_known(console, account, number, shown.as_str())
}

// Lists the elements of a macro in turn.
fn list_elements<O: Write + Drop, E: Write + Drop>(
    console: &mut Console<O, E>,
    library: &Library,
    account: &Account<'_>,
) -> Result<(), AnswerFault> {
    let last = account.stop().unwrap_or(account.len());
    for before in 0..last {
        let number = before.saturating_add(1);
        list_element(console, library, account, number)?;
        list_choice(console, account, number)?;
    }
    Ok(())
}

/// Prints what an accepted macro can change, and that it is accepted.
pub(crate) fn print_accepted<O: Write + Drop, E: Write + Drop>(
    console: &mut Console<O, E>,
    promise: &Promise<'_>,
) -> Result<(), AnswerFault> {
    let changes = changes_in_words(console.alloc, promise)?;
    written(console.answer(format_args!("changes: {changes}\naccepted\n")))
}

// Prints the verdict behind the elements.
fn conclude<O: Write + Drop, E: Write + Drop>(
    console: &mut Console<O, E>,
    sourced: &Sourced,
    account: &Account<'_>,
) -> Result<Outcome, AnswerFault> {
    match account.verdict() {
        Ok(verified) => {
            let promise = verified.promise();
            print_accepted(console, &promise)?;
            tell_premise(
                &mut console.voice,
                &sourced.source,
                &promise,
                Edition::First,
            )?;
            Ok(Outcome::Done)
        }
        Err(refusal) => refuse(console, &sourced.source, refusal, Edition::First),
    }
}

// Lists what an account tells, and the verdict behind it.
fn list_account<O: Write + Drop, E: Write + Drop>(
    console: &mut Console<O, E>,
    sourced: &Sourced,
    account: &Account<'_>,
) -> Result<Outcome, AnswerFault> {
    console.answer("number\tplace\telement\tknown before it\n")?;
    list_elements(console, &sourced.library, account)?;
    conclude(console, sourced, account)
}

// Explains a macro of a library by its table.
fn explain_table<O: Write + Drop, E: Write + Drop>(
    console: &mut Console<O, E>,
    sourced: &Sourced,
    entry: Reg,
) -> Result<Outcome, AnswerFault> {
    let account = account_of(console.alloc, &sourced.library, entry)?;
    list_account(console, sourced, &account)
}

// Explains a macro of a library by its claims, or by its table where that alone accepts it.
fn explain_by_either<S: ClaimSearch, O: Write + Drop, E: Write + Drop>(
    console: &mut Console<O, E>,
    sourced: &Sourced,
    entry: Reg,
) -> Result<Outcome, AnswerFault> {
    match claimed_by::<S>(console.means(), &sourced.library, entry) {
        Ok(claimed) => list_claimed(console, sourced, &claimed),
        Err(unclaimed) => {
            let account = account_of(console.alloc, &sourced.library, entry)?;
            if account.verdict().is_ok() {
                return list_account(console, sourced, &account);
            }
            tell_refused::<S, _, _>(
                console,
                &sourced.source,
                &sourced.library,
                entry,
                &unclaimed,
            )
        }
    }
}

// Explains a macro of a library by its claims.
fn explain_claims<S: ClaimSearch, O: Write + Drop, E: Write + Drop>(
    console: &mut Console<O, E>,
    sourced: &Sourced,
    entry: Reg,
) -> Result<Outcome, AnswerFault> {
    match claimed_by::<S>(console.means(), &sourced.library, entry) {
        Ok(claimed) => list_claimed(console, sourced, &claimed),
        Err(unclaimed) => tell_refused::<S, _, _>(
            console,
            &sourced.source,
            &sourced.library,
            entry,
            &unclaimed,
        ),
    }
}

// Explains a macro of a library by a method.
fn explain_by_method<S: ClaimSearch, O: Write + Drop, E: Write + Drop>(
    console: &mut Console<O, E>,
    sourced: &Sourced,
    entry: Reg,
) -> Result<Outcome, AnswerFault> {
    match sourced.method {
        Method::Only(Edition::First) => explain_table(console, sourced, entry),
        Method::Only(Edition::Second) => explain_claims::<S, _, _>(console, sourced, entry),
        Method::Best => explain_by_either::<S, _, _>(console, sourced, entry),
    }
}

/// Lists the elements that a macro of a library comes to, up to the one at which it is refused,
/// with what is known before each, what is chosen for each iteration, and the verdict.
pub fn explain_macro<S: ClaimSearch, R: Shelf, O: Write + Drop, E: Write + Drop>(
    rt: &R,
    console: &mut Console<O, E>,
    request: Request<'_>,
    entry: Reg,
) -> Result<Outcome, AnswerFault> {
    match read_library(rt, console, request)? {
        Some(sourced) => explain_by_method::<S, _, _>(console, &sourced, entry),
        None => Ok(Outcome::Refused),
    }
}
