//! `verify`: macros of a library are verified.
ghost use Rattle.std.specs.Prelude.{◌≡◌, IfOk};
ghost use Rattle.teco_certificate.specs.Text.{certificate_text};
ghost use Rattle.teco_verdicts.specs.Answers.{Answers, AnswersFor, OfText, VerdictByTable};
ghost use Rattle.teco_verdicts.specs.Methods.{VerdictBy, VerdictIn};
ghost use Rattle.teco_console.specs.Output.{Writes};
ghost use Rattle.teco_console.specs.declared.method.Method.TheVariants.{Best};
ghost use Rattle.teco_console.specs.declared.outcome.Outcome.TheVariants.{Done, Refused};

use crate::linear::{accept_claims, tell_refused as tell_unclaimed, verify_claims};
use std::io::Write;
use teco_acceptance::{
    Accepted, Held, Unaccepted, Verdict, claimed_by, explained, library_of, read_library, refuse,
    refuse_known, tell_premise, verified_by, words_of_witness,
};
use teco_base::Reg;
use teco_console::{
    AnswerFault, Console, Edition, Method, NAMES, Outcome, Request, SearchDoubts, Shelf, Sourced,
    macro_named, read_source, tell_dollars, write_bytes,
};
use teco_library::Library;
use teco_paths::search::ClaimSearch;
use teco_source::Source;
use teco_verify::{Refusal, Verified, account_of, verify};

// Prints bytes as they are.
fn print<O: Write + Drop, E: Write + Drop>(
    console: &mut Console<O, E>,
    bytes: &[u8],
) -> Result<(), AnswerFault>
    ensures { Writes (O.contents console.old.out) (O.contents console.new.out) bytes.now result }
{
    write_bytes(&mut console.out, bytes)?;
    Ok(())
}

// Prints the certificate of a macro.
#[tactic(auto, using(teco_console::proofs::Fronts::nothing))]
fn print_certificate<O: Write + Drop, E: Write + Drop>(
    console: &mut Console<O, E>,
    verified: &Verified<'_>,
) -> Result<(), AnswerFault>
    ensures { Writes (O.contents console.old.out) (O.contents console.new.out)
        (certificate_text verified.now.fields) result }
{
    let text = verified.certificate(console.alloc)?;
    print(console, text.as_slice())
}

// Prints the certificate of a macro of a source by its table, and says what it promises.
#[tactic(auto, using(teco_console::proofs::Fronts::whole_front))]
fn accept<O: Write + Drop, E: Write + Drop>(
    console: &mut Console<O, E>,
    source: &Source,
    verified: &Verified<'_>,
) -> Result<Outcome, AnswerFault>
    ensures outcome { IfOk result (λ outcome. outcome ≡ Done) }
    ensures text { Writes (O.contents console.old.out) (O.contents console.new.out)
        (certificate_text verified.now.fields) result }
{
    print_certificate(console, verified)?;
    let promise = verified.promise();
    tell_premise(&mut console.voice, source, &promise, Edition::First)?;
    let library = verified.library();
    SearchDoubts::new(console.alloc, source, false).tell(
        &mut console.voice,
        library,
        verified.entry(),
    );
    Ok(Outcome::Done)
}

// Prints the certificate of a macro of a library by a table, or why it is refused.
#[tactic(auto, using(crate::proofs::Answering::of_verified, crate::proofs::Answering::of_refused))]
fn verify_table<O: Write + Drop, E: Write + Drop>(
    console: &mut Console<O, E>,
    source: &Source,
    library: &Library,
    entry: Reg,
) -> Result<Outcome, AnswerFault>
    ensures { Answers (VerdictByTable library.now entry)
        (O.contents console.old.out) (O.contents console.new.out) result }
{
    let account = account_of(console.alloc, library, entry)?;
    match account.verdict() {
        Ok(verified) => {
            verified.is_certified();
            accept(console, source, verified)
        }
        Err(refusal) => refuse_known(console, source, &account, refusal),
    }
}

// Prints the certificate of a macro of a library by an edition of the rules, or why it is refused.
fn verify_by_edition<S: ClaimSearch, O: Write + Drop, E: Write + Drop>(
    console: &mut Console<O, E>,
    source: &Source,
    library: &Library,
    entry: Reg,
    edition: Edition,
) -> Result<Outcome, AnswerFault>
    ensures { Answers (VerdictIn edition library.now entry)
        (O.contents console.old.out) (O.contents console.new.out) result }
{
    match edition {
        Edition::First => verify_table(console, source, library, entry),
        Edition::Second => verify_claims::<S, _, _>(console, source, library, entry),
    }
}

// Prints the certificate of a macro of a library by claims, or by a table where there are none, or why
// there are none.
fn verify_by_either<S: ClaimSearch, O: Write + Drop, E: Write + Drop>(
    console: &mut Console<O, E>,
    source: &Source,
    library: &Library,
    entry: Reg,
) -> Result<Outcome, AnswerFault>
    ensures { Answers (VerdictBy Best library.now entry)
        (O.contents console.old.out) (O.contents console.new.out) result }
{
    let unclaimed = match claimed_by::<S>(console.means(), library, entry) {
        Ok(claimed) => {
            claimed.is_checked();
            return accept_claims(console, source, &claimed);
        }
        Err(unclaimed) => unclaimed,
    };
    match verify(console.alloc, library, entry) {
        Ok(verified) => {
            verified.is_certified();
            accept(console, source, &verified)
        }
        Err(Refusal::No { .. }) => {
            tell_unclaimed::<S, _, _>(console, source, library, entry, &unclaimed)
        }
        Err(Refusal::Memory) => Err(AnswerFault::Memory),
    }
}

// Prints the certificate of a macro of a library by a method, or why it is refused.
#[tactic(auto, using(crate::proofs::Answering::verdict_by))]
fn verify_by_method<S: ClaimSearch, O: Write + Drop, E: Write + Drop>(
    console: &mut Console<O, E>,
    source: &Source,
    library: &Library,
    entry: Reg,
    method: Method,
) -> Result<Outcome, AnswerFault>
    ensures { Answers (VerdictBy method library.now entry)
        (O.contents console.old.out) (O.contents console.new.out) result }
{
    match method {
        Method::Only(edition) => verify_by_edition::<S, _, _>(
            console, source, library, entry, edition,
        ),
        Method::Best => verify_by_either::<S, _, _>(console, source, library, entry),
    }
}

// Prints the certificate of a macro of the library that a source says, or why it is refused.
#[tactic(auto, using(crate::proofs::Answering::of_library, crate::proofs::Answering::of_no_library))]
fn verify_source<S: ClaimSearch, O: Write + Drop, E: Write + Drop>(
    console: &mut Console<O, E>,
    source: &Source,
    entry: Reg,
    method: Method,
) -> Result<Outcome, AnswerFault>
    ensures { Answers (OfText (λ library. VerdictBy method library entry) source.now)
        (O.contents console.old.out) (O.contents console.new.out) result }
{
    match library_of(console.alloc, source) {
        Ok(library) => verify_by_method::<S, _, _>(console, source, &library, entry, method),
        Err(refusal) => refuse(console, source, refusal, method.newest()),
    }
}

/// Verifies a macro of a library, and prints its certificate.
pub fn verify_macro<S: ClaimSearch, R: Shelf, O: Write + Drop, E: Write + Drop>(
    rt: &R,
    console: &mut Console<O, E>,
    request: Request<'_>,
    entry: Reg,
) -> Result<Outcome, AnswerFault>
    ensures { AnswersFor (R.holds rt.now) request.entry
        (λ library. VerdictBy request.entry.method library entry)
        (O.contents console.old.out) (O.contents console.new.out) result }
{
    let source = read_source(rt, console.alloc, request)?;
    verify_source::<S, _, _>(console, &source, entry, request.method)
}

// Prints that one macro of several is accepted.
fn tell_accepted<O: Write + Drop, E: Write + Drop>(
    console: &mut Console<O, E>,
    sourced: &Sourced,
    accepted: &Accepted<'_>,
) -> Result<Outcome, AnswerFault> {
    let name = char::from(accepted.entry().name());
    let edition = accepted.edition();
    let held = Held::of(console.alloc, &sourced.source, &accepted.promise(), edition)?;
    let scope = if held.is_empty() { ", for no text" } else { "" };
    console.answer(format_args!("{name}: accepted{scope}\n"))?;
    console.say(format_args!("{name}: {held}"));
    Ok(Outcome::Done)
}

// Says on what small world a macro fails that is refused, if one was found.
fn tell_witness<O: Write + Drop, E: Write + Drop>(
    console: &mut Console<O, E>,
    sourced: &Sourced,
    unaccepted: &Unaccepted,
) -> Result<(), AnswerFault> {
    if let Some(witness) = unaccepted.witness() {
        let words = words_of_witness(console.alloc, &sourced.source, &sourced.library, witness)?;
        console.say(format_args!("  {words}"));
    }
    Ok(())
}

/// Prints why one macro of several is refused.
pub(crate) fn tell_refused<O: Write + Drop, E: Write + Drop>(
    console: &mut Console<O, E>,
    sourced: &Sourced,
    name: char,
    unaccepted: &Unaccepted,
) -> Result<Outcome, AnswerFault> {
    let refusal = &unaccepted.refusal;
    let Some(verdict) = Verdict::of(refusal) else {
        return Err(AnswerFault::Memory);
    };
    console.answer(format_args!("{name}: {verdict}\n"))?;
    if let Some(told) = explained(&sourced.source, refusal, sourced.method.newest()) {
        console.say(told);
    }
    tell_witness(console, sourced, unaccepted)?;
    Ok(Outcome::Refused)
}

// Prints what comes of one macro of several.
fn verify_one<S: ClaimSearch, O: Write + Drop, E: Write + Drop>(
    console: &mut Console<O, E>,
    sourced: &Sourced,
    findings: &mut SearchDoubts<'_>,
    entry: Reg,
) -> Result<Outcome, AnswerFault> {
    let name = char::from(entry.name());
    let library = &sourced.library;
    match verified_by::<S>(console.means(), library, entry, sourced.method) {
        Ok(accepted) => {
            let outcome = tell_accepted(console, sourced, &accepted)?;
            findings.tell(&mut console.voice, library, entry);
            Ok(outcome)
        }
        Err(unaccepted) => tell_refused(console, sourced, name, &unaccepted),
    }
}

// Prints what comes of each macro of a library.
fn verify_each<S: ClaimSearch, O: Write + Drop, E: Write + Drop>(
    console: &mut Console<O, E>,
    sourced: &Sourced,
) -> Result<Outcome, AnswerFault> {
    let mut outcome = Outcome::Done;
    let mut findings = SearchDoubts::new(console.alloc, &sourced.source, false);
    for name in NAMES {
        if let Some(entry) = macro_named(&sourced.library, *name) {
            outcome = outcome.worse(verify_one::<S, _, _>(console, sourced, &mut findings, entry)?);
        }
    }
    if let Outcome::Refused = outcome {
        tell_dollars(&mut console.voice, &sourced.source);
    }
    Ok(outcome)
}

/// Verifies each macro of a library, A to Z and then 0 to 9, and prints a line for each.
pub fn verify_library<S: ClaimSearch, R: Shelf, O: Write + Drop, E: Write + Drop>(
    rt: &R,
    console: &mut Console<O, E>,
    request: Request<'_>,
) -> Result<Outcome, AnswerFault> {
    match read_library(rt, console, request)? {
        Some(sourced) => verify_each::<S, _, _>(console, &sourced),
        None => Ok(Outcome::Refused),
    }
}
