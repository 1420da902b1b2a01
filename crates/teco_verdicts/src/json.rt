//! Verdicts for machines: an object of JSON in each line.
ghost use Rattle.std.specs.Prelude.{◌≡◌, IfOk};
ghost use Rattle.teco_acceptance.specs.Accepted.{IsAmong, IsOf, edition_of};
ghost use Rattle.teco_acceptance.specs.Refused.{IsRefusedBy, ReadsNone};
ghost use Rattle.teco_console.specs.Output.{Writes};
ghost use Rattle.teco_verdicts.specs.Answers.{Answers};
ghost use Rattle.teco_verdicts.specs.Json.{CheckObjectBy, CheckObjectsFor, NoLibraryBy};
ghost use Rattle.teco_verdicts.specs.Json.{ObjectBy, ObjectsFor, ObjectsOfText};

use crate::checking::check_by_method;
use crate::objects::{Remark, object_of, refusal_text};
use std::alloc::{AllocError, Global};
use std::io::Write;
use teco_acceptance::{
    Accepted, ClaimedCertificate, MENDING, Unaccepted, Verdict, accepted, library_of, verified_by,
    words_of_witness,
};
use teco_base::Reg;
use teco_console::{
    AnswerFault, Console, Method, Outcome, Request, Shelf, Sourced, element_at, read_source,
    write_bytes,
};
use teco_explain::{note_of_refusal, position_in};
use teco_paths::search::ClaimSearch;
use teco_source::Source;
use teco_verifier::RefusalReason as Why;
use teco_verify::Refusal;
use teco_witness::Witness;

// A certificate that is refused.
const DENIED: Verdict = Verdict {
    why: Why::Certificate,
    register: None,
    place: 0,
};

/// Prints an object, and answers an outcome.
#[tactic(auto, using(teco_console::proofs::Fronts::whole_front))]
pub(crate) fn print<O: Write + Drop, E: Write + Drop>(
    console: &mut Console<O, E>,
    object: &[u8],
    outcome: Outcome,
) -> Result<Outcome, AnswerFault>
    ensures outcome { IfOk result (λ answered. answered ≡ outcome) }
    ensures object { Writes (O.contents console.old.out) (O.contents console.new.out) object.now
        result }
{
    write_bytes(&mut console.out, object)?;
    Ok(outcome)
}

// The place behind the element that a verdict is on, in a text.
fn end_in(text: &[u8], verdict: &Verdict) -> Option<usize> {
    match element_at(text, verdict.place).len() {
        0 => None,
        length => verdict.place.checked_add(length),
    }
}

// What is said of a verdict on the text of a register of a source, or on all of it.
fn remark_of(source: &Source, text: &[u8], verdict: &Verdict) -> Remark<'static> {
    let end = end_in(text, verdict);
    let note = note_of_refusal(verdict.why);
    Remark {
        begin: position_in(source, verdict.register, verdict.place),
        end: end.map(|end| end as u64),
        end_position: end.and_then(|end| position_in(source, verdict.register, end)),
        message: note.summary.as_bytes(),
        remedy: note.remedy,
        witness: None,
        witness_text: None,
    }
}

// In words, on what small world a macro fails, if one was found.
fn told_of(
    alloc: Global,
    sourced: &Sourced,
    witness: Option<&Witness>,
) -> Result<Option<String>, AllocError> {
    match witness {
        None => Ok(None),
        Some(witness) => {
            let words = words_of_witness(alloc, &sourced.source, &sourced.library, witness)?;
            Ok(Some(words))
        }
    }
}

// What is said of a verdict on a macro of a library, which fails on a small world that is told so.
fn remark_on<'a>(
    sourced: &Sourced,
    verdict: &Verdict,
    witness: Option<&'a Witness>,
    told: &'a Option<String>,
) -> Remark<'a> {
    let text = verdict
        .register
        .and_then(|register| sourced.library.text(register))
        .unwrap_or(&[]);
    Remark {
        witness: told.as_ref().map(|told| told.as_bytes()),
        witness_text: witness.map(|witness| witness.world.text.as_slice()),
        ..remark_of(&sourced.source, text, verdict)
    }
}

// Prints what a macro that is accepted promises.
fn answer_accepted<O: Write + Drop, E: Write + Drop>(
    console: &mut Console<O, E>,
    sourced: &Sourced,
    entry: Reg,
    accepted: &Accepted<'_>,
) -> Result<Outcome, AnswerFault>
    requires is { IsOf sourced.now.library entry accepted.now }
    requires among { IsAmong sourced.now.method (edition_of accepted.now) }
    ensures { Answers (ObjectBy sourced.now.method sourced.now.library entry)
        (O.contents console.old.out) (O.contents console.new.out) result }
{
    accepted.is_proved();
    let object = object_of(console.alloc, &accepted.promise())?;
    print(console, &object, Outcome::Done)
}

/// Prints why a macro is refused, and where.
pub(crate) fn answer_refused<O: Write + Drop, E: Write + Drop>(
    console: &mut Console<O, E>,
    sourced: &Sourced,
    entry: Reg,
    unaccepted: &Unaccepted,
) -> Result<Outcome, AnswerFault>
    requires { IsRefusedBy sourced.now.method sourced.now.library entry unaccepted.now.refusal }
    ensures { Answers (ObjectBy sourced.now.method sourced.now.library entry)
        (O.contents console.old.out) (O.contents console.new.out) result }
{
    let Some(verdict) = Verdict::of(&unaccepted.refusal) else {
        return Err(AnswerFault::Memory);
    };
    let witness = unaccepted.witness();
    let told = told_of(console.alloc, sourced, witness)?;
    let remark = remark_on(sourced, &verdict, witness, &told);
    let object = refusal_text(console.alloc, Some(entry), &verdict, &remark)?;
    print(console, &object, Outcome::Refused)
}

/// Prints that a source says no library, and where.
pub(crate) fn answer_no_library<O: Write + Drop, E: Write + Drop>(
    console: &mut Console<O, E>,
    source: &Source,
    refusal: &Refusal,
) -> Result<Outcome, AnswerFault>
    requires { ReadsNone source.now refusal.now }
    ensures { Answers (NoLibraryBy source.now) (O.contents console.old.out)
        (O.contents console.new.out) result }
{
    let Some(verdict) = Verdict::of(refusal) else {
        return Err(AnswerFault::Memory);
    };
    let remark = remark_of(source, source.text(), &verdict);
    let object = refusal_text(console.alloc, None, &verdict, &remark)?;
    print(console, &object, Outcome::Refused)
}

/// Prints the verdict on a macro.
pub(crate) fn answer_verdict<S: ClaimSearch, O: Write + Drop, E: Write + Drop>(
    console: &mut Console<O, E>,
    sourced: &Sourced,
    entry: Reg,
) -> Result<Outcome, AnswerFault>
    ensures { Answers (ObjectBy sourced.now.method sourced.now.library entry)
        (O.contents console.old.out) (O.contents console.new.out) result }
{
    match verified_by::<S>(console.means(), &sourced.library, entry, sourced.method) {
        Ok(accepted) => answer_accepted(console, sourced, entry, &accepted),
        Err(unaccepted) => answer_refused(console, sourced, entry, &unaccepted),
    }
}

// Prints the verdict on a macro of the library that a source says.
#[tactic(auto, using(crate::proofs::Stating::of_library, crate::proofs::Stating::of_no_library))]
fn answer_macro<S: ClaimSearch, O: Write + Drop, E: Write + Drop>(
    console: &mut Console<O, E>,
    source: Source,
    entry: Reg,
    method: Method,
) -> Result<Outcome, AnswerFault>
    ensures { Answers (ObjectsOfText (λ library. ObjectBy method library entry) source)
        (O.contents console.old.out) (O.contents console.new.out) result }
{
    match library_of(console.alloc, &source) {
        Ok(library) => {
            let sourced = Sourced {
                source,
                library,
                method,
            };
            answer_verdict::<S, _, _>(console, &sourced, entry)
        }
        Err(refusal) => answer_no_library(console, &source, &refusal),
    }
}

/// Verifies a macro of a library, and prints the verdict as an object of JSON: what an accepted macro
/// promises, or why and where it is refused.
pub fn verify_macro_as_json<S: ClaimSearch, R: Shelf, O: Write + Drop, E: Write + Drop>(
    rt: &R,
    console: &mut Console<O, E>,
    request: Request<'_>,
    entry: Reg,
) -> Result<Outcome, AnswerFault>
    ensures { ObjectsFor (R.holds rt.now) request.entry
        (λ library. ObjectBy request.entry.method library entry)
        (O.contents console.old.out) (O.contents console.new.out) result }
{
    let source = read_source(rt, console.alloc, request)?;
    answer_macro::<S, _, _>(console, source, entry, request.method)
}

// What is said of a certificate that is refused.
fn remark_in(said: &[u8]) -> Remark<'_> {
    Remark {
        begin: None,
        end: None,
        end_position: None,
        message: said.strip_suffix(b"\n").unwrap_or(said),
        remedy: MENDING.trim_ascii(),
        witness: None,
        witness_text: None,
    }
}

// Prints that a certificate is refused, and what is said of it.
fn answer_denied<O: Write + Drop, E: Write + Drop>(
    console: &mut Console<O, E>,
    sourced: &Sourced,
    entry: Reg,
    claim: &ClaimedCertificate<'_>,
) -> Result<Outcome, AnswerFault>
    ensures { Answers (CheckObjectBy sourced.now.method claim.now.bytes.items sourced.now.library entry)
        (O.contents console.old.out) (O.contents console.new.out) result }
{
    let alloc = console.alloc;
    let mut apart = Console::new(alloc, Vec::new(alloc), Vec::new(alloc));
    let Outcome::Refused = check_by_method(&mut apart, sourced, entry, claim)? else {
        return Err(AnswerFault::Memory);
    };
    let (_, said) = apart.into_parts();
    let remark = remark_in(&said);
    let object = refusal_text(alloc, Some(entry), &DENIED, &remark)?;
    print(console, &object, Outcome::Refused)
}

// Prints what a macro promises that a certificate is of, or that the certificate is refused.
fn answer_check<S: ClaimSearch, O: Write + Drop, E: Write + Drop>(
    console: &mut Console<O, E>,
    sourced: &Sourced,
    entry: Reg,
    claim: &ClaimedCertificate<'_>,
) -> Result<Outcome, AnswerFault>
    ensures { Answers (CheckObjectBy sourced.now.method claim.now.bytes.items sourced.now.library entry)
        (O.contents console.old.out) (O.contents console.new.out) result }
{
    let library = &sourced.library;
    match accepted::<S>(console.means(), library, entry, sourced.method, Some(claim)) {
        Ok(accepted) => {
            accepted.is_proved();
            let object = object_of(console.alloc, &accepted.promise())?;
            print(console, &object, Outcome::Done)
        }
        Err(unaccepted) => match unaccepted.refusal {
            Refusal::Memory => Err(AnswerFault::Memory),
            Refusal::No { .. } => answer_denied(console, sourced, entry, claim),
        },
    }
}

// Checks a certificate of a macro of the library that a source says.
#[tactic(auto, using(crate::proofs::Stating::of_library, crate::proofs::Stating::of_no_library))]
fn check_source<S: ClaimSearch, O: Write + Drop, E: Write + Drop>(
    console: &mut Console<O, E>,
    source: Source,
    method: Method,
    entry: Reg,
    claim: &ClaimedCertificate<'_>,
) -> Result<Outcome, AnswerFault>
    ensures { Answers (ObjectsOfText (λ library. CheckObjectBy method claim.now.bytes.items library entry)
        source) (O.contents console.old.out) (O.contents console.new.out) result }
{
    match library_of(console.alloc, &source) {
        Ok(library) => {
            let sourced = Sourced {
                source,
                library,
                method,
            };
            answer_check::<S, _, _>(console, &sourced, entry, claim)
        }
        Err(refusal) => answer_no_library(console, &source, &refusal),
    }
}

// Checks a certificate of a macro of the library that a request names.
fn check_in<S: ClaimSearch, R: Shelf, O: Write + Drop, E: Write + Drop>(
    rt: &R,
    console: &mut Console<O, E>,
    request: Request<'_>,
    entry: Reg,
    claim: &ClaimedCertificate<'_>,
) -> Result<Outcome, AnswerFault>
    ensures { ObjectsFor (R.holds rt.now) request.entry
        (λ library. CheckObjectBy request.entry.method claim.now.bytes.items library entry)
        (O.contents console.old.out) (O.contents console.new.out) result }
{
    let source = read_source(rt, console.alloc, request)?;
    check_source::<S, _, _>(console, source, request.method, entry, claim)
}

/// Checks a certificate of a macro of a library, and prints an object of JSON: what the macro promises,
/// or why the certificate is refused.
pub fn check_macro_as_json<S: ClaimSearch, R: Shelf, O: Write + Drop, E: Write + Drop>(
    rt: &R,
    console: &mut Console<O, E>,
    request: Request<'_>,
    entry: Reg,
    name: &str,
) -> Result<Outcome, AnswerFault>
    ensures { CheckObjectsFor (R.holds rt.now) request.entry entry name.now
        (O.contents console.old.out) (O.contents console.new.out) result }
{
    let claim = ClaimedCertificate::read(rt, console.alloc, name)?;
    check_in::<S, _, _, _>(rt, console, request, entry, &claim)
}
