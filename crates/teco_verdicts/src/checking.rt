//! `check`: certificates are checked.
ghost use Rattle.std.specs.Prelude.{◌≡◌, IfOk, codes};
ghost use Rattle.teco_verdicts.specs.Answers.{Answers, AnswersFor, ChecksByTable, OfText};
ghost use Rattle.teco_verdicts.specs.Methods.{ChecksBy, ChecksFor, ChecksIn};
ghost use Rattle.teco_console.specs.Output.{Writes};
ghost use Rattle.teco_console.specs.declared.outcome.Outcome.TheVariants.{Done};

use crate::linear::check_claims;
use std::io::Write;
use teco_acceptance::{ClaimedCertificate, library_of, refuse, refuse_claim, tell_premise};
use teco_base::Reg;
use teco_console::{
    AnswerFault, Console, Edition, Method, Outcome, Request, Shelf, Sourced, read_source,
};
use teco_source::Source;
use teco_verify::Verified;

// Says that a certificate is accepted.
#[tactic(auto, using(teco_console::proofs::Fronts::whole_front))]
fn tell_accepted<O: Write + Drop, E: Write + Drop>(
    console: &mut Console<O, E>,
    sourced: &Sourced,
    verified: &Verified<'_>,
) -> Result<Outcome, AnswerFault>
    ensures outcome { IfOk result (λ outcome. outcome ≡ Done) }
    ensures line { Writes (O.contents console.old.out) (O.contents console.new.out)
        (codes "accepted\n") result }
{
    console.answer("accepted\n")?;
    tell_premise(
        &mut console.voice,
        &sourced.source,
        &verified.promise(),
        Edition::First,
    )?;
    Ok(Outcome::Done)
}

// Accepts a certificate by a table, or says why not.
#[tactic(auto, using(crate::proofs::Answering::of_accepted, crate::proofs::Answering::of_denied))]
fn check_table<O: Write + Drop, E: Write + Drop>(
    console: &mut Console<O, E>,
    sourced: &Sourced,
    entry: Reg,
    claim: &ClaimedCertificate<'_>,
) -> Result<Outcome, AnswerFault>
    ensures { Answers (ChecksByTable claim.now.bytes.items sourced.now.library entry)
        (O.contents console.old.out) (O.contents console.new.out) result }
{
    match claim.accept(console.alloc, &sourced.library, entry) {
        Ok(verified) => {
            verified.is_certified();
            tell_accepted(console, sourced, &verified)
        }
        Err(refusal) => refuse_claim(console, sourced, entry, claim, refusal),
    }
}

// Accepts a certificate by an edition of the rules, or says why not.
fn check_by_edition<O: Write + Drop, E: Write + Drop>(
    console: &mut Console<O, E>,
    sourced: &Sourced,
    edition: Edition,
    entry: Reg,
    claim: &ClaimedCertificate<'_>,
) -> Result<Outcome, AnswerFault>
    ensures { Answers (ChecksIn edition claim.now.bytes.items sourced.now.library entry)
        (O.contents console.old.out) (O.contents console.new.out) result }
{
    match edition {
        Edition::First => check_table(console, sourced, entry, claim),
        Edition::Second => check_claims(console, sourced, entry, claim),
    }
}

/// Accepts a certificate by a method, or says why not.
#[tactic(auto, using(crate::proofs::Answering::checks_by))]
pub fn check_by_method<O: Write + Drop, E: Write + Drop>(
    console: &mut Console<O, E>,
    sourced: &Sourced,
    entry: Reg,
    claim: &ClaimedCertificate<'_>,
) -> Result<Outcome, AnswerFault>
    ensures { Answers (ChecksBy sourced.now.method claim.now.bytes.items sourced.now.library entry)
        (O.contents console.old.out) (O.contents console.new.out) result }
{
    let edition = claim.edition_by(sourced.method);
    check_by_edition(console, sourced, edition, entry, claim)
}

// Checks a certificate of a macro of the library that a source says.
#[tactic(auto, using(crate::proofs::Answering::of_library, crate::proofs::Answering::of_no_library))]
fn check_source<O: Write + Drop, E: Write + Drop>(
    console: &mut Console<O, E>,
    source: Source,
    method: Method,
    entry: Reg,
    claim: &ClaimedCertificate<'_>,
) -> Result<Outcome, AnswerFault>
    ensures { Answers (OfText (λ library. ChecksBy method claim.now.bytes.items library entry)
        source) (O.contents console.old.out) (O.contents console.new.out) result }
{
    match library_of(console.alloc, &source) {
        Ok(library) => {
            let sourced = Sourced {
                source,
                library,
                method,
            };
            check_by_method(console, &sourced, entry, claim)
        }
        Err(refusal) => refuse(console, &source, refusal, Edition::First),
    }
}

// Checks a certificate of a macro of the library that a request names.
fn check_in<R: Shelf, O: Write + Drop, E: Write + Drop>(
    rt: &R,
    console: &mut Console<O, E>,
    request: Request<'_>,
    entry: Reg,
    claim: &ClaimedCertificate<'_>,
) -> Result<Outcome, AnswerFault>
    ensures { AnswersFor (R.holds rt.now) request.entry
        (λ library. ChecksBy request.entry.method claim.now.bytes.items library entry)
        (O.contents console.old.out) (O.contents console.new.out) result }
{
    let source = read_source(rt, console.alloc, request)?;
    check_source(console, source, request.method, entry, claim)
}

/// Checks a certificate of a macro of a library.
pub fn check_macro<R: Shelf, O: Write + Drop, E: Write + Drop>(
    rt: &R,
    console: &mut Console<O, E>,
    request: Request<'_>,
    entry: Reg,
    name: &str,
) -> Result<Outcome, AnswerFault>
    ensures { ChecksFor (R.holds rt.now) request.entry entry name.now
        (O.contents console.old.out) (O.contents console.new.out) result }
{
    let claim = ClaimedCertificate::read(rt, console.alloc, name)?;
    check_in(rt, console, request, entry, &claim)
}
