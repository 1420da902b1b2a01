//! Verdicts by claims: the linear rules.
ghost use Rattle.std.specs.Prelude.{◌≡◌, IfOk};
ghost use Rattle.teco_claimed.specs.Claimed.{TakesDeclared};
ghost use Rattle.teco_claimed.specs.Text.{linear_text};
ghost use Rattle.teco_verdicts.specs.Answers.{Answers};
ghost use Rattle.teco_acceptance.specs.Refused.{Refuses, told_of};
ghost use Rattle.teco_verdicts.specs.Linear.{ChecksByClaims, VerdictByClaims};
ghost use Rattle.teco_console.specs.Output.{Writes};
ghost use Rattle.teco_console.specs.declared.outcome.Outcome.TheVariants.{Done, Refused};

use std::io::Write;
use teco_acceptance::{
    ClaimedCertificate, MENDING, RefusedMacro, Unclaimed, accepted_by_claims, claimed_by, is_whole,
    other_edition, reason_of, refusal_of, refusal_of_text, refuse, refuse_claim, tell_premise,
};
use teco_base::Reg;
use teco_claimed::{Claimed, LinearRefusal};
use teco_console::{AnswerFault, Console, Edition, Outcome, SearchDoubts, Sourced, write_bytes};
use teco_library::Library;
use teco_paths::search::ClaimSearch;
use teco_source::{Shown, Source};
use teco_verify::Refusal;

/// Prints the certificate of a macro of a source, and says what it promises.
pub fn accept_claims<O: Write + Drop, E: Write + Drop>(
    console: &mut Console<O, E>,
    source: &Source,
    claimed: &Claimed<'_>,
) -> Result<Outcome, AnswerFault>
    ensures outcome { IfOk result (λ outcome. outcome ≡ Done) }
    ensures text { Writes (O.contents console.old.out) (O.contents console.new.out)
        (linear_text claimed.now.certificate) result }
{
    let text = claimed.certificate(console.alloc)?;
    write_bytes(&mut console.out, text.as_slice())?;
    tell_premise(
        &mut console.voice,
        source,
        &claimed.promise(),
        Edition::Second,
    )?;
    let library = claimed.library();
    SearchDoubts::new(console.alloc, source, false).tell(
        &mut console.voice,
        library,
        claimed.entry(),
    );
    Ok(Outcome::Done)
}

// Says why a macro of a library is refused by claims, and the reason in lines, if there are some.
fn refuse_claims<O: Write + Drop, E: Write + Drop>(
    console: &mut Console<O, E>,
    source: &Source,
    refusal: Refusal,
    refused: &LinearRefusal,
    reason: &str,
) -> Result<Outcome, AnswerFault>
    ensures outcome { IfOk result (λ outcome. outcome ≡ Refused) }
    ensures line { Refuses (O.contents console.old.out) (O.contents console.new.out) refusal
        result }
{
    let outcome = refuse(console, source, refusal, Edition::Second)?;
    console.say(format_args!("  {refused}"));
    if !reason.is_empty() {
        console.say(reason);
    }
    Ok(outcome)
}

/// Says why there are no claims of a macro of a library, and on what it fails, if that was found.
pub fn tell_refused<S: ClaimSearch, O: Write + Drop, E: Write + Drop>(
    console: &mut Console<O, E>,
    source: &Source,
    library: &Library,
    entry: Reg,
    unclaimed: &Unclaimed,
) -> Result<Outcome, AnswerFault>
    ensures { Answers (VerdictByClaims library.now entry)
        (O.contents console.old.out) (O.contents console.new.out) result }
{
    let unverified = &unclaimed.unverified;
    let refusal = refusal_of(console.alloc, library, entry, &unverified.refusal);
    let refused = RefusedMacro {
        source,
        library,
        entry,
        refusal: &refusal,
    };
    let reason = reason_of::<S>(console.alloc, &refused, unclaimed);
    refuse_claims(
        console,
        source,
        refusal,
        &unverified.refusal,
        reason.as_str(),
    )
}

// Prints the certificate of a macro of a library by claims that were found, or why there are none.
fn answer_claims<S: ClaimSearch, O: Write + Drop, E: Write + Drop>(
    console: &mut Console<O, E>,
    source: &Source,
    library: &Library,
    entry: Reg,
    found: Result<Claimed<'_>, Unclaimed>,
) -> Result<Outcome, AnswerFault>
    requires library { IfOk found (λ claimed. claimed.library ≡ library.now) }
    requires declared { IfOk found (λ claimed. TakesDeclared library.now claimed.certificate) }
    requires entry { IfOk found (λ claimed. claimed.certificate.entry ≡ entry) }
    ensures { Answers (VerdictByClaims library.now entry)
        (O.contents console.old.out) (O.contents console.new.out) result }
{
    match found {
        Ok(claimed) => {
            claimed.is_checked();
            accept_claims(console, source, &claimed)
        }
        Err(unclaimed) => tell_refused::<S, _, _>(console, source, library, entry, &unclaimed),
    }
}

/// Prints the certificate of a macro of a library by claims, or why it is refused.
pub fn verify_claims<S: ClaimSearch, O: Write + Drop, E: Write + Drop>(
    console: &mut Console<O, E>,
    source: &Source,
    library: &Library,
    entry: Reg,
) -> Result<Outcome, AnswerFault>
    ensures { Answers (VerdictByClaims library.now entry)
        (O.contents console.old.out) (O.contents console.new.out) result }
{
    let found = claimed_by::<S>(console.means(), library, entry);
    answer_claims::<S, _, _>(console, source, library, entry, found)
}

// Prints why a certificate by claims is refused.
fn refuse_linear<O: Write + Drop, E: Write + Drop>(
    console: &mut Console<O, E>,
    sourced: &Sourced,
    entry: Reg,
    claim: &ClaimedCertificate<'_>,
    refused: &LinearRefusal,
) -> Result<Outcome, AnswerFault>
    ensures outcome { IfOk result (λ outcome. outcome ≡ Refused) }
    ensures line { Refuses (O.contents console.old.out) (O.contents console.new.out)
        (told_of refused.now) result }
{
    let refusal = refusal_of_text(refused);
    let outcome = refuse_claim(console, sourced, entry, claim, refusal)?;
    if is_whole(claim, entry) && other_edition(&claim.bytes, sourced.method).is_none() {
        let name = Shown(claim.name.as_bytes());
        console.say(format_args!("{name}: refused X18: {refused}\n{MENDING}"));
    }
    Ok(outcome)
}

/// Checks a certificate by claims of a macro of a library.
#[tactic(auto, using(teco_console::proofs::Fronts::whole_front))]
pub fn check_claims<O: Write + Drop, E: Write + Drop>(
    console: &mut Console<O, E>,
    sourced: &Sourced,
    entry: Reg,
    claim: &ClaimedCertificate<'_>,
) -> Result<Outcome, AnswerFault>
    ensures { Answers (ChecksByClaims claim.now.bytes.items sourced.now.library entry)
        (O.contents console.old.out) (O.contents console.new.out) result }
{
    match accepted_by_claims(console.alloc, &sourced.library, entry, &claim.bytes) {
        Ok(claimed) => {
            claimed.is_checked();
            console.answer("accepted\n")?;
            tell_premise(
                &mut console.voice,
                &sourced.source,
                &claimed.promise(),
                Edition::Second,
            )?;
            Ok(Outcome::Done)
        }
        Err(refused) => refuse_linear(console, sourced, entry, claim, &refused),
    }
}
