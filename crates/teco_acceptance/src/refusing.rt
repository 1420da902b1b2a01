//! Why macros and certificates are refused, in lines for people.
ghost use Rattle.std.specs.Prelude.{◌≡◌, IfOk};
ghost use Rattle.teco_acceptance.specs.Refused.{Refuses};
ghost use Rattle.teco_console.specs.declared.outcome.Outcome.TheVariants.{Refused};

use crate::claim::{ClaimedCertificate, edition_of, split_line};
use crate::damage::{Damage, MENDING};
use crate::known::words_of;
use crate::library::explained;
use crate::reasoning::{RefusedMacro, reason_of};
use crate::unaccepted::Unaccepted;
use crate::verdict::Verdict;
use std::alloc::Global;
use std::io::Write;
use teco_base::Reg;
use teco_console::{AnswerFault, Console, Edition, Method, Outcome, Sourced, tell_dollars};
use teco_paths::search::ClaimSearch;
use teco_source::{Shown, Source};
use teco_verify::{Account, Refusal, Verified, account_of, verify};

/// Says why a macro of a source is refused by an edition of the rules, behind its line.
#[tactic(auto, using(teco_console::proofs::Fronts::nothing, teco_console::proofs::Fronts::whole_front))]
pub fn refuse<O: Write + Drop, E: Write + Drop>(
    console: &mut Console<O, E>,
    source: &Source,
    refusal: Refusal,
    edition: Edition,
) -> Result<Outcome, AnswerFault>
    ensures outcome { IfOk result (λ outcome. outcome ≡ Refused) }
    ensures line { Refuses (O.contents console.old.out) (O.contents console.new.out) refusal
        result }
{
    let Some(verdict) = Verdict::of(&refusal) else {
        return Err(AnswerFault::Memory);
    };
    console.answer(format_args!("{verdict}\n"))?;
    if let Some(told) = explained(source, &refusal, edition) {
        console.say(told);
    }
    tell_dollars(&mut console.voice, source);
    Ok(Outcome::Refused)
}

/// Says what is known at the element at which a macro is refused.
pub fn tell_known<O: Write + Drop, E: Write + Drop>(
    console: &mut Console<O, E>,
    account: &Account<'_>,
) -> Result<(), AnswerFault>
    ensures { console.new.out ≡ console.old.out }
{
    let Some(number) = account.stop() else {
        return Ok(());
    };
    if let Some(known) = account.known(number) {
        let words = words_of(console.alloc, &known)?;
        console.say(format_args!("  known there: {words}"));
    }
    Ok(())
}

/// Says why the macro of a source is refused by its table, and what is known there.
#[tactic(auto, using(teco_console::proofs::Fronts::whole_front))]
pub fn refuse_known<O: Write + Drop, E: Write + Drop>(
    console: &mut Console<O, E>,
    source: &Source,
    account: &Account<'_>,
    refusal: Refusal,
) -> Result<Outcome, AnswerFault>
    ensures outcome { IfOk result (λ outcome. outcome ≡ Refused) }
    ensures line { Refuses (O.contents console.old.out) (O.contents console.new.out) refusal
        result }
{
    let outcome = refuse(console, source, refusal, Edition::First)?;
    tell_known(console, account)?;
    Ok(outcome)
}

// What more would do for a macro that is refused, in lines, as far as it was found.
fn reason_for<S: ClaimSearch>(
    alloc: Global,
    sourced: &Sourced,
    entry: Reg,
    unaccepted: &Unaccepted,
) -> String {
    let Some(unclaimed) = &unaccepted.unclaimed else {
        return String::new(alloc);
    };
    let refused = RefusedMacro {
        source: &sourced.source,
        library: &sourced.library,
        entry,
        refusal: &unaccepted.refusal,
    };
    reason_of::<S>(alloc, &refused, unclaimed)
}

/// Says why a macro of a library is refused, and what is known there.
#[tactic(auto, using(teco_console::proofs::Fronts::nothing))]
pub fn refuse_macro<S: ClaimSearch, O: Write + Drop, E: Write + Drop>(
    console: &mut Console<O, E>,
    sourced: &Sourced,
    entry: Reg,
    unaccepted: Unaccepted,
) -> Result<Outcome, AnswerFault>
    ensures outcome { IfOk result (λ outcome. outcome ≡ Refused) }
    ensures line { Refuses (O.contents console.old.out) (O.contents console.new.out)
        unaccepted.refusal result }
{
    match sourced.method.newest() {
        Edition::First => {
            let account = account_of(console.alloc, &sourced.library, entry)?;
            refuse_known(console, &sourced.source, &account, unaccepted.refusal)
        }
        Edition::Second => {
            let reason = reason_for::<S>(console.alloc, sourced, entry, &unaccepted);
            let outcome = refuse(
                console,
                &sourced.source,
                unaccepted.refusal,
                Edition::Second,
            )?;
            if !reason.is_empty() {
                console.say(reason.as_str());
            }
            Ok(outcome)
        }
    }
}

// A line of a certificate that isn't as it should be.
#[derive(Clone, Copy)]
struct FaultyLine<'a> {
    number: usize,
    found: &'a [u8],
    wanted: &'a [u8],
}

// The first line in which two texts differ, if they do.
fn first_difference<'a>(found: &'a [u8], wanted: &'a [u8]) -> Option<FaultyLine<'a>> {
    let mut found_rest = found;
    let mut wanted_rest = wanted;
    for number in 1..usize::MAX {
        if found_rest.is_empty() && wanted_rest.is_empty() {
            return None;
        }
        let (found, behind_found) = split_line(found_rest);
        let (wanted, behind_wanted) = split_line(wanted_rest);
        if found != wanted {
            return Some(FaultyLine {
                number,
                found,
                wanted,
            });
        }
        found_rest = behind_found;
        wanted_rest = behind_wanted;
    }
    None
}

// Says in which line a certificate is another than that of the macro.
fn tell_difference<O: Write + Drop, E: Write + Drop>(
    console: &mut Console<O, E>,
    name: &str,
    found: &[u8],
    wanted: &[u8],
)
    ensures { console.new.out ≡ console.old.out }
{
    let name = Shown(name.as_bytes());
    match first_difference(found, wanted) {
        None => console.say(format_args!("{name}: its line ends are not those of a certificate")),
        Some(difference) => {
            let FaultyLine {
                number,
                found,
                wanted,
            } = difference;
            console.say(format_args!(
                "{name}:{number}: refused X18: the certificate has \"{}\", the macro \"{}\"",
                Shown(found),
                Shown(wanted)
            ));
        }
    }
}

/// The edition of the rules that a certificate says it is of, if it is another than the one by which
/// it is checked.
pub fn other_edition(text: &[u8], method: Method) -> Option<Edition> {
    let said = edition_of(text);
    match method {
        Method::Only(edition) if edition != said => Some(said),
        _ => None,
    }
}

/// Says that a certificate is of the other edition of the rules, and with which option it is
/// checked.
pub fn tell_other_edition<O: Write + Drop, E: Write + Drop>(
    console: &mut Console<O, E>,
    name: &str,
    edition: Edition,
)
    ensures { console.new.out ≡ console.old.out }
{
    let name = Shown(name.as_bytes());
    let (edition, option) = match edition {
        Edition::First => ("first", 1),
        Edition::Second => ("second", 2),
    };
    console.say(format_args!(
        "{name}: refused X18: the certificate is of the {edition} edition of the rules, \
            which --rules {option} checks"
    ));
}

// Says in which line a certificate is another than that of the macro.
fn tell_wanted<O: Write + Drop, E: Write + Drop>(
    console: &mut Console<O, E>,
    claim: &ClaimedCertificate<'_>,
    verified: &Verified<'_>,
) -> Result<(), AnswerFault>
    ensures { console.new.out ≡ console.old.out }
{
    let wanted = verified.certificate(console.alloc)?;
    tell_difference(console, claim.name, &claim.bytes, &wanted);
    Ok(())
}

// Says why the macro of a source is refused by its table.
fn tell_refusal<O: Write + Drop, E: Write + Drop>(
    console: &mut Console<O, E>,
    source: &Source,
    refusal: &Refusal,
)
    ensures { console.new.out ≡ console.old.out }
{
    if let Some(told) = explained(source, refusal, Edition::First) {
        console.say(told);
    }
    tell_dollars(&mut console.voice, source);
}

// Says why a certificate by a table is refused: the macro is, or a line is another.
fn tell_why<O: Write + Drop, E: Write + Drop>(
    console: &mut Console<O, E>,
    sourced: &Sourced,
    entry: Reg,
    claim: &ClaimedCertificate<'_>,
) -> Result<(), AnswerFault>
    ensures { console.new.out ≡ console.old.out }
{
    match verify(console.alloc, &sourced.library, entry) {
        Ok(verified) => tell_wanted(console, claim, &verified),
        Err(refusal) => {
            tell_refusal(console, &sourced.source, &refusal);
            Ok(())
        }
    }
}

// Is a file no certificate of the macro at all? What is wrong with it is said then.
fn tells_damage<O: Write + Drop, E: Write + Drop>(
    console: &mut Console<O, E>,
    entry: Reg,
    claim: &ClaimedCertificate<'_>,
) -> bool
    ensures { console.new.out ≡ console.old.out }
{
    let Some(damage) = Damage::of(&claim.bytes, entry) else {
        return false;
    };
    let name = Shown(claim.name.as_bytes());
    console.say(format_args!("{name}:{damage}\n{MENDING}"));
    true
}

/// Prints why a certificate is refused, and says in which line it is another.
#[tactic(auto, using(teco_console::proofs::Fronts::nothing, teco_console::proofs::Fronts::whole_front))]
pub fn refuse_claim<O: Write + Drop, E: Write + Drop>(
    console: &mut Console<O, E>,
    sourced: &Sourced,
    entry: Reg,
    claim: &ClaimedCertificate<'_>,
    refusal: Refusal,
) -> Result<Outcome, AnswerFault>
    ensures outcome { IfOk result (λ outcome. outcome ≡ Refused) }
    ensures line { Refuses (O.contents console.old.out) (O.contents console.new.out) refusal
        result }
{
    let Some(verdict) = Verdict::of(&refusal) else {
        return Err(AnswerFault::Memory);
    };
    console.answer(format_args!("{verdict}\n"))?;
    if tells_damage(console, entry, claim) {
        return Ok(Outcome::Refused);
    }
    match (
        other_edition(&claim.bytes, sourced.method),
        claim.edition_by(sourced.method),
    ) {
        (Some(edition), _) => tell_other_edition(console, claim.name, edition),
        (None, Edition::First) => tell_why(console, sourced, entry, claim)?,
        (None, Edition::Second) => {}
    }
    Ok(Outcome::Refused)
}
