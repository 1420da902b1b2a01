//! What a task is about: a macro of a library.
ghost use Rattle.std.specs.Prelude.{◌≡◌, IfOk, OnOk};
ghost use Rattle.teco_acceptance.specs.Accepted.{IsAccepted};
ghost use Rattle.teco_applied.specs.Tasks.{ReadsSubject, Refuses};
ghost use Rattle.teco_jobs.specs.Edits.{Prints};
ghost use Rattle.teco_console.specs.declared.outcome.Outcome.TheVariants.{Refused};

use std::io::{Input, Write};
use std::rt::Files;
use std::{fmt, str};
use teco_acceptance::{
    Accepted, AcceptedMacro, ClaimedCertificate, MENDING, ReadFor, Setup, UnacceptedMacro,
    accepted_by_claims, is_whole, other_edition, read_claim, read_library_for, refuse_claim,
    refuse_macro, tell_no_text, warn_no_text,
};
use teco_base::Reg;
use teco_console::{AnswerFault, Console, Edition, Means, Outcome, Sourced, Voice, lint};
use teco_jobs::Task;
use teco_options::LetterCase;
use teco_paths::search::ClaimSearch;
use teco_source::Shown;
use teco_tools::ToolFault;

/// A library, and the certificate of a macro of it, if one is named.
#[derive(Drop)]
pub struct Subject<'a> {
    pub read: ReadFor,
    claim: Option<ClaimedCertificate<'a>>,
}

impl Subject<'_> {
    /// The macro, by its certificate if there is one, or verified.
    pub fn accepted<S: ClaimSearch>(
        &self,
        means: Means,
        entry: Reg,
    ) -> Result<AcceptedMacro<'_>, UnacceptedMacro<'_>>
        ensures { IfOk result (λ found. IsAccepted found.sourced.now.library entry found.accepted) }
    {
        self.read.accepted::<S>(means, entry, self.claim.as_ref())
    }
}

/// What registers are given before the runs of a task. These texts do not belong to a library that a
/// certificate is for.
pub fn setup_of<'a>(task: &'a Task<'_, '_>) -> Setup<'a> {
    Setup {
        settings: task.start.settings,
        is_open: task.certificate.is_none(),
    }
}

// A console for what has no promise on what it prints: what is said there is said here, and nothing of
// it is printed.
fn say_apart<E: Write + Drop>(voice: &mut Voice<E>, apart: Console<Vec<u8>, Vec<u8>>) {
    let (_, messages) = apart.into_parts();
    voice.repeat(&messages);
}

/// A console that keeps what is printed and said there, and is never quiet: a refusal is told with its
/// reasons in any case.
pub fn heard(means: Means) -> Console<Vec<u8>, Vec<u8>> {
    let Means { alloc, effort } = means;
    let mut heard = Console::new(alloc, Vec::new(alloc), Vec::new(alloc));
    heard.effort = effort;
    heard
}

/// Says what was printed and said on a console apart, and prints nothing.
pub fn say_all<E: Write + Drop>(voice: &mut Voice<E>, apart: Console<Vec<u8>, Vec<u8>>) {
    let (out, messages) = apart.into_parts();
    voice.repeat(&out);
    voice.repeat(&messages);
}

/// Says what was said on a console apart, unless the voice is to be quiet.
pub fn say_unless_quiet<E: Write + Drop>(voice: &mut Voice<E>, apart: Console<Vec<u8>, Vec<u8>>) {
    let (_, messages) = apart.into_parts();
    if let Some(messages) = messages.strip_suffix(b"\n") {
        voice.say(Said(messages));
    }
}

// Messages that were made to be said.
#[derive(Clone, Copy)]
struct Said<'a>(&'a [u8]);

impl fmt::Display for Said<'_> {
    fn fmt<W: fmt::Write>(&self, f: &mut fmt::Formatter<W>) -> fmt::Result {
        f.write_str(str::from_utf8(self.0).unwrap_or(""))
    }
}

// Prints what was printed on a console apart, and says what was said there.
fn repeat<O: Write + Drop, E: Write + Drop>(
    console: &mut Console<O, E>,
    apart: Console<Vec<u8>, Vec<u8>>,
) -> Result<(), ToolFault>
    ensures { OnOk result (Prints (O.contents console.old.out) (O.contents console.new.out)) }
{
    let (out, messages) = apart.into_parts();
    console.out.write_all(&out)?;
    console.voice.repeat(&messages);
    Ok(())
}

/// Reads the certificate and the library of a task. Where the file is no library, the refusal is
/// printed, and there is none.
pub fn read_subject<'a, R: Files + Input, O: Write + Drop, E: Write + Drop>(
    rt: &R,
    console: &mut Console<O, E>,
    task: &Task<'a, '_>,
) -> Result<Option<Subject<'a>>, ToolFault>
    ensures { ReadsSubject (O.contents console.old.out) (O.contents console.new.out) result }
{
    let claim = read_claim(rt, console.alloc, task.certificate)?;
    let mut apart = heard(console.means());
    match read_library_for(rt, &mut apart, task.library, setup_of(task)) {
        Ok(Some(read)) => {
            say_unless_quiet(&mut console.voice, apart);
            Ok(Some(Subject { read, claim }))
        }
        Ok(None) => {
            repeat(console, apart)?;
            Ok(None)
        }
        Err(fault) => Err(ToolFault::Answer(fault)),
    }
}

/// Says that a macro is refused since its promise holds for no text.
pub fn refuse_empty<O: Write + Drop, E: Write + Drop>(
    console: &mut Console<O, E>,
    sourced: &Sourced,
    accepted: &Accepted<'_>,
) -> Result<Outcome, ToolFault>
    ensures printed { console.new.out ≡ console.old.out }
    ensures outcome { IfOk result (λ outcome. outcome ≡ Refused) }
{
    let mut apart = heard(console.means());
    let outcome = tell_no_text(&mut apart, sourced, accepted)?;
    say_apart(&mut console.voice, apart);
    Ok(outcome)
}

/// Warns of a macro whose promise holds for no text.
pub fn warn_empty<O: Write + Drop, E: Write + Drop>(
    console: &mut Console<O, E>,
    sourced: &Sourced,
    accepted: &Accepted<'_>,
) -> Result<(), ToolFault>
    ensures { console.new.out ≡ console.old.out }
{
    let mut apart = console.apart();
    warn_no_text(&mut apart, sourced, accepted)?;
    say_apart(&mut console.voice, apart);
    Ok(())
}

/// Says what looks like slips in the macro of a task.
pub fn say_findings<O: Write + Drop, E: Write + Drop>(
    console: &mut Console<O, E>,
    sourced: &Sourced,
    task: &Task<'_, '_>,
)
    ensures { console.new.out ≡ console.old.out }
{
    let mut apart = console.apart();
    let is_exact = matches!(task.start.case, Some(LetterCase::Exact));
    lint(&mut apart, sourced, task.entry, is_exact);
    say_apart(&mut console.voice, apart);
}

// Says why a macro is refused, by its certificate if there is one.
#[tactic(auto, using(crate::proofs::Tasks::refuses))]
fn refuse_by_claim<S: ClaimSearch, O: Write + Drop, E: Write + Drop>(
    console: &mut Console<O, E>,
    subject: &Subject<'_>,
    entry: Reg,
    refused: UnacceptedMacro<'_>,
) -> Result<Outcome, AnswerFault>
    ensures { Refuses (O.contents console.old.out) (O.contents console.new.out) result }
{
    let UnacceptedMacro {
        sourced,
        unaccepted,
    } = refused;
    match &subject.claim {
        None => refuse_macro::<S, _, _>(console, sourced, entry, unaccepted),
        Some(claim) => refuse_claim(console, sourced, entry, claim, unaccepted.refusal),
    }
}

/// Says why a macro is refused, by its certificate if there is one, also where the voice was to be quiet.
pub fn refuse_subject<S: ClaimSearch, O: Write + Drop, E: Write + Drop>(
    console: &mut Console<O, E>,
    subject: &Subject<'_>,
    entry: Reg,
    refused: UnacceptedMacro<'_>,
) -> Result<Outcome, ToolFault>
    ensures { Refuses (O.contents console.old.out) (O.contents console.new.out) result }
{
    console.voice.speak();
    match refuse_by_claim::<S, _, _>(console, subject, entry, refused) {
        Ok(outcome) => {
            tell_claim(&mut console.voice, subject, entry);
            Ok(outcome)
        }
        Err(fault) => Err(ToolFault::Answer(fault)),
    }
}

// Says which claim of a certificate does not hold, if it is one by claims.
fn tell_claim<E: Write + Drop>(voice: &mut Voice<E>, subject: &Subject<'_>, entry: Reg) {
    let Some(claim) = &subject.claim else {
        return;
    };
    let Sourced {
        library,
        method,
        ..
    } = &subject.read.sourced;
    let is_by_claims = claim.edition_by(*method) == Edition::Second;
    if !is_by_claims || !is_whole(claim, entry) || other_edition(&claim.bytes, *method).is_some() {
        return;
    }
    if let Err(refused) = accepted_by_claims(voice.alloc(), library, entry, &claim.bytes) {
        let name = Shown(claim.name.as_bytes());
        voice.say(format_args!("{name}: refused X18: {refused}\n{MENDING}"));
    }
}

/// Says why a macro is refused, with the line of the refusal, and prints nothing.
pub fn say_refused<S: ClaimSearch, O: Write + Drop, E: Write + Drop>(
    console: &mut Console<O, E>,
    subject: &Subject<'_>,
    entry: Reg,
    refused: UnacceptedMacro<'_>,
) -> Result<Outcome, ToolFault>
    ensures printed { console.new.out ≡ console.old.out }
    ensures outcome { IfOk result (λ outcome. outcome ≡ Refused) }
{
    let mut apart = heard(console.means());
    let outcome = refuse_subject::<S, _, _>(&mut apart, subject, entry, refused)?;
    say_all(&mut console.voice, apart);
    Ok(outcome)
}
