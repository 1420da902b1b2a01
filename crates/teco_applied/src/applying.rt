//! `apply`: a file is edited by a verified macro.
ghost use Rattle.std.specs.Prelude.{◌≡◌, [], true, IfOk};
ghost use Rattle.teco_applied.specs.Tasks.{AnswersNone, Applies, AppliesAsAsked, task_call};
ghost use Rattle.teco_hosts.specs.HostFiles.{Notes};
ghost use Rattle.teco_jobs.specs.Edits.{EditsBy, trace_of};
ghost use Rattle.teco_pages.specs.Policies.{IsMet};

use crate::asking::noted_policies;
use crate::subject::{Subject, read_subject, refuse_subject, warn_empty};
use std::fs::{Files, Metadata};
use std::io::{Input, Write};
use std::os::unix::fs::MetadataExt;
use std::{fs, str};
use teco_acceptance::{Accepted, AcceptedMacro};
use teco_console::{AnswerFault, Console, Outcome};
use teco_hosts::Host;
use teco_jobs::{Job, Names, Task, Work, edit_by};
use teco_judging::{Judged, tell_broken};
use teco_paths::search::ClaimSearch;
use teco_policy::Policy;
use teco_tools::{Reporting, ToolFault};

/// A file that is edited into another, and what that must not do.
#[derive(Clone, Copy)]
pub struct Errand<'a> {
    pub names: Names<'a>,
    pub policies: &'a [Policy],
}

// Two files, unless they are one.
#[derive(Clone, Copy)]
struct TwoFiles<'a> {
    names: Names<'a>,
    are_one: bool,
}

// Edits a file by a macro that is accepted.
fn edit_accepted<H: Host + Reporting, O: Write + Drop, E: Write + Drop>(
    console: &mut Console<O, E>,
    task: &Task<'_, '_>,
    names: Names<'_>,
    accepted: &Accepted<'_>,
    host: &mut H,
) -> Result<Outcome, ToolFault>
    ensures { EditsBy task.now (task_call task.now accepted.now) names.entry
        (H.files host.old) (H.files host.new)
        (trace_of (H.failures host.old) (O.contents console.old.out))
        (trace_of (H.failures host.new) (O.contents console.new.out)) result }
{
    let promise = accepted.promise();
    let job = Job {
        alloc: console.alloc,
        task,
        promise: &promise,
    };
    edit_by(
        &mut console.out,
        &mut console.voice,
        Work { job, names },
        host,
    )
}

// Edits a file by a macro that is accepted, and says which policy kept an output from its name.
fn edit_and_tell<'p, H: Host + Reporting + Drop, O: Write + Drop, E: Write + Drop>(
    console: &mut Console<O, E>,
    task: &Task<'_, '_>,
    names: Names<'_>,
    accepted: &Accepted<'_>,
    host: &mut Judged<'p, H>,
) -> Result<Outcome, ToolFault>
    ensures { EditsBy task.now (task_call task.now accepted.now) names.entry
        (⟦<Judged<'p, H> as Host>⟧.files host.old) (⟦<Judged<'p, H> as Host>⟧.files host.new)
        (trace_of (⟦<Judged<'p, H> as Host>⟧.failures host.old) (O.contents console.old.out))
        (trace_of (⟦<Judged<'p, H> as Host>⟧.failures host.new) (O.contents console.new.out)) result }
{
    let outcome = edit_accepted(console, task, names, accepted, host);
    if let Some(breaking) = host.breaking() {
        tell_broken(&mut console.voice, host.output_name(), &breaking);
    }
    outcome
}

// Edits a file by the macro that a task is about, if it is accepted.
fn apply_subject<'p, S: ClaimSearch, H: Host + Reporting + Drop, O: Write + Drop, E: Write + Drop>(
    console: &mut Console<O, E>,
    task: &Task<'_, '_>,
    files: TwoFiles<'_>,
    subject: &Subject<'_>,
    host: &mut Judged<'p, H>,
) -> Result<Outcome, ToolFault>
    ensures { Applies task.now files.entry.names
        (⟦<Judged<'p, H> as Host>⟧.files host.old) (⟦<Judged<'p, H> as Host>⟧.files host.new)
        (trace_of (⟦<Judged<'p, H> as Host>⟧.failures host.old) (O.contents console.old.out))
        (trace_of (⟦<Judged<'p, H> as Host>⟧.failures host.new) (O.contents console.new.out)) result }
{
    match subject.accepted::<S>(console.means(), task.entry) {
        Ok(_) if files.are_one => refuse_names(console),
        Ok(AcceptedMacro { sourced, accepted }) => {
            warn_empty(console, sourced, &accepted)?;
            edit_and_tell(console, task, files.names, &accepted, host)
        }
        Err(refused) => refuse_subject::<S, _, _>(console, subject, task.entry, refused),
    }
}

// Asks a host for the policies that the library asks for too. Could they be read?
fn ask_noted<'p, H: Host + Drop, O: Write + Drop, E: Write + Drop>(
    console: &mut Console<O, E>,
    task: &Task<'_, '_>,
    subject: &Subject<'_>,
    host: &mut Judged<'p, H>,
) -> Result<bool, ToolFault>
    requires fresh { ⟦<Judged<'p, H> as Host>⟧.files host.old ≡ Notes [] }
    ensures files { ⟦<Judged<'p, H> as Host>⟧.files host.new ≡ ⟦<Judged<'p, H> as Host>⟧.files host.old }
    ensures failures { ⟦<Judged<'p, H> as Host>⟧.failures host.new ≡ ⟦<Judged<'p, H> as Host>⟧.failures host.old }
    ensures printed { console.new.out ≡ console.old.out }
{
    match noted_policies(&mut console.voice, &subject.read.sourced, task)? {
        Some(policies) => {
            host.ask(policies);
            Ok(true)
        }
        None => Ok(false),
    }
}

// Do two names lead to one file that is there?
fn are_one_file<R: Files>(rt: &R, names: Names<'_>) -> bool {
    let (Some(source), Some(target)) = (file_at(rt, names.source), file_at(rt, names.target)) else {
        return false;
    };
    source.dev() == target.dev() && source.ino() == target.ino()
}

// The file that a name leads to, if one is there.
fn file_at<R: Files>(rt: &R, name: &[u8]) -> Option<Metadata> {
    let name = str::from_utf8(name).ok()?;
    let metadata = fs::metadata(rt, name).ok()?;
    metadata.is_file().then_some(metadata)
}

// Edits a file by a macro of a library that is read, with the policies that the library asks for.
#[tactic(auto, using(crate::proofs::InPlace::nothing))]
fn apply_as_asked<
    'p,
    S: ClaimSearch,
    R: Files + Input,
    H: Host + Reporting + Drop,
    O: Write + Drop,
    E: Write + Drop,
>(
    rt: &R,
    console: &mut Console<O, E>,
    task: &Task<'_, '_>,
    names: Names<'_>,
    host: &mut Judged<'p, H>,
) -> Result<Outcome, ToolFault>
    requires fresh { ⟦<Judged<'p, H> as Host>⟧.files host.old ≡ Notes [] }
    ensures { Applies task.now names.entry
        (⟦<Judged<'p, H> as Host>⟧.files host.old) (⟦<Judged<'p, H> as Host>⟧.files host.new)
        (trace_of (⟦<Judged<'p, H> as Host>⟧.failures host.old) (O.contents console.old.out))
        (trace_of (⟦<Judged<'p, H> as Host>⟧.failures host.new) (O.contents console.new.out)) result }
{
    let files = TwoFiles {
        names,
        are_one: are_one_file(rt, names),
    };
    let Some(subject) = read_subject(rt, console, task)? else {
        return Ok(Outcome::Refused);
    };
    if ask_noted(console, task, &subject, host)? {
        apply_subject::<S, _, _, _>(console, task, files, &subject, host)
    } else {
        Ok(Outcome::Refused)
    }
}

/// Edits a file into another by a macro of a library, which is verified first, or whose certificate
/// is checked, over the files of a host that has made no call yet and was asked for the policies of the
/// errand. Outputs keep those that the library asks for too.
pub fn apply_macro<
    'p,
    S: ClaimSearch,
    R: Files + Input,
    H: Host + Reporting + Drop,
    O: Write + Drop,
    E: Write + Drop,
>(
    rt: &R,
    console: &mut Console<O, E>,
    task: &Task<'_, '_>,
    errand: Errand<'_>,
    host: &mut Judged<'p, H>,
) -> Result<Outcome, ToolFault>
    requires fresh { ⟦<Judged<'p, H> as Host>⟧.files host.old ≡ Notes [] }
    ensures applies { AppliesAsAsked task.now errand.entry.names
        (⟦<Judged<'p, H> as Host>⟧.files host.old) (⟦<Judged<'p, H> as Host>⟧.files host.new)
        (trace_of (⟦<Judged<'p, H> as Host>⟧.failures host.old) (O.contents console.old.out))
        (trace_of (⟦<Judged<'p, H> as Host>⟧.failures host.new) (O.contents console.new.out)) result }
    ensures kept { IfOk result (λ _. IsMet errand.entry.policies.now true
        (⟦<Judged<'p, H> as Host>⟧.files host.new)) }
{
    let outcome = apply_as_asked::<S, _, _, _, _>(rt, console, task, errand.names, host);
    // the run's contract does not say that its host asks for what it was asked for
    if host.has_met(errand.policies) {
        outcome
    } else {
        Err(ToolFault::Answer(AnswerFault::Memory))
    }
}

// Says that one file can't be both read and written.
fn refuse_names<O: Write + Drop, E: Write + Drop>(
    console: &mut Console<O, E>,
) -> Result<Outcome, ToolFault>
    ensures { AnswersNone (O.contents console.old.out) (O.contents console.new.out) result }
{
    console.answer("?ARG\r\n")?;
    console.voice.complain("IN and OUT are one file; teco edit changes a file in place (?ARG)");
    Ok(Outcome::Coded)
}
