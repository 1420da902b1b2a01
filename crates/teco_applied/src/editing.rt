//! `edit`: files are edited in place by a verified macro.
ghost use Rattle.std.specs.Prelude.{◌≡◌};
ghost use Rattle.teco_applied.specs.InPlace.{EditsIfAny, EditsSubject, EditsTask};
ghost use Rattle.teco_edits.specs.declared.outcome.EditOutcome.TheVariants.{Refused};

use crate::asking::all_policies;
use crate::keeping::tell_kept;
use crate::subject::{
    Subject, heard, read_subject, refuse_empty, say_all, say_findings, say_refused,
    say_unless_quiet,
};
use std::alloc::Global;
use std::io::{Input, Write};
use teco_acceptance::{AcceptedMacro, tell_promise};
use teco_console::{Console, Premise, Voice};
use teco_edit_parts::taken_backup;
use teco_edits::{EditOutcome, InPlaceEdits, edit_by_job};
use teco_files::System;
use teco_jobs::{Job, Task};
use teco_options::{Keeping, PageChoice};
use teco_paths::search::ClaimSearch;
use teco_policy::Policy;
use teco_source::Shown;
use teco_tools::ToolFault;

// Says that a macro which turns pages itself does not edit whole files.
fn refuse_whole<E: Write + Drop>(voice: &mut Voice<E>, task: &Task<'_, '_>) -> EditOutcome
    ensures { result ≡ Refused }
{
    let name = char::from(task.entry.name());
    voice.complain(format_args!(
        "macro {name} reads or writes pages itself, and a file that is edited whole is one page: \
            give --pages first, and it goes on from the first page, or --pages each"
    ));
    EditOutcome::Refused
}

// Does a macro that turns pages itself edit whole files?
fn is_lost(job: Job<'_>) -> bool {
    matches!(job.task.pages, PageChoice::Whole) && job.turns_pages()
}

// Edits files by a macro that is accepted, unless its promise holds for no text, or it turns pages
// itself and files are edited whole.
#[tactic(auto, using(crate::proofs::InPlace::by_job, crate::proofs::InPlace::no_line, crate::proofs::InPlace::failed))]
fn edit_by_accepted<R, O, E>(
    rt: &R,
    console: &mut Console<O, E>,
    task: &Task<'_, '_>,
    given: &InPlaceEdits<'_>,
    found: &AcceptedMacro<'_>,
) -> Result<EditOutcome, ToolFault>
where
    R: System + Copy,
    O: Write + Drop,
    E: Write + Drop,
    ensures { EditsIfAny given.now task.now found.now.accepted
        (O.contents console.old.out) (O.contents console.new.out) result }
{
    let AcceptedMacro { sourced, accepted } = found;
    let promise = accepted.promise();
    if task.is_strict && Premise::of_promise(&promise).is_empty() {
        refuse_empty(console, sourced, accepted)?;
        return Ok(EditOutcome::Refused);
    }
    if task.tells_promise {
        tell_promise(&mut console.voice, &promise, task.start.settings)?;
        tell_kept(&mut console.voice, &promise, given.policies)?;
    }
    let job = Job {
        alloc: console.alloc,
        task,
        promise: &promise,
    };
    say_findings(console, sourced, job.task);
    if is_lost(job) {
        return Ok(refuse_whole(&mut console.voice, job.task));
    }
    edit_by_job(rt, console, job, given)
}

// Edits files by the macro that a task is about, if it is accepted.
#[tactic(auto, using(crate::proofs::InPlace::no_line))]
fn edit_by_subject<S: ClaimSearch, R, O, E>(
    rt: &R,
    console: &mut Console<O, E>,
    task: &Task<'_, '_>,
    given: &InPlaceEdits<'_>,
    subject: &Subject<'_>,
) -> Result<EditOutcome, ToolFault>
where
    R: System + Copy,
    O: Write + Drop,
    E: Write + Drop,
    ensures { EditsSubject given.now task.now
        (O.contents console.old.out) (O.contents console.new.out) result }
{
    match subject.accepted::<S>(console.means(), task.entry) {
        Ok(found) => edit_by_accepted(rt, console, task, given, &found),
        Err(refused) => {
            say_refused::<S, _, _>(console, subject, task.entry, refused)?;
            Ok(EditOutcome::Refused)
        }
    }
}

// Files that are edited in place, and what is asked of the edits.
#[derive(Drop)]
struct EditOrder<'g, 'a> {
    given: &'g InPlaceEdits<'a>,
    asked: Vec<Policy>,
}

// Refuses to keep a file under the name of another that is edited.
fn check_keeping<R: System>(
    rt: &R,
    alloc: Global,
    given: &InPlaceEdits<'_>,
) -> Result<(), ToolFault> {
    let Some(Keeping { suffix, .. }) = given.keeping else {
        return Ok(());
    };
    if suffix.is_empty() || suffix.contains('/') {
        return Err(ToolFault::Suffix);
    }
    match taken_backup(rt, alloc, given.files, suffix)? {
        None => Ok(()),
        Some(path) => {
            let shown = Shown(path.as_bytes());
            Err(ToolFault::Kept {
                path: format!(in alloc; "{shown}")?,
            })
        }
    }
}

// Edits files by the macro that a task is about, with the policies of its library behind those that are
// asked for.
#[tactic(auto, using(crate::proofs::InPlace::nothing, crate::proofs::InPlace::failed))]
fn edit_as_asked<S: ClaimSearch, R, O, E>(
    rt: &R,
    console: &mut Console<O, E>,
    task: &Task<'_, '_>,
    order: EditOrder<'_, '_>,
    subject: &Subject<'_>,
) -> Result<EditOutcome, ToolFault>
where
    R: System + Copy,
    O: Write + Drop,
    E: Write + Drop,
    ensures { EditsTask order.entry.given.now order.entry.asked.items task.now
        (O.contents console.old.out) (O.contents console.new.out) result }
{
    let EditOrder { given, asked } = order;
    let Some(all) = all_policies(&mut console.voice, &subject.read.sourced, task, asked)? else {
        return Ok(EditOutcome::Refused);
    };
    let edits = InPlaceEdits {
        policies: &all,
        ..*given
    };
    edit_by_subject::<S, _, _, _>(rt, console, task, &edits, subject)
}

/// Accepts a macro of a library once, and edits each file in place by it, with a new machine for
/// each. The edits keep the policies that are `asked` for and those that the library asks for; `given`
/// has none. Nothing is touched where the macro is refused, or where a file would be kept under the
/// name of another that is edited; a file that fails is left as it was, named, and the others go
/// on. A file that would stay as it is isn't replaced. A refusal is said, and not printed.
#[tactic(auto, using(crate::proofs::InPlace::nothing, crate::proofs::InPlace::no_line, crate::proofs::InPlace::failed))]
pub fn edit_files<S: ClaimSearch, R, O, E>(
    rt: &R,
    console: &mut Console<O, E>,
    task: &Task<'_, '_>,
    given: &InPlaceEdits<'_>,
    asked: Vec<Policy>,
) -> Result<EditOutcome, ToolFault>
where
    R: System + Input + Copy,
    O: Write + Drop,
    E: Write + Drop,
    ensures { EditsTask given.now asked.items task.now
        (O.contents console.old.out) (O.contents console.new.out) result }
{
    check_keeping(rt, console.alloc, given)?;
    let mut apart = heard(console.means());
    match read_subject(rt, &mut apart, task)? {
        Some(subject) => {
            say_unless_quiet(&mut console.voice, apart);
            let order = EditOrder { given, asked };
            edit_as_asked::<S, _, _, _>(rt, console, task, order, &subject)
        }
        None => {
            say_all(&mut console.voice, apart);
            Ok(EditOutcome::Refused)
        }
    }
}
