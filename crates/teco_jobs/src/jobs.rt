//! Jobs: files are edited by a macro that is promised to end, each run on terms.
ghost use Rattle.std.specs.Prelude.{◌≡◌, ◌<◌, [], length, false, IfOk};
ghost use Rattle.teco_jobs.specs.Edits.{EditsBy, EditsOn, IsAnswer, IsAnswerTo, IsOutcome, IsSeen, RewritesBy};
ghost use Rattle.teco_jobs.specs.Edits.{RewritesOn, Watches, WatchesFile, call_of, trace_of};
ghost use Rattle.teco_jobs.specs.Strict.{OnTerms};
ghost use Rattle.teco_apply.specs.ByPages.{FileEdited};
ghost use Rattle.teco_apply.specs.InPlace.{IsRewritten};
ghost use Rattle.teco_apply.specs.Touched.{EditTouches};
ghost use Rattle.teco_options.specs.declared.editing.TheConstants.{NAME};
ghost use Rattle.teco_hosts.specs.HostFiles.{Notes};
ghost use Rattle.teco_run.specs.Holdings.{Joined};
ghost use Rattle.teco_console.specs.Premise.{IsPremise};
ghost use Rattle.teco_tools.specs.Scripts.{new_machine};
ghost use Rattle.teco_console.specs.declared.outcome.Outcome.TheVariants.{Refused};

use crate::bound::Bound;
use crate::names::Names;
use crate::watching::{Seen, Terms, Warden, Watch};
use std::alloc::Global;
use std::io::Write;
use teco_apply::{
    Edit, Edited, Ending, Observer, PageChoice, Rewrite, Rewritten, edit_file, edit_in_place,
};
use teco_base::Reg;
use teco_console::{Grouped, KnownNumber, Outcome, Request, Voice};
use teco_hosts::{Host, MemHost};
use teco_json::{Member, Value, object};
use teco_model::Needs;
use teco_promise::Promise;
use teco_run::Machine;
use teco_session::SessionFault;
use teco_source::Shown;
use teco_text::GapText;
use teco_tools::{Reporting, Start, ToolFault, machine_with, prepare, tell_anyway, told_name};

/// A macro of a library, and how it is run on files.
#[derive(Clone, Copy)]
pub struct Task<'a, 's> {
    pub library: Request<'a>,
    pub entry: Reg,
    /// The file of its certificate, which is checked; without one the macro is verified.
    pub certificate: Option<&'a str>,
    /// The argument that the macro is called with, if it is.
    pub argument: Option<i32>,
    /// The pages that it edits.
    pub pages: PageChoice,
    /// What the machine has before it is run.
    pub start: Start<'s>,
    /// The bytes that each run may type, and that its calls may take.
    pub cap: usize,
    /// Is a run outside its promise refused?
    pub is_strict: bool,
    /// Is a file refused whose first page alone would be edited, where it has more?
    pub wants_all: bool,
    /// How it is said how many commands the runs took, if it is.
    pub counts: Option<CountsForm>,
    /// Is the promise told before files are edited?
    pub tells_promise: bool,
}

/// How counts are said.
#[derive(Clone, Copy)]
pub enum CountsForm {
    InWords,
    /// As an object of JSON.
    AsObject,
}

// Says how many commands the runs on a file took, as an object of JSON.
fn tell_object<E: Write + Drop>(voice: &mut Voice<E>, name: &[u8], edited: Edited, seen: Seen) {
    let members = [
        Member {
            key: "file",
            value: Value::Text(told_name(name)),
        },
        Member {
            key: "pages",
            value: Value::Number(edited.pages),
        },
        Member {
            key: "commands",
            value: Value::Number(edited.steps),
        },
        Member {
            key: "bound",
            value: Value::MaybeNumber(seen.bound),
        },
        Member {
            key: "n",
            value: Value::MaybeNumber(seen.most),
        },
    ];
    if let Ok(line) = object(voice.alloc(), &members) {
        voice.repeat(&line);
    }
}

// Says how many commands the runs on a file took. It was asked for, so it is said in any case.
fn tell_counts<E: Write + Drop>(voice: &mut Voice<E>, name: &[u8], edited: Edited, seen: Seen) {
    let name = Shown(told_name(name));
    let pages = Grouped(edited.pages);
    let steps = Grouped(edited.steps);
    let bound = KnownNumber(seen.bound);
    let most = KnownNumber(seen.most);
    tell_anyway(
        voice,
        format_args!(
            "{name}: pages {pages}, commands {steps}, at most {bound} by the promise, N at most \
                {most}"
        ),
    );
}

// Says how many bytes behind the first page were copied as they were, in any case.
fn tell_unedited<E: Write + Drop>(voice: &mut Voice<E>, name: &[u8], unread: u64) {
    let name = Shown(told_name(name));
    let count = Grouped(unread);
    tell_anyway(
        voice,
        format_args!(
            "{name}: {count} bytes behind the first page were copied unedited; --pages each \
                or --pages whole edits them too"
        ),
    );
}

/// What is promised of a macro, and how files are edited by it.
#[derive(Clone, Copy)]
pub struct Job<'a> {
    /// What memory for machines comes from.
    pub alloc: Global,
    pub task: &'a Task<'a, 'a>,
    pub promise: &'a Promise<'a>,
}

impl<'a> Job<'a> {
    // On which terms runs on a file begin.
    fn terms(self) -> Terms
        ensures strict { result.is_strict ≡ self.entry.task.now.is_strict }
        ensures premise { IsPremise self.entry.promise.now.size
            self.entry.promise.now.commands result.bound.premise.last }
    {
        let is_first = matches!(self.task.pages, PageChoice::First);
        Terms {
            bound: Bound::of(self.promise),
            is_strict: self.task.is_strict,
            wants_all: self.task.wants_all && is_first && !self.turns_pages(),
        }
    }

    // What is watched of the runs on the file of a name.
    fn watch(self, name: &'a [u8]) -> Watch<'a> {
        Watch {
            name,
            terms: self.terms(),
        }
    }

    /// Does the macro read or write pages itself?
    pub fn turns_pages(self) -> bool {
        let Needs { input, output } = self.promise.needs();
        input || output
    }
}

/// What came of an edit, and what was seen of its runs.
#[derive(Clone, Copy)]
pub struct Watched {
    pub edited: Edited,
    pub seen: Seen,
}

// What came of an edit that was watched, if it came to its end.
fn with_seen(edited: Result<Edited, SessionFault>, seen: Seen) -> Result<Watched, ToolFault>
    ensures { IsSeen edited result }
{
    match edited {
        Ok(edited) => Ok(Watched { edited, seen }),
        Err(fault) => Err(ToolFault::Session(fault)),
    }
}

/// What is done, and with which files.
#[derive(Clone, Copy)]
pub struct Work<'a> {
    pub job: Job<'a>,
    pub names: Names<'a>,
}

// Edits a file on a machine, on the terms of the job, which an observer hears.
fn edit_observed<H: Host, O: Write, V: Observer<H>>(
    machine: &mut Machine<GapText>,
    work: Work<'_>,
    host: &mut H,
    out: &mut O,
    observer: &mut V,
) -> Result<Edited, SessionFault>
    ensures edits { OnTerms work.entry.job.task.now.is_strict
        (record { promise = work.entry.job.promise.now; given = work.entry.job.task.now.argument })
        (λ order. Joined (λ old new. FileEdited work.entry.job.task.now.pages order
        work.entry.names.source.now work.entry.names.target.now old new (H.failures host.old) (H.failures host.new)
        (O.contents out.old) (O.contents out.new) result)
        machine.old machine.new (H.files host.old) (H.files host.new)) }
    ensures touches { EditTouches
        (record { promise = work.entry.job.promise.now; given = work.entry.job.task.now.argument })
        work.entry.names.source.now work.entry.names.target.now result
        machine.old machine.new (H.files host.old) (H.files host.new) }
{
    let Work { job, names } = work;
    let terms = job.terms();
    let edit = Edit {
        alloc: job.alloc,
        promise: job.promise,
        source: names.source,
        target: names.target,
        given: job.task.argument,
        pages: job.task.pages,
        guard: &terms,
    };
    edit_file(machine, &edit, host, out, observer)
}

// Edits a file on a machine, and watches the runs.
fn watch_edit<H: Host + Reporting, O: Write, E: Write + Drop>(
    out: &mut O,
    voice: &mut Voice<E>,
    machine: &mut Machine<GapText>,
    work: Work<'_>,
    host: &mut H,
) -> Result<Watched, ToolFault>
    ensures { Watches work.entry.job.task.now (call_of work.entry.job) work.entry.names
        machine.old machine.new (H.files host.old) (H.files host.new)
        (trace_of (H.failures host.old) (O.contents out.old))
        (trace_of (H.failures host.new) (O.contents out.new)) result }
{
    let watch = work.job.watch(work.names.source);
    let mut warden = Warden::new(voice, watch);
    let edited = edit_observed(machine, work, host, out, &mut warden);
    with_seen(edited, warden.seen())
}

// Edits a file on a machine, and says what there is to be said of it.
fn edit_on<H: Host + Reporting, O: Write, E: Write + Drop>(
    out: &mut O,
    voice: &mut Voice<E>,
    machine: &mut Machine<GapText>,
    work: Work<'_>,
    host: &mut H,
) -> Result<Outcome, ToolFault>
    ensures { EditsOn work.entry.job.task.now (call_of work.entry.job) work.entry.names
        machine.old machine.new (H.files host.old) (H.files host.new)
        (trace_of (H.failures host.old) (O.contents out.old))
        (trace_of (H.failures host.new) (O.contents out.new)) result }
{
    match watch_edit(out, voice, machine, work, host) {
        Ok(watched) => conclude(voice, work.job.task, work.names.source, watched),
        Err(fault) => Err(fault),
    }
}

// Prepares a new machine, and edits a file on it.
fn edit_prepared<H: Host + Reporting, O: Write, E: Write + Drop>(
    out: &mut O,
    voice: &mut Voice<E>,
    machine: &mut Machine<GapText>,
    work: Work<'_>,
    host: &mut H,
) -> Result<Outcome, ToolFault>
    requires new { machine.old ≡ new_machine }
    ensures { EditsBy work.entry.job.task.now (call_of work.entry.job) work.entry.names
        (H.files host.old) (H.files host.new)
        (trace_of (H.failures host.old) (O.contents out.old))
        (trace_of (H.failures host.new) (O.contents out.new)) result }
{
    prepare(machine, work.job.task.start, host)?;
    edit_on(out, voice, machine, work, host)
}

/// Edits a file by a verified macro over the files of a host, and says what there is to be said of
/// it.
pub fn edit_by<H: Host + Reporting, O: Write, E: Write + Drop>(
    out: &mut O,
    voice: &mut Voice<E>,
    work: Work<'_>,
    host: &mut H,
) -> Result<Outcome, ToolFault>
    ensures { EditsBy work.entry.job.task.now (call_of work.entry.job) work.entry.names
        (H.files host.old) (H.files host.new)
        (trace_of (H.failures host.old) (O.contents out.old))
        (trace_of (H.failures host.new) (O.contents out.new)) result }
{
    let mut machine = machine_with(work.job.alloc, work.job.task.cap);
    edit_prepared(out, voice, &mut machine, work, host)
}

/// What came of the edit of a file in place, and its host.
#[derive(Drop)]
pub struct Replaced<H: Host + Drop> {
    pub outcome: Result<Outcome, ToolFault>,
    pub host: H,
    /// What was watched, if the edit came to its end.
    pub watched: Option<Watched>,
}

/// A file that is edited in place, on the terms of a job.
#[derive(Clone, Copy)]
pub struct OneWork<'a, E: Ending> {
    pub job: Job<'a>,
    pub name: &'a [u8],
    /// Does its new text take its place?
    pub ending: E,
}

impl<'a, E: Ending> OneWork<'a, E> {
    /// A file, by its name.
    pub fn new(job: Job<'a>, name: &'a [u8], ending: E) -> OneWork<'a, E>
        ensures job { result.job ≡ job.entry }
        ensures name { result.name ≡ name.entry }
    {
        OneWork { job, name, ending }
    }
}

// Edits a file in place on a machine, on the terms of the job, which an observer hears.
fn rewrite_observed<H: Host + Drop, O: Write, E: Ending, V: Observer<H>>(
    machine: &mut Machine<GapText>,
    work: OneWork<'_, E>,
    host: H,
    out: &mut O,
    observer: &mut V,
) -> Rewritten<H>
    requires fresh { H.files host ≡ Notes [] }
    requires name { length work.name.now < NAME }
    ensures edits { OnTerms work.entry.job.task.now.is_strict
        (record { promise = work.entry.job.promise.now; given = work.entry.job.task.now.argument })
        (λ order. IsRewritten work.entry.job.task.now.pages order work.entry.name.now E.replaces
        machine.old machine.new (H.files result.host) (H.failures host)
        (O.contents out.old) (O.contents out.new) result.edited) }
{
    let OneWork { job, name, ending } = work;
    let terms = job.terms();
    let rewrite = Rewrite {
        alloc: job.alloc,
        promise: job.promise,
        name,
        given: job.task.argument,
        pages: job.task.pages,
        guard: &terms,
        ending,
    };
    edit_in_place(machine, &rewrite, host, out, observer)
}

// What was watched of the edit of a file in place, and its host.
#[derive(Drop)]
struct WatchedFile<H: Host + Drop> {
    watched: Result<Watched, ToolFault>,
    host: H,
}

// Edits a file in place on a machine, and watches the runs.
fn watch_rewrite<H: Host + Reporting + Drop, O: Write, E: Write + Drop, K: Ending>(
    out: &mut O,
    voice: &mut Voice<E>,
    machine: &mut Machine<GapText>,
    work: OneWork<'_, K>,
    host: H,
) -> WatchedFile<H>
    requires fresh { H.files host ≡ Notes [] }
    requires name { length work.name.now < NAME }
    ensures { WatchesFile work.entry.job.task.now (call_of work.entry.job) work.entry.name.now K.replaces
        machine.old machine.new (H.files result.host) (H.failures host)
        (O.contents out.old) (O.contents out.new) result.watched }
{
    let watch = work.job.watch(work.name);
    let mut warden = Warden::new(voice, watch);
    let rewritten = rewrite_observed(machine, work, host, out, &mut warden);
    WatchedFile {
        watched: with_seen(rewritten.edited, warden.seen()),
        host: rewritten.host,
    }
}

// Says what there is to be said of the edit of a file in place.
fn conclude_rewrite<H: Host + Drop, E: Write + Drop>(
    voice: &mut Voice<E>,
    task: &Task<'_, '_>,
    name: &[u8],
    file: WatchedFile<H>,
) -> Replaced<H>
    ensures answers { IsAnswerTo task.now file.watched result.outcome }
    ensures host { result.host ≡ file.host }
{
    let WatchedFile { watched, host } = file;
    match watched {
        Ok(watched) => Replaced {
            outcome: conclude(voice, task, name, watched),
            host,
            watched: Some(watched),
        },
        Err(fault) => Replaced {
            outcome: Err(fault),
            host,
            watched: None,
        },
    }
}

// Edits a file in place on a machine, and says what there is to be said of it.
fn rewrite_on<H: Host + Reporting + Drop, O: Write, E: Write + Drop, K: Ending>(
    out: &mut O,
    voice: &mut Voice<E>,
    machine: &mut Machine<GapText>,
    work: OneWork<'_, K>,
    host: H,
) -> Replaced<H>
    requires fresh { H.files host ≡ Notes [] }
    requires name { length work.name.now < NAME }
    ensures { RewritesOn work.entry.job.task.now (call_of work.entry.job) work.entry.name.now K.replaces
        machine.old machine.new (H.files result.host) (H.failures host)
        (O.contents out.old) (O.contents out.new) result.outcome }
{
    let task = work.job.task;
    let name = work.name;
    let file = watch_rewrite(out, voice, machine, work, host);
    conclude_rewrite(voice, task, name, file)
}

// Prepares a new machine, and edits a file in place on it.
fn rewrite_prepared<H: Host + Reporting + Drop, O: Write, E: Write + Drop, K: Ending>(
    out: &mut O,
    voice: &mut Voice<E>,
    machine: &mut Machine<GapText>,
    work: OneWork<'_, K>,
    host: H,
) -> Replaced<H>
    requires new { machine.old ≡ new_machine }
    requires fresh { H.files host ≡ Notes [] }
    requires name { length work.name.now < NAME }
    ensures { RewritesBy work.entry.job.task.now (call_of work.entry.job) work.entry.name.now K.replaces
        (H.files result.host) (H.failures host)
        (O.contents out.old) (O.contents out.new) result.outcome }
{
    let job = work.job;
    match prepare(machine, job.task.start, &mut MemHost::new(job.alloc)) {
        Ok(()) => rewrite_on(out, voice, machine, work, host),
        Err(fault) => Replaced {
            outcome: Err(fault),
            host,
            watched: None,
        },
    }
}

/// Edits a file in place by a verified macro over a host that has made no call yet, and says what there
/// is to be said of it.
pub fn rewrite_by<H: Host + Reporting + Drop, O: Write, E: Write + Drop, K: Ending>(
    out: &mut O,
    voice: &mut Voice<E>,
    work: OneWork<'_, K>,
    host: H,
) -> Replaced<H>
    requires fresh { H.files host ≡ Notes [] }
    requires name { length work.name.now < NAME }
    ensures { RewritesBy work.entry.job.task.now (call_of work.entry.job) work.entry.name.now K.replaces
        (H.files result.host) (H.failures host)
        (O.contents out.old) (O.contents out.new) result.outcome }
{
    let mut machine = machine_with(work.job.alloc, work.job.task.cap);
    rewrite_prepared(out, voice, &mut machine, work, host)
}

// Says what came of an edit.
fn conclude<E: Write + Drop>(
    voice: &mut Voice<E>,
    task: &Task<'_, '_>,
    name: &[u8],
    watched: Watched,
) -> Result<Outcome, ToolFault>
    ensures { IsAnswer task.now.wants_all watched.edited result }
{
    let Watched { edited, seen } = watched;
    match task.counts {
        None => {}
        Some(CountsForm::InWords) => tell_counts(voice, name, edited, seen),
        Some(CountsForm::AsObject) => tell_object(voice, name, edited, seen),
    }
    if edited.refused {
        return refused(seen);
    }
    if edited.coded {
        return Ok(Outcome::Coded);
    }
    Ok(outcome_of_rest(voice, task, name, seen))
}

// Says what was left unedited of a file whose first page was edited, and what comes of that.
fn outcome_of_rest<E: Write + Drop>(
    voice: &mut Voice<E>,
    task: &Task<'_, '_>,
    name: &[u8],
    seen: Seen,
) -> Outcome
    ensures { IsOutcome task.now.wants_all false false result }
{
    match (task.pages, seen.unread) {
        (PageChoice::First, Some(unread)) if unread > 0 => {
            tell_unedited(voice, name, unread);
            if task.wants_all {
                Outcome::Refused
            } else {
                Outcome::Done
            }
        }
        _ => Outcome::Done,
    }
}

// What comes of an edit that was refused a run.
fn refused(seen: Seen) -> Result<Outcome, ToolFault>
    ensures { IfOk result (λ outcome. outcome ≡ Refused) }
{
    match seen.most {
        None => Err(ToolFault::Unsized),
        Some(_) => Ok(Outcome::Refused),
    }
}
