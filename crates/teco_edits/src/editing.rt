//! Files are edited in place, one after another, by the macro of a job.
ghost use Rattle.std.specs.Prelude.{◌≡◌, ◌<◌, ◌↔◌, [], length, true, IsTrue, IfOk, OnOk};
ghost use Rattle.std.specs.Io.KnownBytes.{Appends};
ghost use Rattle.teco_options.specs.declared.editing.TheConstants.{NAME};
ghost use Rattle.teco_edits.specs.Files as edits;
ghost use Rattle.teco_edits.specs.Outcomes as outcomes;
ghost use Rattle.teco_edits.specs.Files.{EditsAll, EditsFile, EditsFiles, EditsNamed, EditsNext};
ghost use Rattle.teco_edits.specs.Files.{EditsOne, IsFileName, MayBeLeft, ShowsChange};
ghost use Rattle.teco_edits.specs.Files.{ShowsEnded, is_change, is_done, is_made, listed, outcome_of, shown_typed};
ghost use Rattle.teco_edits.specs.Files.{tally_with};
ghost use Rattle.teco_edit_parts.specs.Typed as lines;
ghost use Rattle.teco_edits.specs.Files.{EditsAsObject, EditsPlainly, TellsDifference, TellsNoName};
ghost use Rattle.teco_edits.specs.Objects.{report_object};
ghost use Rattle.teco_hosts.specs.HostFiles.{Notes};
ghost use Rattle.teco_pages.specs.Texts.{noted_texts};

use crate::object::{Counts, FileReport};
use crate::outcome::EditOutcome;
use std::alloc::{AllocError, Global};
use std::io::Write;
use std::mem;
use teco_apply::{Drops, Ending, Replaces};
use teco_base::bytes::{ESC, LF};
use teco_console::{Console, Outcome, Voice};
use teco_edit_parts::{
    ChosenFile, EditProgress, FilesDone, Folders, is_binary, named_lines, without_code, write_diff,
};
use teco_files::{Backup, Closing, Handling, ProcessFacts, System};
use teco_hosts::Host;
use teco_jobs::{Job, OneWork, Replaced, rewrite_by};
use teco_judging::{Breaking, tell_broken};
use teco_options::{Change, Keeping, Look, NAME, Naming};
use teco_pages::{EditTerms, FileHost, InputAhead, PolicyHost, Texts};
use teco_policy::{Broken, Policy};
use teco_session::SessionFault;
use teco_source::Shown;
use teco_tools::ToolFault;

/// Files that are edited in place, each by itself.
#[derive(Clone, Copy)]
pub struct InPlaceEdits<'a> {
    pub files: &'a [ChosenFile],
    pub change: Change,
    /// What the edit of a file must not do; one that would leaves the file as it was.
    pub policies: &'a [Policy],
    /// Are files edited that have a NUL near their beginning?
    pub takes_binary: bool,
    /// How it is printed what differs, if it is.
    pub diff: Option<Look>,
    /// Is it shown how far the edit has come, on a terminal?
    pub shows_progress: bool,
    /// Is a name that is printed ended by a NUL, and not by a LF?
    pub ends_by_nul: bool,
    /// Is an object of JSON printed for each file, in place of all else?
    pub prints_objects: bool,
    pub keeping: Option<Keeping<'a>>,
    /// Is each file made to outlast a power cut before it has its name?
    pub is_durable: bool,
    pub naming: Naming,
}

/// How many files were edited.
#[derive(Clone, Copy)]
struct EditTally {
    files: usize,
    changed: usize,
    failed: usize,
    outcome: EditOutcome,
}

/// None yet.
const NONE: EditTally = EditTally {
    files: 0,
    changed: 0,
    failed: 0,
    outcome: EditOutcome::Done,
};

// One more, if it counts; so many at most as a number says.
fn counted(count: usize, counts: bool) -> usize
    ensures { result ≡ edits.counted count counts }
{
    if counts {
        count.saturating_add(1)
    } else {
        count
    }
}

impl EditTally {
    // These files, and one more.
    fn with(self, ended: EditEnd) -> EditTally
        ensures { result ≡ tally_with ended self }
    {
        EditTally {
            files: counted(self.files, true),
            changed: counted(self.changed, ended.is_change()),
            failed: counted(self.failed, !ended.is_done()),
            outcome: self.outcome.worse(EditOutcome::of_runs(ended.outcome)),
        }
    }

    // What came of all files.
    fn outcome_of(self, change: Change) -> EditOutcome
        ensures { result ≡ outcome_of change self }
    {
        match change {
            Change::Checked if self.changed > 0 => self.outcome.worse(EditOutcome::WouldChange),
            _ => self.outcome,
        }
    }
}

// Can a file be edited by this name? It is one, has no ESC and is not too long.
fn is_name(name: &[u8]) -> bool
    ensures { IsTrue result ↔ IsFileName name.now }
{
    name.len() < NAME && !name.is_empty() && !name.contains(&ESC)
}

// Says that no file of this name can be edited.
fn tell_name<E: Write + Drop>(voice: &mut Voice<E>, name: &[u8]) {
    if name.is_empty() {
        voice.complain("an empty word names no file");
        return;
    }
    let shown = Shown(name);
    voice.complain(format_args!(
        "{shown} is not edited: a file's name holds no ESC and at most 4095 bytes"
    ));
}

// Says that a file is left as it is, since it has a NUL: in any case, if a word names it.
fn tell_left<E: Write + Drop>(voice: &mut Voice<E>, file: &ChosenFile) {
    let shown = Shown(&file.name);
    let told = "has a NUL near its beginning and is left as it is; --binary edits it too";
    if file.is_found {
        voice.say(format_args!("{shown} {told}"));
    } else {
        voice.complain(format_args!("{shown} {told}"));
    }
}

// What came of the edit of a file.
#[derive(Clone, Copy)]
struct EditEnd {
    outcome: Outcome,
    // is its new text another?
    differs: bool,
}

impl EditEnd {
    // Did all runs on the file come to their end?
    fn is_done(self) -> bool
        ensures { result ≡ is_done self }
    {
        matches!(self.outcome, Outcome::Done)
    }

    // Would the file change?
    fn is_change(self) -> bool
        ensures { result ≡ is_change self }
    {
        self.is_done() && self.differs
    }
}

// A file that can't be edited.
const FAILED: EditEnd = EditEnd {
    outcome: Outcome::Coded,
    differs: false,
};

// What came of the edit of a file, and its host.
#[derive(Drop)]
struct EditedFile<'f, R: System> {
    ended: EditEnd,
    host: PolicyHost<'f, R>,
    counts: Counts,
}

// What runs on a file typed, and what came of them.
#[derive(Drop)]
struct FileRuns<'a> {
    name: &'a [u8],
    typed: &'a [u8],
    outcome: Outcome,
}

// A text without the line end at its end; none of an empty one.
fn unless_empty(text: &[u8]) -> Option<&[u8]> {
    match text.strip_suffix(b"\n") {
        Some(front) => Some(front),
        None if text.is_empty() => None,
        None => Some(text),
    }
}

// Prints the object of what came of the edit of a file.
fn print_report<O: Write + Drop, E: Write + Drop>(
    console: &mut Console<O, E>,
    report: &FileReport<'_>,
) -> Result<(), ToolFault>
    ensures { OnOk result (Appends (O.contents console.old.out) (O.contents console.new.out)
        (report_object report.now)) }
{
    console.voice.clear();
    console.out.write_all(&report.object(console.alloc)?)?;
    Ok(())
}

// How a host treats files that are edited so.
fn handling_of(given: &InPlaceEdits<'_>) -> Handling {
    Handling {
        closing: match given.change {
            Change::Made => Closing::ReplacesOther,
            Change::Listed | Change::Checked => Closing::Compares,
        },
        in_place: true,
        is_durable: given.is_durable,
    }
}

// How a host keeps files, if it does.
fn backup_of(alloc: Global, keeping: Option<Keeping<'_>>) -> Result<Option<Backup>, AllocError> {
    let Some(Keeping { suffix, replaces }) = keeping else {
        return Ok(None);
    };
    Ok(Some(Backup {
        suffix: String::from_str(alloc, suffix)?,
        replaces,
    }))
}

// What is typed over a file is kept in memory, so that only want of memory keeps it from being
// written.
fn of_memory(fault: ToolFault) -> ToolFault {
    match fault {
        ToolFault::Session(SessionFault::Write) => ToolFault::Session(SessionFault::Memory),
        other => other,
    }
}

// What edits leave for those behind them: folders, and a file that was opened ahead of its edit.
#[derive(Drop)]
struct Course<R: System> {
    folders: Folders,
    ahead: Option<InputAhead<R>>,
}

impl<R: System> Course<R> {
    // None yet.
    fn new(alloc: Global) -> Course<R> {
        Course {
            folders: Folders::new(alloc),
            ahead: None,
        }
    }

    // Opens a file ahead of its edit. Has it a NUL near its beginning? One that can't be read has none.
    fn opens_nul(&mut self, rt: &R, alloc: Global, name: &[u8]) -> Result<bool, AllocError> {
        self.ahead = InputAhead::open(rt, alloc, name)?;
        Ok(match &mut self.ahead {
            Some(ahead) => is_binary(ahead.first_bytes()),
            None => false,
        })
    }
}

// Files that are edited by a macro.
#[derive(Drop)]
struct Editing<'r, 'j, 'g, 'f, R: System + Copy> {
    rt: &'r R,
    job: Job<'j>,
    given: &'g InPlaceEdits<'f>,
    facts: ProcessFacts,
}

impl<'f, R: System + Copy> Editing<'_, '_, '_, 'f, R> {
    // A host for one file, which may be open ahead.
    fn file_host(
        &self,
        alloc: Global,
        ahead: Option<InputAhead<R>>,
    ) -> Result<FileHost<R>, AllocError>
        ensures { IfOk result (λ host. ⟦<FileHost<R> as Host>⟧.files host ≡ Notes []) }
    {
        let backup = backup_of(alloc, self.given.keeping)?;
        let mut host = FileHost::new(alloc, *self.rt);
        host.set_facts(self.facts);
        host.set_ahead(ahead);
        host.set_handling(handling_of(self.given));
        if let Some(backup) = backup {
            host.set_backup(backup);
        }
        Ok(host)
    }

    // A host for one file, on the terms of its edit.
    fn host(
        &self,
        alloc: Global,
        terms: EditTerms<'f>,
        ahead: Option<InputAhead<R>>,
    ) -> Result<PolicyHost<'f, R>, AllocError>
        ensures { IfOk result (λ host. ⟦<PolicyHost<'f, R> as Host>⟧.files host ≡ Notes []) }
    {
        Ok(PolicyHost::new(self.file_host(alloc, ahead)?, terms))
    }

    // Writes what was typed over a file.
    fn write_typed<O: Write>(
        &self,
        alloc: Global,
        out: &mut O,
        name: &[u8],
        typed: &[u8],
    ) -> Result<(), ToolFault>
        ensures { OnOk result (Appends (O.contents out.old) (O.contents out.new)
            (shown_typed self.now.given.now name.now typed.now)) }
    {
        if self.given.naming.holds_for(self.given.files.len()) {
            out.write_all(&named_lines(alloc, name, typed)?)?;
        } else {
            out.write_all(typed)?;
        }
        Ok(())
    }

    // Writes what runs on a file typed, and notes the folder of a file that was replaced.
    fn end_edit<O: Write + Drop, E: Write + Drop>(
        &self,
        console: &mut Console<O, E>,
        course: &mut Course<R>,
        runs: FileRuns<'_>,
        host: &PolicyHost<'f, R>,
    ) -> Result<EditEnd, ToolFault>
        ensures outcome { IfOk result (λ ended. ended.outcome ≡ runs.entry.outcome) }
        ensures differs { IfOk result (TellsDifference (noted_texts (⟦<PolicyHost<'f, R> as Host>⟧.files host.now))) }
        ensures written { IfOk result (λ ended.
            Appends (O.contents console.old.out) (O.contents console.new.out)
            (shown_typed self.now.given.now runs.entry.name.now
            (lines.without_code runs.entry.typed.now (outcomes.is_coded ended.outcome)))) }
    {
        let FileRuns {
            name,
            typed,
            outcome,
        } = runs;
        console.voice.clear();
        let Some(differs) = host.has_changed() else {
            return Err(AllocError.into());
        };
        let typed = without_code(typed, is_coded(outcome));
        self.write_typed(console.alloc, &mut console.out, name, typed)?;
        course.folders.note_changed(host.host().changed_folder())?;
        Ok(EditEnd { outcome, differs })
    }

    // Edits a file in place.
    #[tactic(auto, using(crate::proofs::Files::met_by))]
    fn edit_at<O: Write + Drop, E: Write + Drop, K: Ending>(
        &self,
        console: &mut Console<O, E>,
        course: &mut Course<R>,
        name: &[u8],
        ending: K,
    ) -> Result<EditedFile<'f, R>, ToolFault>
        requires { length name.now < NAME }
        ensures { IfOk result (λ edited. EditsNamed self.now.given.now self.now.job name.now K.replaces
            (O.contents console.old.out) (O.contents console.new.out) edited.ended) }
    {
        let terms = EditTerms {
            policies: self.given.policies,
            closes: K::replaces(),
        };
        let host = self.host(console.alloc, terms, course.ahead.take())?;
        let mut typed = Vec::new(console.alloc);
        let work = OneWork::new(self.job, name, ending);
        let Replaced {
            outcome,
            host,
            watched,
        } = rewrite_by(&mut typed, &mut console.voice, work, host);
        let outcome = match outcome {
            Ok(outcome) => outcome,
            Err(fault) => return Err(of_memory(fault)),
        };
        // the run's contract does not say that its host has the terms still that it was given
        if !host.has_met(terms) {
            return Err(AllocError.into());
        }
        let runs = FileRuns {
            name,
            typed: &typed,
            outcome,
        };
        let ended = self.end_edit(console, course, runs, &host)?;
        let counts = Counts::of(watched);
        Ok(EditedFile {
            ended,
            host,
            counts,
        })
    }

    // Edits a file of a name that it can be edited by, or tries to.
    fn edit_named<O: Write + Drop, E: Write + Drop>(
        &self,
        console: &mut Console<O, E>,
        course: &mut Course<R>,
        name: &[u8],
    ) -> Result<EditedFile<'f, R>, ToolFault>
        requires { length name.now < NAME }
        ensures { IfOk result (λ edited. EditsNamed self.now.given.now self.now.job name.now
            (is_made self.now.given.now.change)
            (O.contents console.old.out) (O.contents console.new.out) edited.ended) }
    {
        match self.given.change {
            Change::Made => self.edit_at(console, course, name, Replaces),
            Change::Listed | Change::Checked => self.edit_at(console, course, name, Drops),
        }
    }

    // Edits a file in place, and prints what was typed over it, and what became of it.
    fn edit_plainly<O: Write + Drop, E: Write + Drop>(
        &self,
        console: &mut Console<O, E>,
        course: &mut Course<R>,
        name: &[u8],
    ) -> Result<EditEnd, ToolFault>
        requires { length name.now < NAME }
        ensures { IfOk result (EditsPlainly self.now.given.now self.now.job name.now
            (O.contents console.old.out) (O.contents console.new.out)) }
    {
        let EditedFile { ended, host, .. } = self.edit_named(console, course, name)?;
        self.tell_ended(console, name, ended, &host)?;
        Ok(ended)
    }

    // Edits a file in place, and prints an object of what was typed over it, and what became of it.
    fn edit_as_object<O: Write + Drop, E: Write + Drop>(
        &self,
        console: &mut Console<O, E>,
        course: &mut Course<R>,
        name: &[u8],
    ) -> Result<EditEnd, ToolFault>
        requires { length name.now < NAME }
        ensures { IfOk result (EditsAsObject self.now.given.now self.now.job name.now
            (O.contents console.old.out) (O.contents console.new.out)) }
    {
        let alloc = console.alloc;
        let mut apart = Console::new(alloc, Vec::new(alloc), Vec::new(alloc));
        let EditedFile {
            ended,
            host,
            counts,
        } = self.edit_named(&mut apart, course, name)?;
        let typed = mem::replace(&mut apart.out, Vec::new(alloc));
        self.tell_ended(&mut apart, name, ended, &host)?;
        let (differences, messages) = apart.into_parts();
        let diff = unless_empty(&differences);
        let said = unless_empty(&messages);
        let report = FileReport {
            name,
            changes: ended.is_change(),
            outcome: EditOutcome::of_runs(ended.outcome),
            typed: &typed,
            counts,
            diff,
            said,
        };
        print_report(console, &report)?;
        Ok(ended)
    }

    // Edits a file in place, and says what became of it.
    fn edit_and_tell<O: Write + Drop, E: Write + Drop>(
        &self,
        console: &mut Console<O, E>,
        course: &mut Course<R>,
        name: &[u8],
    ) -> Result<EditEnd, ToolFault>
        requires { length name.now < NAME }
        ensures { IfOk result (EditsFile self.now.given.now self.now.job name.now
            (O.contents console.old.out) (O.contents console.new.out)) }
    {
        if self.given.prints_objects {
            self.edit_as_object(console, course, name)
        } else {
            self.edit_plainly(console, course, name)
        }
    }

    // Says that no file of a name can be edited, or prints an object that says so.
    fn refuse_name<O: Write + Drop, E: Write + Drop>(
        &self,
        console: &mut Console<O, E>,
        name: &[u8],
    ) -> Result<(), ToolFault>
        ensures { OnOk result (TellsNoName self.now.given.now.prints_objects name.now
            (O.contents console.old.out) (O.contents console.new.out)) }
    {
        if !self.given.prints_objects {
            tell_name(&mut console.voice, name);
            return Ok(());
        }
        let alloc = console.alloc;
        let mut apart = Console::new(alloc, Vec::new(alloc), Vec::new(alloc));
        tell_name(&mut apart.voice, name);
        let (differences, messages) = apart.into_parts();
        let typed = Vec::new(alloc);
        let diff = unless_empty(&differences);
        let said = unless_empty(&messages);
        let report = FileReport {
            name,
            changes: false,
            outcome: EditOutcome::Failed,
            typed: &typed,
            counts: Counts::of(None),
            diff,
            said,
        };
        print_report(console, &report)
    }

    // Edits a file in place.
    fn edit_one<O: Write + Drop, E: Write + Drop>(
        &self,
        console: &mut Console<O, E>,
        course: &mut Course<R>,
        name: &[u8],
    ) -> Result<EditEnd, ToolFault>
        ensures { IfOk result (EditsOne self.now.given.now self.now.job name.now
            (O.contents console.old.out) (O.contents console.new.out)) }
    {
        if !is_name(name) {
            self.refuse_name(console, name)?;
            return Ok(FAILED);
        }
        if let Change::Made = self.given.change {
            let voice = &mut console.voice;
            course.folders.sweep(self.rt, voice, name, self.facts)?;
        }
        self.edit_and_tell(console, course, name)
    }

    // Is a file left as it is, since it is none that people read? That is said.
    fn is_left<E: Write + Drop>(
        &self,
        voice: &mut Voice<E>,
        course: &mut Course<R>,
        file: &ChosenFile,
    ) -> Result<bool, ToolFault>
        ensures { IfOk result (λ left. left ≡ true → MayBeLeft self.now.given.now) }
    {
        let may_be_left = !self.given.takes_binary;
        if may_be_left && course.opens_nul(self.rt, voice.alloc(), &file.name)? {
            tell_left(voice, file);
            return Ok(true);
        }
        Ok(false)
    }

    // Prints the name of a file that would change, unless it is replaced.
    fn list<O: Write>(&self, alloc: Global, out: &mut O, name: &[u8]) -> Result<(), ToolFault>
        ensures { OnOk result (Appends (O.contents out.old) (O.contents out.new)
            (listed self.now.given.now name.now)) }
    {
        if self.given.prints_objects || matches!(self.given.change, Change::Made) {
            return Ok(());
        }
        let mut line = name.to_vec(alloc)?;
        line.push(if self.given.ends_by_nul { 0 } else { LF })?;
        out.write_all(&line)?;
        Ok(())
    }

    // Prints what differs in a file, or its name where it would change.
    fn tell_change<O: Write>(
        &self,
        alloc: Global,
        out: &mut O,
        name: &[u8],
        texts: Option<&Texts>,
    ) -> Result<(), ToolFault>
        ensures { OnOk result (ShowsChange self.now.given.now name.now
            (O.contents out.old) (O.contents out.new)) }
    {
        match (self.given.diff, texts) {
            (Some(look), Some(Texts { old, new })) => {
                let mut text = Vec::new(alloc);
                write_diff(alloc, &mut text, look, name, (old, new))?;
                out.write_all(&text)?;
                Ok(())
            }
            _ => self.list(alloc, out, name),
        }
    }

    // The policy that the edit of a file would break, if it would break one.
    fn breaking<'h>(&'h self, host: &'h PolicyHost<'f, R>) -> Option<Breaking<'h>> {
        let Broken { policy, breach } = host.broken()?;
        let texts = host.texts()?;
        Some(Breaking {
            policy: self.given.policies.get(policy)?,
            breach,
            old: &texts.old,
            new: &texts.new,
        })
    }

    // Says that a file is left as it was, and which policy its edit would break.
    fn tell_failed<E: Write + Drop>(
        &self,
        voice: &mut Voice<E>,
        name: &[u8],
        host: &PolicyHost<'f, R>,
    ) {
        match self.breaking(host) {
            Some(breaking) => tell_broken(voice, name, &breaking),
            None => {
                let shown = Shown(name);
                voice.complain(format_args!("{shown} is left as it was"));
            }
        }
    }

    // Says what became of a file.
    fn tell_ended<O: Write + Drop, E: Write + Drop>(
        &self,
        console: &mut Console<O, E>,
        name: &[u8],
        ended: EditEnd,
        host: &PolicyHost<'f, R>,
    ) -> Result<(), ToolFault>
        ensures { OnOk result (ShowsEnded self.now.given.now name.now ended
            (O.contents console.old.out) (O.contents console.new.out)) }
    {
        if ended.is_change() {
            console.voice.clear();
            let texts = host.texts();
            return self.tell_change(console.alloc, &mut console.out, name, texts);
        }
        if !ended.is_done() {
            self.tell_failed(&mut console.voice, name, host);
        }
        Ok(())
    }

    // Says how many files were edited.
    fn tell_tally<E: Write + Drop>(&self, voice: &mut Voice<E>, tally: EditTally) {
        let EditTally {
            files,
            changed,
            failed,
            outcome: _,
        } = tally;
        let word = match self.given.change {
            Change::Made => "changed",
            Change::Listed | Change::Checked => "would change",
        };
        voice.say(format_args!("files: {files}, {word}: {changed}, failed: {failed}"));
    }

    // Edits the next file, unless it is left as it is.
    fn edit_next<O: Write + Drop, E: Write + Drop>(
        &self,
        console: &mut Console<O, E>,
        course: &mut Course<R>,
        file: &ChosenFile,
        tally: EditTally,
    ) -> Result<EditTally, ToolFault>
        ensures { IfOk result (EditsNext self.now.given.now self.now.job file.now
            (O.contents console.old.out) (O.contents console.new.out) tally) }
    {
        if self.is_left(&mut console.voice, course, file)? {
            return Ok(tally);
        }
        let ended = self.edit_one(console, course, &file.name)?;
        Ok(tally.with(ended))
    }

    // Edits each file in turn; one that fails is left as it was, and the others go on.
    fn edit_all<O: Write + Drop, E: Write + Drop>(
        &self,
        console: &mut Console<O, E>,
        course: &mut Course<R>,
        files: &[ChosenFile],
    ) -> Result<EditTally, ToolFault>
        ensures { EditsAll self.now.given.now self.now.job files.now
            (O.contents console.old.out) (O.contents console.new.out) result }
    {
        let mut tally = NONE;
        let mut progress = EditProgress::begin(self.rt, self.given.shows_progress);
        let of = files.len();
        for (done, file) in files.iter().enumerate() {
            let place = FilesDone {
                done,
                of,
                name: &file.name,
            };
            progress.show(self.rt, &mut console.voice, place);
            match self.edit_next(console, course, file, tally) {
                Ok(after) => tally = after,
                Err(fault) => return Err(fault),
            }
        }
        Ok(tally)
    }

    // Edits each file in turn, and says how many were edited.
    fn edit_each<O: Write + Drop, E: Write + Drop>(
        &self,
        console: &mut Console<O, E>,
    ) -> Result<EditOutcome, ToolFault>
        ensures { EditsFiles self.now.given.now self.now.job
            (O.contents console.old.out) (O.contents console.new.out) result }
    {
        let mut course = Course::new(console.alloc);
        let tally = match self.edit_all(console, &mut course, self.given.files) {
            Ok(tally) => tally,
            Err(fault) => return Err(fault),
        };
        console.voice.clear();
        course.folders.sync(self.rt);
        self.tell_tally(&mut console.voice, tally);
        Ok(tally.outcome_of(self.given.change))
    }
}

// Did runs end with a code?
fn is_coded(outcome: Outcome) -> bool
    ensures { result ≡ outcomes.is_coded outcome }
{
    matches!(outcome, Outcome::Coded)
}

/// Edits each file in place by the macro of a job, with a new machine for each: one that fails is left as
/// it was, named, and the others go on. A file that would stay as it is isn't replaced.
pub fn edit_by_job<R, O, E>(
    rt: &R,
    console: &mut Console<O, E>,
    job: Job<'_>,
    given: &InPlaceEdits<'_>,
) -> Result<EditOutcome, ToolFault>
where
    R: System + Copy,
    O: Write + Drop,
    E: Write + Drop,
    ensures { EditsFiles given.now job.entry
        (O.contents console.old.out) (O.contents console.new.out) result }
{
    let facts = ProcessFacts::read(rt, console.alloc);
    let editing = Editing {
        rt,
        job,
        given,
        facts,
    };
    editing.edit_each(console)
}
