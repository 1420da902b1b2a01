//! A host of the files of the system.
ghost use Rattle.std.specs.Prelude.{◌≡◌, ◌≤◌, ◌<◌, ◌+◌, ◌∷◌, [], suc, length, IfOk, IfSome, IsErr};
ghost use Rattle.teco_files.specs.Buffers.{source_told};
ghost use Rattle.teco_hosts.specs.Events.{dropped};
ghost use Rattle.teco_hosts.specs.HostFiles.{Becomes, Notes, after_dropping};
ghost use Rattle.teco_hosts.specs.Noting.{NotesJust};
ghost use Rattle.teco_pages.specs.Kept.{output_contents};
ghost use Rattle.teco_pages.specs.Texts.{AreNoted, edit_texts, noted_texts};
ghost use Rattle.teco_base.specs.declared.TheConstants.{LIMIT};
ghost use Rattle.std.specs.Io.KnownBytes.{WriteAppends};

mod calls;

use self::calls::Calls;
use crate::ahead::{InputAhead, open_source};
use crate::texts::{Texts, no_texts, note_input, note_output, note_read, note_written};
use std::alloc::Global;
use std::fs::{Files, OpenFile};
use std::io::{Read, Write};
use teco_base::LIMIT;
use teco_files::{
    Backup, Closed, Closing, Ended, Finish, Handling, Identity, ProcessFacts, Purpose, ReadFile,
    System, Trouble, TroubleReason, Unfinished, folder_of,
};
use teco_hosts::{Failed, Host};

/// Outputs replace their targets, and outlast a power cut.
const REPLACING: Handling = Handling {
    closing: Closing::Replaces,
    in_place: false,
    is_durable: true,
};

/// The files of the system, by the runtime `R`. It notes what its calls did, and how many of them
/// have failed.
///
/// An output is a new file in its target's folder, under a name that no file has, until `close_out`
/// moves it over its target: whole, and in one move. It has the owner, the group and the
/// permissions of a file that it will replace, as far as the system lets it; where it does not, the
/// set-id bits go.
///
/// A target that leads by links to a regular file is that file; any other that exists and is no
/// regular file is refused when the output is opened, as is one in a folder that cannot be written,
/// and one that leads to a file that a process has open, as `/dev/stdout` does.
///
/// Where files are edited in place the input is a regular file, and the output replaces that very
/// file: one that has its name by then, or that was changed since it was opened, stays as it is.
///
/// Where outputs are compared with their targets none is closed, and one that is dropped is compared
/// first.
///
/// Where what is read and written is kept, an output replaces no file that has other bytes by then than
/// those that were read.
///
/// Where an output is dropped, and where the host is dropped with one open, the new file is
/// removed; one that another file has taken the place of is neither moved nor removed. The name of
/// a new file tells its process, so that what a killed one left can be told and removed. A write past
/// the system's limit on the size of files fails. A name that is no UTF-8 opens nothing, and no
/// file keeps the descriptor of a standard stream, which may be closed.
///
/// An input is read ahead, up to 64 KiB in one read of the system. What such a read gives is served
/// at once, and its failure is told behind all that was read before. Small writes are kept
/// together, up to 64 KiB; a failure of the system is then that of the write, or of the close,
/// which sends them on. A write that fails takes none of its bytes, and what was kept before it is
/// kept on, so that the next write or the close sends it again from where the system stopped.
pub struct FileHost<R: System> {
    rt: R,
    alloc: Global,
    // read where the first output is opened, if they were not given
    facts: Option<ProcessFacts>,
    // the file that is the input where that has its name, opened ahead
    ahead: Option<InputAhead<R>>,
    input: Option<ReadFile<R::File>>,
    // how many bytes of the input were read
    given: usize,
    output: Option<Unfinished<R::File>>,
    handling: Handling,
    backup: Option<Backup>,
    // what was read and written, where that is kept
    texts: Option<Texts>,
    ended: Option<Ended>,
    calls: Calls,
    ghost within: { given ≤ LIMIT },
    ghost noted: { AreNoted calls.history.events texts },
}

impl<R: System> FileHost<R> {
    /// Nothing is open, and nothing noted. It has taken no memory yet, and will take it from `alloc`. Outputs replace
    /// their targets, and outlast a power cut.
    pub fn new(alloc: Global, rt: R) -> FileHost<R>
        ensures noted { ⟦<FileHost<R> as Host>⟧.files result ≡ Notes [] }
    {
        FileHost {
            rt,
            alloc,
            facts: None,
            ahead: None,
            input: None,
            given: 0,
            output: None,
            handling: REPLACING,
            backup: None,
            texts: None,
            ended: None,
            calls: Calls::new(alloc),
        }
    }

    /// Takes what hosts of this process need to know from another, which has read it.
    pub fn set_facts(&mut self, facts: ProcessFacts)
        ensures noted { ⟦<FileHost<R> as Host>⟧.files self.new ≡ ⟦<FileHost<R> as Host>⟧.files self.old }
    {
        self.facts = Some(facts);
    }

    /// The next input is this file, if it has its name. Inputs are regular files then.
    pub fn set_ahead(&mut self, ahead: Option<InputAhead<R>>)
        ensures noted { ⟦<FileHost<R> as Host>⟧.files self.new ≡ ⟦<FileHost<R> as Host>⟧.files self.old }
    {
        self.ahead = ahead;
    }

    /// From now on files are treated so.
    pub fn set_handling(&mut self, handling: Handling)
        ensures noted { ⟦<FileHost<R> as Host>⟧.files self.new ≡ ⟦<FileHost<R> as Host>⟧.files self.old }
    {
        self.handling = handling;
    }

    /// From now on files that are replaced are kept so.
    pub fn set_backup(&mut self, backup: Backup)
        ensures noted { ⟦<FileHost<R> as Host>⟧.files self.new ≡ ⟦<FileHost<R> as Host>⟧.files self.old }
    {
        self.backup = Some(backup);
    }

    /// From now on this becomes of outputs that are closed. A new host replaces their targets.
    pub fn set_closing(&mut self, closing: Closing)
        ensures noted { ⟦<FileHost<R> as Host>⟧.files self.new ≡ ⟦<FileHost<R> as Host>⟧.files self.old }
    {
        self.handling.closing = closing;
    }

    /// From now on what is read and written is kept, as far as there is memory for it.
    pub fn keep_texts(&mut self)
        requires fresh { ⟦<FileHost<R> as Host>⟧.files self.old ≡ Notes [] }
        ensures noted { ⟦<FileHost<R> as Host>⟧.files self.new ≡ Notes [] }
        ensures failures { ⟦<FileHost<R> as Host>⟧.failures self.new ≡ ⟦<FileHost<R> as Host>⟧.failures self.old }
    {
        self.texts = no_texts(self.alloc);
    }

    /// What was read and written, where that is kept.
    pub fn texts(&self) -> Option<&Texts>
        ensures { IfSome result (λ texts. edit_texts texts.now ≡ noted_texts (⟦<FileHost<R> as Host>⟧.files self.now)) }
    {
        self.texts.as_ref()
    }

    /// Is an output open?
    pub fn has_output(&self) -> bool {
        self.output.is_some()
    }

    /// Drops the output, which can't be closed for this reason.
    pub fn refuse_out(&mut self, reason: TroubleReason) -> Result<(), Failed>
        ensures failed { IsErr result }
        ensures noted { NotesJust (dropped ∷ []) (⟦<FileHost<R> as Host>⟧.files self.old)
            (⟦<FileHost<R> as Host>⟧.files self.new) }
        ensures files { Becomes after_dropping (⟦<FileHost<R> as Host>⟧.files self.old)
            (⟦<FileHost<R> as Host>⟧.files self.new) }
        ensures counted { ⟦<FileHost<R> as Host>⟧.failures self.new
            ≡ suc (⟦<FileHost<R> as Host>⟧.failures self.old) }
        ensures given { ⟦<FileHost<R> as Host>⟧.given self.new ≡ ⟦<FileHost<R> as Host>⟧.given self.old }
    {
        self.calls.history.dropped();
        let output = self.output.take();
        let _removed = abandon(&self.rt, output);
        self.calls.cannot_use(Purpose::CloseOutput, reason)
    }

    /// What became of the output that was closed last, or compared and dropped.
    pub fn closed(&self) -> Option<Closed> {
        Some(self.ended.as_ref()?.closed)
    }

    /// The folder of the file that the output which was closed last replaced, if it did.
    pub fn changed_folder(&self) -> Option<&str> {
        let path = self.ended.as_ref()?.moved_to.as_ref()?;
        Some(folder_of(path))
    }

    /// What could not be done in the last call that failed.
    pub fn trouble(&self) -> Option<&Trouble> {
        self.calls.trouble.as_ref()
    }

    // The file that is open as the input, if one is.
    fn input_file(&self) -> Option<&R::File> {
        Some(self.input.as_ref()?.file())
    }

    // How the output that is open is closed.
    fn finish(&self) -> Finish<'_> {
        Finish {
            handling: self.handling,
            is_same: is_same(self.texts.as_ref(), self.input.as_ref()),
            backup: self.backup.as_ref(),
            old: self.texts.as_ref().map(|texts| texts.old.as_slice()),
        }
    }

    /// How many bytes the open input had when it was opened, if that was told.
    pub fn input_length(&self) -> Option<u64> {
        self.input.as_ref()?.length()
    }

    /// How many bytes of the open input were not given yet, if that can be told. No more come.
    pub fn bytes_left(&self) -> Option<u64> {
        let length = self.input_length()?;
        Some(length.saturating_sub(self.given as u64))
    }
}

impl<R: System> Drop for FileHost<R> {
    fn drop(self) {
        let Self {
            rt,
            alloc: _,
            facts: _,
            ahead: _,
            input: _,
            given: _,
            output,
            handling: _,
            backup: _,
            texts: _,
            ended: _,
            calls: _,
        } = self;
        let _removed = abandon(&rt, output);
    }
}

impl<R: System> Host for FileHost<R> {
    ghost files = { λ h. Notes h.calls.history.events };

    ghost failures = { λ h. h.calls.failures.value };

    ghost given = { λ h. h.given };

    fn open_in(&mut self, name: &[u8]) -> Result<(), Failed> {
        let ahead = self.ahead.take();
        match open_source(&self.rt, self.alloc, ahead, name, self.handling.in_place) {
            Ok(file) => {
                self.input = Some(file);
                self.given = 0;
                note_input(&mut self.texts, name);
                self.calls.opened_input(name);
                Ok(())
            }
            Err(reason) => self.calls.cannot_open(Purpose::OpenInput, name, reason),
        }
    }

    fn read(&mut self, buf: &mut [u8]) -> Result<usize, Failed> {
        match read_some(&mut self.input, self.given, buf) {
            Ok(n) => {
                self.given += n;
                note_read(&mut self.texts, buf, n);
                self.calls.history.gave(buf, n);
                Ok(n)
            }
            Err(reason) => self.calls.cannot_use(Purpose::ReadInput, reason),
        }
    }

    fn open_out(&mut self, name: &[u8]) -> Result<(), Failed> {
        let facts = facts_of(&self.rt, self.alloc, self.facts);
        self.facts = Some(facts);
        let begin = Begin {
            name,
            facts,
            only: only_of(&self.input, self.handling),
        };
        match begin_output(&self.rt, self.alloc, &mut self.output, begin) {
            Ok(()) => {
                note_output(&mut self.texts, name);
                self.calls.opened_output(name);
                Ok(())
            }
            Err(reason) => self.calls.cannot_open(Purpose::OpenOutput, name, reason),
        }
    }

    fn write(&mut self, bytes: &[u8]) -> Result<usize, Failed> {
        match write_some(&mut self.output, bytes) {
            Ok(n) => {
                note_written(&mut self.texts, bytes, n);
                self.calls.history.wrote(bytes, n);
                Ok(n)
            }
            Err(reason) => self.calls.cannot_use(Purpose::WriteOutput, reason),
        }
    }

    fn close_out(&mut self) -> Result<(), Failed> {
        let output = self.output.take();
        let finish = self.finish();
        match close(&self.rt, self.alloc, output, self.input_file(), finish) {
            Ok(ended) => {
                self.ended = Some(ended);
                self.calls.history.closed();
                Ok(())
            }
            Err(reason) => {
                self.calls.history.dropped();
                self.calls.cannot_use(Purpose::CloseOutput, reason)
            }
        }
    }

    fn drop_out(&mut self) -> Result<(), Failed> {
        self.calls.history.dropped();
        let output = self.output.take();
        let finish = self.finish();
        match let_go(&self.rt, self.alloc, output, self.input_file(), finish) {
            Ok(ended) => {
                if ended.is_some() {
                    self.ended = ended;
                }
                Ok(())
            }
            Err(reason) => self.calls.cannot_use(Purpose::DropOutput, reason),
        }
    }

    fn left_of_input(&mut self) -> Option<u64> {
        let left = self.bytes_left()?;
        self.calls.history.measured(left);
        Some(left)
    }
}

// What hosts of this process need to know, read where that was not done.
fn facts_of<R: System>(rt: &R, alloc: Global, facts: Option<ProcessFacts>) -> ProcessFacts {
    match facts {
        Some(facts) => facts,
        None => ProcessFacts::read(rt, alloc),
    }
}

// The only file that an output may replace: the input, where files are edited in place.
fn only_of<F: OpenFile + Read + Drop>(
    input: &Option<ReadFile<F>>,
    handling: Handling,
) -> Option<Identity> {
    if handling.in_place {
        Some(input.as_ref()?.identity())
    } else {
        None
    }
}

// Does an output have the bytes of the input that it replaces, if that can be told?
fn is_same<F: OpenFile + Read + Drop>(
    texts: Option<&Texts>,
    input: Option<&ReadFile<F>>,
) -> Option<bool> {
    let Texts { old, new } = texts?;
    if input?.length()? == old.len() as u64 {
        Some(old.as_slice() == new.as_slice())
    } else {
        None
    }
}

// How many bytes a file may give: no more than it had when it was opened, if that was told.
fn most_given<F: OpenFile + Read + Drop>(file: &ReadFile<F>) -> usize
    ensures limit { result ≤ LIMIT }
    ensures told { IfSome (source_told file.now) (λ told. result ≤ told) }
{
    match file.length() {
        Some(told) => match usize::try_from(told) {
            Ok(told) => told.min(LIMIT),
            Err(_) => LIMIT,
        },
        None => LIMIT,
    }
}

// Reads some bytes of a file of which so many were given, but no more than are left of what it may
// give. Where none are it must be at its end.
fn read_on<F: OpenFile + Read + Drop>(
    file: &mut ReadFile<F>,
    given: usize,
    buf: &mut [u8],
) -> Result<usize, TroubleReason>
    requires { given ≤ LIMIT }
    ensures bound { IfOk result (λ n. n ≤ length buf.new) }
    ensures limit { IfOk result (λ n. given + n ≤ LIMIT) }
    ensures told { IfSome (source_told file.old) (λ told. given ≤ told → IfOk result (λ n. given + n ≤ told)) }
{
    let most = most_given(file);
    match file.read_within(most.saturating_sub(given), buf) {
        Err(TroubleReason::Long) if most < LIMIT => Err(TroubleReason::Grown),
        answer => answer,
    }
}

// Reads some bytes of the input that is open, of which so many were given.
fn read_some<F: OpenFile + Read + Drop>(
    input: &mut Option<ReadFile<F>>,
    given: usize,
    buf: &mut [u8],
) -> Result<usize, TroubleReason>
    requires { given ≤ LIMIT }
    ensures bound { IfOk result (λ n. n ≤ length buf.new) }
    ensures limit { IfOk result (λ n. given + n ≤ LIMIT) }
{
    match input {
        Some(file) => read_on(file, given, buf),
        None => Err(TroubleReason::NotOpen),
    }
}

// An output that is begun.
#[derive(Clone, Copy)]
struct Begin<'a> {
    name: &'a [u8],
    facts: ProcessFacts,
    // the only file that it may replace, where it may not replace any
    only: Option<Identity>,
}

// Begins an output, unless one is open.
fn begin_output<R: System>(
    rt: &R,
    alloc: Global,
    output: &mut Option<Unfinished<R::File>>,
    begin: Begin<'_>,
) -> Result<(), TroubleReason> {
    if output.is_some() {
        return Err(TroubleReason::NotOpen);
    }
    *output = Some(Unfinished::begin(rt, alloc, begin.name, begin.facts, begin.only)?);
    Ok(())
}

// Removes what was written of an output, if one is open.
fn abandon<R: Files>(rt: &R, output: Option<Unfinished<R::File>>) -> Result<(), TroubleReason> {
    match output {
        Some(output) => output.abandon(rt),
        None => Ok(()),
    }
}

// Writes some bytes to the output that is open.
fn write_some<F: OpenFile + Write + Drop>(
    output: &mut Option<Unfinished<F>>,
    bytes: &[u8],
) -> Result<usize, TroubleReason>
    ensures bound { IfOk result (λ n. n ≤ length bytes.now) }
    ensures some { IfOk result (λ n. 0 < length bytes.now → 0 < n) }
    ensures bytes { WriteAppends (output_contents F.contents output.old)
        (output_contents F.contents output.new) result bytes.now }
{
    match output {
        Some(output) => output.write_some(bytes),
        None => Err(TroubleReason::NotOpen),
    }
}

// Closes the output that is open, unless outputs are only compared.
fn close<R: System>(
    rt: &R,
    alloc: Global,
    output: Option<Unfinished<R::File>>,
    input: Option<&R::File>,
    finish: Finish<'_>,
) -> Result<Ended, TroubleReason> {
    match output {
        Some(output) if finish.handling.closing != Closing::Compares => {
            output.finish(rt, alloc, input, finish)
        }
        output => {
            abandon(rt, output)?;
            Err(TroubleReason::NotOpen)
        }
    }
}

// Drops the output, if one is open. What came of it is told where outputs are compared.
fn let_go<R: System>(
    rt: &R,
    alloc: Global,
    output: Option<Unfinished<R::File>>,
    input: Option<&R::File>,
    finish: Finish<'_>,
) -> Result<Option<Ended>, TroubleReason> {
    match output {
        Some(output) if finish.handling.closing == Closing::Compares => {
            Ok(Some(output.finish(rt, alloc, input, finish)?))
        }
        output => {
            abandon(rt, output)?;
            Ok(None)
        }
    }
}
