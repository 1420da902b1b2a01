//! Files, and the standard streams under a name of theirs.
ghost use Rattle.std.specs.Prelude.{◌≡◌, ◌≤◌, ◌<◌, ◌+◌, suc, length, IfOk, IsErr, OnErr};
ghost use Rattle.teco_base.specs.declared.TheConstants.{LIMIT};
ghost use Rattle.teco_hosts.specs.HostCalls.{Counts};
ghost use Rattle.teco_hosts.specs.HostFiles.{Notes};
ghost use Rattle.teco_streams.specs.Streams.{IsFresh, PassesOn, given_of, input_behind, of_files, output_behind};
ghost use Rattle.teco_streams.specs.Streams.{with_notes};
ghost use Rattle.teco_streams.specs.declared.streams.Open.TheVariants as open_as;

use std::alloc::Global;
use std::io;
use std::io::{ErrorKind, Read, Write};
use teco_base::LIMIT;
use teco_files::{Purpose, Trouble, TroubleReason};
use teco_hosts::{Count, Failed, History, Host};

/// What names standard input for a machine. No file can have a name with a NUL.
pub const INPUT: &[u8] = b"\0input";

/// What names standard output for a machine.
pub const OUTPUT: &[u8] = b"\0output";

/// A name as messages have it.
pub fn told_name(name: &[u8]) -> &[u8] {
    match name {
        INPUT => b"standard input",
        OUTPUT => b"standard output",
        _ => name,
    }
}

/// What is open: a file, or a standard stream.
#[derive(Clone, Copy)]
pub enum Open {
    File,
    Stream,
}

/// The files of a host, and under names of their own standard input and standard output. What is
/// written to standard output is sent at once, and stays sent where the output is dropped.
#[derive(Drop)]
pub struct Streams<H: Host + Drop, I: Read + Drop, O: Write + Drop> {
    files: H,
    reader: I,
    writer: O,
    input: Open,
    output: Open,
    // how many bytes of the stream were read
    given: usize,
    alloc: Global,
    trouble: Option<Trouble>,
    // those of the streams
    failures: Count,
    history: History,
    ghost within: { given ≤ LIMIT },
    ghost beneath: { H.files files ≡ with_notes (of_files open_as.File open_as.File history.events) (H.files files) },
    ghost reads: { input ≡ input_behind open_as.File history.events },
    ghost writes: { output ≡ output_behind open_as.File history.events },
}

impl<H: Host + Drop, I: Read + Drop, O: Write + Drop> Streams<H, I, O> {
    /// Nothing is open.
    pub fn new(alloc: Global, files: H, reader: I, writer: O) -> Streams<H, I, O>
        requires fresh { IsFresh (H.files files) }
    {
        Streams {
            files,
            reader,
            writer,
            input: Open::File,
            output: Open::File,
            given: 0,
            alloc,
            trouble: None,
            failures: Count::new(),
            history: History::new(),
        }
    }

    /// The host of the files.
    pub fn files(&self) -> &H
        ensures noted { PassesOn (⟦<Streams<H, I, O> as Host>⟧.files self.now) (H.files result.now) }
    {
        &self.files
    }

    /// Is the input that was opened last a file, and no stream?
    pub fn reads_file(&self) -> bool {
        matches!(self.input, Open::File)
    }

    /// What could not be done with a stream in the last call that failed in that.
    pub fn trouble(&self) -> Option<&Trouble> {
        self.trouble.as_ref()
    }

    /// The reader and the writer of the streams.
    pub fn into_parts(self) -> (I, O) {
        let Streams {
            files: _,
            reader,
            writer,
            input: _,
            output: _,
            given: _,
            alloc: _,
            trouble: _,
            failures: _,
            history: _,
        } = self;
        (reader, writer)
    }

    // Counts a failure of a stream, and keeps why it failed.
    fn failed<T>(
        &mut self,
        purpose: Purpose,
        name: &[u8],
        reason: TroubleReason,
    ) -> Result<T, Failed>
        ensures failed { IsErr result }
        ensures counted { self.new.failures.value ≡ suc self.old.failures.value }
        ensures history { self.new.history ≡ self.old.history }
        ensures files { self.new.files ≡ self.old.files }
        ensures input { self.new.input ≡ self.old.input }
        ensures output { self.new.output ≡ self.old.output }
        ensures given { self.new.given ≡ self.old.given }
    {
        self.trouble = Some(Trouble::of(self.alloc, purpose, told_name(name), reason));
        self.failures.failed()
    }

    // Standard input could not be read.
    fn cannot_read<T>(&mut self, reason: TroubleReason) -> Result<T, Failed>
        ensures failed { IsErr result }
        ensures counted { self.new.failures.value ≡ suc self.old.failures.value }
        ensures history { self.new.history ≡ self.old.history }
        ensures files { self.new.files ≡ self.old.files }
        ensures input { self.new.input ≡ self.old.input }
        ensures output { self.new.output ≡ self.old.output }
        ensures given { self.new.given ≡ self.old.given }
    {
        self.failed(Purpose::ReadInput, INPUT, reason)
    }

    // Standard output could not be written to.
    fn cannot_write<T>(&mut self, reason: TroubleReason) -> Result<T, Failed>
        ensures failed { IsErr result }
        ensures counted { self.new.failures.value ≡ suc self.old.failures.value }
        ensures history { self.new.history ≡ self.old.history }
        ensures files { self.new.files ≡ self.old.files }
        ensures input { self.new.input ≡ self.old.input }
        ensures output { self.new.output ≡ self.old.output }
        ensures given { self.new.given ≡ self.old.given }
    {
        self.failed(Purpose::WriteOutput, OUTPUT, reason)
    }

    // Reads from the stream; one that has given `LIMIT` bytes is read past its end only to see that
    // it is there.
    fn read_stream(&mut self, buf: &mut [u8]) -> Result<usize, Failed>
        ensures counted { Counts result self.old.failures.value self.new.failures.value }
        ensures history { self.new.history ≡ self.old.history }
        ensures bound { IfOk result (λ n. n ≤ length buf.new) }
        ensures given { IfOk result (λ n. self.new.given ≡ self.old.given + n) }
        ensures err { OnErr result (self.new.given ≡ self.old.given) }
        ensures files { self.new.files ≡ self.old.files }
        ensures input { self.new.input ≡ self.old.input }
        ensures output { self.new.output ≡ self.old.output }
    {
        if self.given == LIMIT {
            return match read_some(&mut self.reader, &mut [0; 1]) {
                Ok(0) => Ok(0),
                Ok(_) => self.cannot_read(TroubleReason::Long),
                Err(error) => self.cannot_read(TroubleReason::System(error)),
            };
        }
        let room = buf.len().min(LIMIT - self.given);
        match read_some(&mut self.reader, &mut buf[..room]) {
            Ok(n) => {
                self.given += n;
                Ok(n)
            }
            Err(error) => self.cannot_read(TroubleReason::System(error)),
        }
    }

    // Writes to the stream.
    fn write_stream(&mut self, bytes: &[u8]) -> Result<usize, Failed>
        ensures counted { Counts result self.old.failures.value self.new.failures.value }
        ensures history { self.new.history ≡ self.old.history }
        ensures bound { IfOk result (λ n. n ≤ length bytes.now) }
        ensures some { IfOk result (λ n. 0 < length bytes.now → 0 < n) }
        ensures files { self.new.files ≡ self.old.files }
        ensures input { self.new.input ≡ self.old.input }
        ensures output { self.new.output ≡ self.old.output }
        ensures given { self.new.given ≡ self.old.given }
    {
        match self.writer.write_all(bytes) {
            Ok(()) => Ok(bytes.len()),
            Err(error) => self.cannot_write(TroubleReason::System(error)),
        }
    }

    // Sends on what was written to the stream.
    fn flush_stream(&mut self) -> Result<(), Failed>
        ensures counted { Counts result self.old.failures.value self.new.failures.value }
        ensures history { self.new.history ≡ self.old.history }
        ensures files { self.new.files ≡ self.old.files }
        ensures input { self.new.input ≡ self.old.input }
        ensures output { self.new.output ≡ self.old.output }
        ensures given { self.new.given ≡ self.old.given }
    {
        match self.writer.flush() {
            Ok(()) => Ok(()),
            Err(error) => self.cannot_write(TroubleReason::System(error)),
        }
    }
}

// Reads some bytes, though it be interrupted.
fn read_some<I: Read>(reader: &mut I, buf: &mut [u8]) -> io::Result<usize>
    ensures { IfOk result (λ n. n ≤ length buf.new) }
{
    for _ in 0..u64::MAX {
        match reader.read(buf) {
            Err(error) if error.kind() == ErrorKind::Interrupted => {}
            read => return read,
        }
    }
    Err(ErrorKind::Interrupted.into())
}

impl<H: Host + Drop, I: Read + Drop, O: Write + Drop> Host for Streams<H, I, O> {
    ghost files = { λ s. Notes s.history.events };

    ghost failures = { λ s. H.failures s.files + s.failures.value };

    ghost given = { λ s. given_of s.input (H.given s.files) s.given };

    fn open_in(&mut self, name: &[u8]) -> Result<(), Failed> {
        if name == INPUT {
            self.input = Open::Stream;
            self.given = 0;
            self.history.opened_input(name);
            return Ok(());
        }
        self.files.open_in(name)?;
        self.input = Open::File;
        self.history.opened_input(name);
        Ok(())
    }

    fn read(&mut self, buf: &mut [u8]) -> Result<usize, Failed> {
        if let Open::Stream = self.input {
            let n = self.read_stream(buf)?;
            self.history.gave(buf, n);
            return Ok(n);
        }
        let n = self.files.read(buf)?;
        self.history.gave(buf, n);
        Ok(n)
    }

    fn open_out(&mut self, name: &[u8]) -> Result<(), Failed> {
        if name == OUTPUT {
            self.output = Open::Stream;
            self.history.opened_output(name);
            return Ok(());
        }
        self.files.open_out(name)?;
        self.output = Open::File;
        self.history.opened_output(name);
        Ok(())
    }

    fn write(&mut self, bytes: &[u8]) -> Result<usize, Failed> {
        if let Open::Stream = self.output {
            let n = self.write_stream(bytes)?;
            self.history.wrote(bytes, n);
            return Ok(n);
        }
        let n = self.files.write(bytes)?;
        self.history.wrote(bytes, n);
        Ok(n)
    }

    fn close_out(&mut self) -> Result<(), Failed> {
        if let Open::Stream = self.output {
            let flushed = self.flush_stream();
            match flushed {
                Ok(()) => self.history.closed(),
                Err(Failed) => self.history.dropped(),
            }
            return flushed;
        }
        let closed = self.files.close_out();
        match closed {
            Ok(()) => self.history.closed(),
            Err(Failed) => self.history.dropped(),
        }
        closed
    }

    fn drop_out(&mut self) -> Result<(), Failed> {
        self.history.dropped();
        match self.output {
            Open::File => self.files.drop_out(),
            Open::Stream => Ok(()),
        }
    }

    fn left_of_input(&mut self) -> Option<u64> {
        let left = match self.input {
            Open::File => self.files.left_of_input()?,
            Open::Stream => return None,
        };
        self.history.measured(left);
        Some(left)
    }
}
