//! Where the program writes: its answers, and what it says of them to people.
ghost use Rattle.std.specs.Prelude.{◌≡◌, ◌≤◌, IfOk, IfSome, OnErr, length, take};
ghost use Rattle.std.specs.Io.KnownBytes.{Appends, Keeps};
ghost use Rattle.teco_console.specs.Output.{Writes};

use std::alloc::Global;
use std::io::{ErrorKind, Write};
use std::{fmt, io};

/// What is said to people, a message at a time.
#[derive(Drop)]
pub struct Voice<E: Write + Drop> {
    alloc: Global,
    messages: E,
    // nothing is said but faults
    is_quiet: bool,
    // does the last line on the terminal have a note?
    has_note: bool,
}

/// What goes to the begin of a line of a terminal and clears it.
const CLEARING: &[u8] = b"\r\x1b[K";

impl<E: Write + Drop> Voice<E> {
    /// Says what there is to be said to a writer. Memory for messages comes from `alloc`.
    pub fn new(alloc: Global, messages: E) -> Voice<E> {
        Voice {
            alloc,
            messages,
            is_quiet: false,
            has_note: false,
        }
    }

    /// Where memory for messages comes from.
    pub fn alloc(&self) -> Global {
        self.alloc
    }

    /// From now on nothing is said but faults.
    pub fn hush(&mut self) {
        self.is_quiet = true;
    }

    /// From now on all is said again, as a refusal that ends the work is.
    pub fn speak(&mut self) {
        self.is_quiet = false;
    }

    // Writes a message in one piece. A message that can't be written is lost.
    fn write<D: fmt::Display + Drop>(&mut self, message: D) {
        self.clear();
        if let Ok(text) = format!(in self.alloc; "{message}\n") {
            let _written = self.messages.write_all(text.as_bytes());
        }
    }

    /// Says what another voice has said.
    pub fn repeat(&mut self, messages: &[u8]) {
        self.clear();
        let _written = self.messages.write_all(messages);
    }

    /// Shows a note on a terminal, in place of the one before, until something else is said.
    pub fn note<D: fmt::Display + Drop>(&mut self, note: D) {
        self.clear();
        if let Ok(text) = format!(in self.alloc; "{note}") {
            self.has_note = self.messages.write_all(text.as_bytes()).is_ok();
        }
    }

    /// Takes away the note that is shown, if there is one.
    pub fn clear(&mut self) {
        if self.has_note {
            let _written = self.messages.write_all(CLEARING);
            self.has_note = false;
        }
    }

    /// Says a message, unless it is to be quiet.
    pub fn say<D: fmt::Display + Drop>(&mut self, message: D) {
        if !self.is_quiet {
            self.write(message);
        }
    }

    /// Says why something could not be done, in any case.
    pub fn complain<D: fmt::Display + Drop>(&mut self, message: D) {
        self.write(format_args!("teco: {message}"));
    }
}

// Writes some of the bytes, from the front, and says how many.
fn write_some<W: Write>(writer: &mut W, bytes: &[u8]) -> io::Result<usize>
    ensures bound { IfOk result (λ n. n ≤ length bytes.now) }
    ensures ok { IfOk result (λ n.
        Appends (W.contents writer.old) (W.contents writer.new) (take n bytes.now)) }
    ensures kept { OnErr result (Keeps (W.contents writer.old) (W.contents writer.new)) }
{
    for _ in 0..u64::MAX {
        match writer.write(bytes) {
            Ok(n) => return Ok(n),
            Err(error) => {
                if error.kind() != ErrorKind::Interrupted {
                    return Err(error);
                }
            }
        }
    }
    Err(unwritten())
}

// Nothing more is taken by a writer.
fn unwritten() -> io::Error {
    io::Error::new(ErrorKind::WriteZero, "failed to write whole buffer")
}

/// Writes all of the bytes, or with a fault a front of them.
#[tactic(auto, using(crate::proofs::Fronts::kept_front))]
pub fn write_bytes<W: Write>(writer: &mut W, bytes: &[u8]) -> io::Result<()>
    ensures { Writes (W.contents writer.old) (W.contents writer.new) bytes.now result }
{
    let mut written = 0;
    for _ in 0..u64::MAX {
        if written == bytes.len() {
            return Ok(());
        }
        let more = write_some(writer, &bytes[written..])?;
        if more == 0 {
            return Err(unwritten());
        }
        written += more;
    }
    Err(unwritten())
}

/// What a verdict may take.
#[derive(Clone, Copy)]
pub struct Means {
    /// Where memory comes from.
    pub alloc: Global,
    /// How many times the usual number of steps a search may take: once or more.
    pub effort: u32,
}

impl Means {
    /// The usual effort.
    pub fn usual(alloc: Global) -> Means {
        Means { alloc, effort: 1 }
    }
}

/// A writer for what was asked for, and a voice for what is said of it.
#[derive(Drop)]
pub struct Console<O: Write + Drop, E: Write + Drop> {
    /// Where memory comes from.
    pub alloc: Global,
    /// How many times the usual number of steps a search may take: once or more.
    pub effort: u32,
    pub out: O,
    pub voice: Voice<E>,
}

impl<O: Write + Drop, E: Write + Drop> Console<O, E> {
    /// A console over two writers. Memory for lines comes from `alloc`.
    pub fn new(alloc: Global, out: O, messages: E) -> Console<O, E>
        ensures { result.out ≡ out }
    {
        Console {
            alloc,
            effort: 1,
            out,
            voice: Voice::new(alloc, messages),
        }
    }

    /// What a verdict may take.
    pub fn means(&self) -> Means {
        Means {
            alloc: self.alloc,
            effort: self.effort,
        }
    }

    /// A console that keeps in memory what it writes, and is quiet where this one is.
    pub fn apart(&self) -> Console<Vec<u8>, Vec<u8>> {
        let alloc = self.alloc;
        let mut apart = Console::new(alloc, Vec::new(alloc), Vec::new(alloc));
        apart.voice.is_quiet = self.voice.is_quiet;
        apart.effort = self.effort;
        apart
    }

    /// Writes what another console has kept.
    pub fn repeat(&mut self, apart: Console<Vec<u8>, Vec<u8>>) -> io::Result<()> {
        let (out, messages) = apart.into_parts();
        self.voice.repeat(&messages);
        self.out.write_all(&out)
    }

    /// The two writers.
    pub fn into_parts(self) -> (O, E)
        ensures { result.0 ≡ self.out }
    {
        let Console {
            alloc: _,
            effort: _,
            out,
            voice,
        } = self;
        (out, voice.messages)
    }

    /// Writes an answer, in one piece.
    pub fn answer<D: fmt::Display + Drop>(&mut self, answer: D) -> io::Result<()>
        ensures { IfSome (D.output answer) (λ text.
            Writes (O.contents self.old.out) (O.contents self.new.out) text result) }
    {
        let text = format!(in self.alloc; "{answer}")?;
        write_bytes(&mut self.out, text.as_bytes())
    }

    /// Says a message.
    pub fn say<D: fmt::Display + Drop>(&mut self, message: D)
        ensures { self.new.out ≡ self.old.out }
    {
        self.voice.say(message);
    }

    /// Says why something could not be done.
    pub fn complain<D: fmt::Display + Drop>(&mut self, message: D) {
        self.voice.complain(message);
    }
}
