//! Prompts at a terminal.
use crate::strings::StringProgress;
use std::io;
use std::io::{Read, Write};

/// What is written before a command string is typed.
const FIRST: &[u8] = b"* ";

/// What is written before each further line of a command string.
const FURTHER: &[u8] = b"> ";

/// A reader that writes a prompt before each read, where it is to: one before a command string, and
/// another where one is begun and has no end.
#[derive(Drop)]
pub struct Prompting<S: Read + Drop, P: Write + Drop> {
    reader: S,
    prompts: P,
    is_on: bool,
    progress: StringProgress,
}

impl<S: Read + Drop, P: Write + Drop> Prompting<S, P> {
    /// A reader that writes prompts if it is on. A prompt that can't be written is left out.
    pub fn new(reader: S, prompts: P, is_on: bool) -> Prompting<S, P> {
        Prompting {
            reader,
            prompts,
            is_on,
            progress: StringProgress::None,
        }
    }

    /// The reader and the writer of prompts.
    pub fn into_parts(self) -> (S, P) {
        let Prompting {
            reader,
            prompts,
            is_on: _,
            progress: _,
        } = self;
        (reader, prompts)
    }
}

impl<S: Read + Drop, P: Write + Drop> Read for Prompting<S, P> {
    ghost remaining = { λ p. S.remaining p.reader };

    fn read(&mut self, buf: &mut [u8]) -> io::Result<usize> {
        if !self.is_on {
            return self.reader.read(buf);
        }
        let prompt = match self.progress {
            StringProgress::None => FIRST,
            StringProgress::Begun | StringProgress::Half => FURTHER,
        };
        let _written = self.prompts.write_all(prompt);
        let n = self.reader.read(buf)?;
        self.progress = self.progress.behind(&buf[..n]);
        Ok(n)
    }
}
