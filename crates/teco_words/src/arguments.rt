//! The words of the command line, also those that are no text.
use std::alloc::{AllocError, Global};
use std::env::{Env, FillError};
use std::{env, io, str};
use teco_source::Shown;

/// The bytes that a word may have which is no text.
const ROOM: usize = 8192;

/// A word that is no text, and what stands for it among those that are.
#[derive(Drop)]
struct Other {
    stand_in: String,
    bytes: Vec<u8>,
}

/// The words that the program was called with. A word that is no UTF-8 can only be the name of a
/// file; among the texts another text stands for it, with a NUL in it, which no word has.
#[derive(Drop)]
pub struct CommandLine {
    texts: Vec<String>,
    others: Vec<Other>,
}

impl CommandLine {
    /// Reads the words.
    pub fn read<R: Env + AllocGlobal>(rt: &R) -> io::Result<CommandLine> {
        match env::args(rt) {
            Ok(words) => Ok(CommandLine {
                texts: words.collect(rt.alloc())?,
                others: Vec::new(rt.alloc()),
            }),
            Err(error) if error.kind() == io::ErrorKind::InvalidData => read_bytes(rt),
            Err(error) => Err(error),
        }
    }

    /// The words as texts, with those that stand for others.
    pub fn texts(&self) -> &[String] {
        &self.texts
    }

    /// The bytes of a word.
    pub fn bytes<'a>(&'a self, text: &'a str) -> &'a [u8] {
        for other in &self.others {
            if other.stand_in.as_str() == text {
                return &other.bytes;
            }
        }
        text.as_bytes()
    }
}

impl CommandLine {
    /// The first word that is no text and is not among these, if there is one.
    pub fn other_than<'a>(&'a self, allowed: &[&str]) -> Option<&'a [u8]> {
        for other in &self.others {
            let stand_in = other.stand_in.as_str();
            if !allowed.iter().any(|text| *text == stand_in) {
                return Some(&other.bytes);
            }
        }
        None
    }

    /// The names that texts stand for.
    pub fn names<'a>(
        &'a self,
        alloc: Global,
        texts: &'a [&'a str],
    ) -> Result<Vec<&'a [u8]>, AllocError> {
        let mut names = Vec::new(alloc);
        for text in texts {
            names.push(self.bytes(*text))?;
        }
        Ok(names)
    }

    /// A message, with the bytes of the words that others stand for, and without controls but LF.
    pub fn shown(&self, alloc: Global, message: &str) -> Result<String, AllocError> {
        let mut shown = String::from_str(alloc, "")?;
        self.push_shown(message, &mut shown)?;
        Ok(shown)
    }

    // Adds a message to a text, line by line.
    fn push_shown(&self, message: &str, shown: &mut String) -> Result<(), AllocError> {
        for line in message.split_inclusive('\n') {
            let (line, end) = match line.strip_suffix('\n') {
                Some(line) => (line, "\n"),
                None => (line, ""),
            };
            self.push_line(line, shown)?;
            shown.push_str(end)?;
        }
        Ok(())
    }

    // Adds a line to a text.
    fn push_line(&self, line: &str, shown: &mut String) -> Result<(), AllocError> {
        for other in &self.others {
            if let Some((front, behind)) = line.split_once(other.stand_in.as_str()) {
                return push_parts(shown, &[front.as_bytes(), &other.bytes, behind.as_bytes()]);
            }
        }
        push_parts(shown, &[line.as_bytes()])
    }
}

// Adds bytes to a text, as a terminal can show them.
fn push_parts(shown: &mut String, parts: &[&[u8]]) -> Result<(), AllocError> {
    let alloc = *shown.allocator();
    for part in parts {
        shown.push_str(format!(in alloc; "{}", Shown(*part))?.as_str())?;
    }
    Ok(())
}

// The bytes of the word of a number, if there is one.
fn word_at<R: Env + AllocGlobal>(rt: &R, number: usize) -> io::Result<Option<Vec<u8>>> {
    let mut room = [0; ROOM];
    match rt.arg(number, &mut room) {
        Ok(length) => Ok(Some(room[..length].to_vec(rt.alloc())?)),
        Err(FillError::NotPresent) => Ok(None),
        Err(FillError::TooLong) => Err(io::ErrorKind::InvalidData.into()),
    }
}

// Reads the words one by one, where some are no text.
fn read_bytes<R: Env + AllocGlobal>(rt: &R) -> io::Result<CommandLine> {
    let mut arguments = CommandLine {
        texts: Vec::new(rt.alloc()),
        others: Vec::new(rt.alloc()),
    };
    arguments.push_all(rt)?;
    Ok(arguments)
}

impl CommandLine {
    // Adds all words.
    fn push_all<R: Env + AllocGlobal>(&mut self, rt: &R) -> io::Result<()> {
        for number in 0..usize::MAX {
            match word_at(rt, number)? {
                Some(bytes) => self.push(rt.alloc(), number, bytes)?,
                None => break,
            }
        }
        Ok(())
    }

    // Adds the word of a number.
    fn push(&mut self, alloc: Global, number: usize, bytes: Vec<u8>) -> io::Result<()> {
        if let Ok(text) = str::from_utf8(&bytes) {
            return self.push_text(alloc, text);
        }
        self.push_other(alloc, number, bytes)
    }

    // Adds a word that is a text.
    fn push_text(&mut self, alloc: Global, text: &str) -> io::Result<()> {
        self.texts.push(String::from_str(alloc, text)?)?;
        Ok(())
    }

    // Adds a word that is no text, and what stands for it.
    fn push_other(&mut self, alloc: Global, number: usize, bytes: Vec<u8>) -> io::Result<()> {
        let other = Other::new(alloc, number, bytes)?;
        self.push_text(alloc, other.stand_in.as_str())?;
        self.others.push(other)?;
        Ok(())
    }
}

impl Other {
    // A word that is no text.
    fn new(alloc: Global, number: usize, bytes: Vec<u8>) -> io::Result<Other> {
        Ok(Other {
            stand_in: format!(in alloc; "\0{number}")?,
            bytes,
        })
    }
}
