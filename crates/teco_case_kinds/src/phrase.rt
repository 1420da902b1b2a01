//! Texts of cases that are read further.
use crate::fault::{CaseFault, Mistake};

/// A text of a case, or a part of it.
#[derive(Clone, Copy)]
pub struct Phrase<'a> {
    /// The number of the line that begins the text.
    pub line: usize,
    pub key: &'static str,
    pub words: &'a str,
}

impl<'a> Phrase<'a> {
    /// A part of this text.
    pub fn part(self, words: &'a str) -> Phrase<'a> {
        Phrase {
            line: self.line,
            key: self.key,
            words,
        }
    }

    /// The fault of a text that is none that the key may have.
    pub fn wrong(self) -> CaseFault {
        CaseFault::Format {
            line: self.line,
            mistake: Mistake::Value(self.key),
        }
    }

    /// The number that this is.
    pub fn number(self) -> Result<i128, CaseFault> {
        match self.words.parse() {
            Ok(number) => Ok(number),
            Err(_) => Err(self.wrong()),
        }
    }

    /// The count or place that this is.
    pub fn count(self) -> Result<usize, CaseFault> {
        match self.words.parse() {
            Ok(count) => Ok(count),
            Err(_) => Err(self.wrong()),
        }
    }
}
