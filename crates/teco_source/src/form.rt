//! Forms of sources.
ghost use Rattle.std.specs.Prelude.{◌≡◌, ◌≤◌, ◌++◌, length, IfOk, IfSome, is_some};
ghost use Rattle.teco_source.specs.Source as sources;

use std::alloc::{AllocError, Global};
use teco_base::bytes::ESC;

/// What says that the dollar behind it is a dollar.
pub const CARET: u8 = b'^';

/// What says ESC in a readable source.
pub const DOLLAR: u8 = b'$';

/// How a source says ESC.
#[derive(Clone, Copy, PartialEq, Eq)]
pub enum EscapeForm {
    /// By this byte, which then says nothing else.
    Marked(u8),
    /// By a dollar; `^$` says a dollar.
    Readable,
}

impl EscapeForm {
    /// The text that a source says. One scan.
    pub fn read(self, alloc: Global, source: &[u8]) -> Result<Vec<u8>, AllocError>
        ensures said { IfOk result (λ text. text.items ≡ sources.said self source.now) }
    {
        let mut text = Vec::new(alloc);
        let mut before = 0;
        let mut rest = source;
        while let Some((byte, behind)) = rest.split_first() {
            if let Some(said) = self.said_by(before, *byte, behind) {
                text.push(said)?;
            }
            before = *byte;
            rest = behind;
        }
        Ok(text)
    }

    // What a byte says, by the one before it and those behind it.
    fn said_by(self, before: u8, byte: u8, behind: &[u8]) -> Option<u8>
        ensures { result ≡ sources.said_by self before byte behind.now }
    {
        match self {
            EscapeForm::Marked(mark) if byte == mark => Some(ESC),
            EscapeForm::Readable if byte == CARET && behind.first() == Some(&DOLLAR) => None,
            EscapeForm::Readable if byte == DOLLAR && before != CARET => Some(ESC),
            _ => Some(byte),
        }
    }

    /// The source that says a text. There is none where the text has the mark in it, or in the
    /// readable form a caret right before ESC. One scan.
    pub fn write(self, alloc: Global, text: &[u8]) -> Result<Option<Vec<u8>>, AllocError>
        ensures said { IfOk result (λ written. IfSome written
            (λ w. sources.said self w.items ≡ text.now)) }
        ensures some { IfOk result (λ written. is_some written ≡ sources.has_source self text.now) }
    {
        let mut written = Vec::new(alloc);
        let mut before = 0;
        let mut rest = text;
        while let Some((byte, behind)) = rest.split_first() {
            if !self.can_say(before, *byte) {
                return Ok(None);
            }
            self.spell(*byte, &mut written)?;
            before = *byte;
            rest = behind;
        }
        Ok(Some(written))
    }

    // Can a source say this byte behind that one?
    fn can_say(self, before: u8, byte: u8) -> bool
        ensures { result ≡ sources.can_say self before byte }
    {
        match self {
            EscapeForm::Marked(mark) => byte != mark || mark == ESC,
            EscapeForm::Readable => byte != ESC || before != CARET,
        }
    }

    // Writes what says a byte.
    fn spell(self, byte: u8, written: &mut Vec<u8>) -> Result<(), AllocError>
        ensures { IfOk result (λ done. written.new.items
            ≡ written.old.items ++ sources.spelling self byte) }
    {
        match self {
            EscapeForm::Marked(mark) if byte == ESC => written.push(mark)?,
            EscapeForm::Readable if byte == ESC => written.push(DOLLAR)?,
            EscapeForm::Readable if byte == DOLLAR => written.extend_from_slice(&[CARET, DOLLAR])?,
            _ => written.push(byte)?,
        }
        Ok(())
    }

    /// Where in a source the byte stands that says a place of its text: an offset, and the source's
    /// length behind the last. One scan up to there.
    pub fn place_in(self, source: &[u8], place: usize) -> usize
        ensures place { result ≡ sources.place_in self source.now place }
        ensures within { result ≤ length source.now }
    {
        let mut before = 0;
        let mut left = place;
        for at in 0..source.len() {
            let says = self
                .said_by(before, source[at], &source[at + 1..])
                .is_some();
            if says && left == 0 {
                return at;
            }
            if says {
                left -= 1;
            }
            before = source[at];
        }
        source.len()
    }
}

/// What is written says the text that it is written for, wherever a text has a source.
pub fn sources_say()
    ensures { sources.SourcesSay }
{}
