//! How lines of files of cases spell bytes.
use crate::fault::{CaseFault, Mistake, WIDTH};
use std::alloc::{AllocError, Global};
use teco_base::bytes::ESC;

/// A line of a file, or a part of it, with the line's number.
#[derive(Clone, Copy)]
pub struct FileLine<'a> {
    pub number: usize,
    pub text: &'a str,
}

impl<'a> FileLine<'a> {
    /// A part of this line.
    pub fn part(self, text: &'a str) -> FileLine<'a> {
        FileLine {
            number: self.number,
            text,
        }
    }

    /// The fault of this line.
    pub fn fault(self, mistake: Mistake) -> CaseFault {
        CaseFault::Format {
            line: self.number,
            mistake,
        }
    }

    /// Refuses what a reader could not see, control characters and blanks at the end, and long lines.
    pub fn check(self) -> Result<(), CaseFault> {
        if has_control(self.text) {
            return Err(self.fault(Mistake::Control));
        }
        if self.text.ends_with(' ') {
            return Err(self.fault(Mistake::Blank));
        }
        if self.text.chars().count() > WIDTH {
            return Err(self.fault(Mistake::Long));
        }
        Ok(())
    }

    /// The bytes that this spells.
    pub fn bytes(self, alloc: Global) -> Result<Vec<u8>, CaseFault> {
        let mut bytes = Vec::new(alloc);
        match self.append_to(&mut bytes)? {
            LineEnding::Plain => Ok(bytes),
            LineEnding::Backslash => Err(self.fault(Mistake::Escape)),
        }
    }

    /// Appends the bytes that this spells, and says how it ends.
    pub fn append_to(self, bytes: &mut Vec<u8>) -> Result<LineEnding, CaseFault> {
        let mut within = Within::Plain;
        for byte in self.text.bytes() {
            within = match within.after(byte, bytes)? {
                Some(within) => within,
                None => return Err(self.fault(Mistake::Escape)),
            };
        }
        match within {
            Within::Plain => Ok(LineEnding::Plain),
            Within::Escape => Ok(LineEnding::Backslash),
            Within::Code | Within::HalfCode(_) => Err(self.fault(Mistake::Escape)),
        }
    }
}

// Has a line a control character?
fn has_control(line: &str) -> bool {
    for byte in line.bytes() {
        if byte.is_ascii_control() {
            return true;
        }
    }
    false
}

/// How a line ends.
#[derive(Clone, Copy)]
pub enum LineEnding {
    /// As any line.
    Plain,
    /// By a backslash, which takes the line end away.
    Backslash,
}

// What a byte of a line is read in.
#[derive(Clone, Copy)]
enum Within {
    Plain,
    // behind a backslash
    Escape,
    // behind a backslash and x
    Code,
    // behind one digit more
    HalfCode(u8),
}

impl Within {
    // What the byte behind this one is read in; none where this says no byte.
    fn after(self, byte: u8, bytes: &mut Vec<u8>) -> Result<Option<Within>, AllocError> {
        let said = match self {
            Within::Plain if byte == b'\\' => return Ok(Some(Within::Escape)),
            Within::Plain if byte == b'$' => Some(ESC),
            Within::Plain => Some(byte),
            Within::Escape if byte == b'x' => return Ok(Some(Within::Code)),
            Within::Escape => escaped(byte),
            Within::Code => {
                return match digit(byte) {
                    Some(high) => Ok(Some(Within::HalfCode(high))),
                    None => Ok(None),
                };
            }
            Within::HalfCode(high) => code_of(high, byte),
        };
        let Some(said) = said else {
            return Ok(None);
        };
        bytes.push(said)?;
        Ok(Some(Within::Plain))
    }
}

// What a backslash before this byte says.
fn escaped(byte: u8) -> Option<u8> {
    match byte {
        b'$' | b'\\' => Some(byte),
        b'n' => Some(b'\n'),
        b'r' => Some(b'\r'),
        b't' => Some(b'\t'),
        b'f' => Some(b'\x0c'),
        b'0' => Some(0),
        _ => None,
    }
}

// The value of a hexadecimal digit.
fn digit(byte: u8) -> Option<u8> {
    let value = char::from(byte).to_digit(16)?;
    u8::try_from(value).ok()
}

// The byte of two digits.
fn code_of(high: u8, byte: u8) -> Option<u8> {
    let low = digit(byte)?;
    Some(high.saturating_mul(16).saturating_add(low))
}
