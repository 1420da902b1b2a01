//! Where command strings end.
use teco_base::bytes::{ESC, is_blank};

/// How far the last command string of a text has come.
#[derive(Clone, Copy)]
pub enum StringProgress {
    /// None has begun: only blanks came, if anything.
    None,
    /// A string has begun, and its end has not come.
    Begun,
    /// A string has begun, and the first ESC of its end has come.
    Half,
}

impl StringProgress {
    /// How far the last string has come behind one more byte.
    pub fn after(self, byte: u8) -> StringProgress {
        match self {
            StringProgress::Half if byte == ESC => StringProgress::None,
            StringProgress::None if is_blank(byte) => StringProgress::None,
            _ if byte == ESC => StringProgress::Half,
            _ => StringProgress::Begun,
        }
    }

    /// How far the last string has come behind more bytes.
    pub fn behind(self, bytes: &[u8]) -> StringProgress {
        bytes.iter().fold(self, |so_far, byte| so_far.after(*byte))
    }

    /// How many ESC are lacking at the end of the string, if it is begun.
    pub fn lacking(self) -> usize {
        match self {
            StringProgress::None => 0,
            StringProgress::Begun => 2,
            StringProgress::Half => 1,
        }
    }
}
