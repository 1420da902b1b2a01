//! Texts as a terminal can show them.
ghost use Rattle.std.specs.Prelude.{◌≤◌, length};
ghost use Rattle.std.specs.Iterator.{at_most};

use bstr::decode_utf8;
use std::fmt;
use std::fmt::Write;
use teco_base::bytes::ESC;
use unicode_width::UnicodeWidthChar;

/// What is shown for ESC.
const MARK: char = '$';

/// What a control and the letter of its `^X` differ by.
const CONTROL_BIT: u8 = 0x40;

/// A text as a terminal can show it: ESC as `$`, other controls as `^X`, characters that take no
/// column by their number, and bytes that are no UTF-8 in hexadecimal. No control reaches the
/// terminal.
#[derive(Clone, Copy)]
pub struct Shown<'a>(pub &'a [u8]);

/// A text as a terminal can show it, with another character for ESC.
#[derive(Clone, Copy)]
pub struct ShownAs<'a> {
    pub text: &'a [u8],
    /// A printable ASCII character; any other is shown as `$`.
    pub mark: u8,
}

// What is shown for the next bytes of a text.
#[derive(Clone, Copy)]
enum Glyph {
    Plain(char),
    Control(u8),
    Unseen(char),
    Byte(u8),
}

// What the character is shown as.
fn glyph_of(character: char, mark: char) -> Glyph {
    if character == char::from(ESC) {
        return Glyph::Plain(mark);
    }
    match u8::try_from(character) {
        Ok(byte) if byte.is_ascii_control() => Glyph::Control(byte),
        _ if character.width().unwrap_or(0) == 0 => Glyph::Unseen(character),
        _ => Glyph::Plain(character),
    }
}

// What is left to be shown of a text.
#[derive(Clone, Copy)]
struct Glyphs<'a> {
    text: &'a [u8],
    mark: char,
}

impl Iterator for Glyphs<'_> {
    type Item = Glyph;

    ghost remaining = { λ s. at_most (length s.text.now) };

    fn next(&mut self) -> Option<Glyph> {
        let (byte, behind) = self.text.split_first()?;
        match decode_utf8(self.text) {
            (Some(character), size) if size > 0 && size <= self.text.len() => {
                self.text = &self.text[size..];
                Some(glyph_of(character, self.mark))
            }
            _ => {
                self.text = behind;
                Some(Glyph::Byte(*byte))
            }
        }
    }
}

impl fmt::Display for Glyph {
    fn fmt<W: fmt::Write>(&self, f: &mut fmt::Formatter<W>) -> fmt::Result {
        match self {
            Glyph::Plain(character) => f.write_char(*character),
            Glyph::Control(byte) => write!(f, "^{}", char::from(byte ^ CONTROL_BIT)),
            Glyph::Unseen(character) => write!(f, "\\u{{{:x}}}", u32::from(*character)),
            Glyph::Byte(byte) => write!(f, "\\x{byte:02x}"),
        }
    }
}

impl Glyph {
    // How many columns it takes.
    fn width(self) -> usize {
        match self {
            Glyph::Plain(character) => character.width().unwrap_or(0),
            Glyph::Control(_) => 2,
            Glyph::Unseen(character) => 4 + digits(u32::from(character)),
            Glyph::Byte(_) => 4,
        }
    }
}

// How many hexadecimal digits the number of a character has.
fn digits(number: u32) -> usize
    ensures { result ≤ 6 }
{
    match number {
        0..=0xf => 1,
        0x10..=0xff => 2,
        0x100..=0xfff => 3,
        0x1000..=0xffff => 4,
        0x1_0000..=0xf_ffff => 5,
        _ => 6,
    }
}

impl<'a> Shown<'a> {
    // What is shown of it.
    fn glyphs(self) -> Glyphs<'a> {
        Glyphs {
            text: self.0,
            mark: MARK,
        }
    }

    /// How many columns of a terminal it takes.
    pub fn width(self) -> usize {
        let mut width = 0usize;
        for glyph in self.glyphs() {
            width = width.saturating_add(glyph.width());
        }
        width
    }
}

impl fmt::Display for Shown<'_> {
    fn fmt<W: fmt::Write>(&self, f: &mut fmt::Formatter<W>) -> fmt::Result {
        for glyph in self.glyphs() {
            write!(f, "{glyph}")?;
        }
        Ok(())
    }
}

impl fmt::Display for ShownAs<'_> {
    fn fmt<W: fmt::Write>(&self, f: &mut fmt::Formatter<W>) -> fmt::Result {
        let mark = if self.mark.is_ascii_graphic() {
            char::from(self.mark)
        } else {
            MARK
        };
        let glyphs = Glyphs {
            text: self.text,
            mark,
        };
        for glyph in glyphs {
            write!(f, "{glyph}")?;
        }
        Ok(())
    }
}
