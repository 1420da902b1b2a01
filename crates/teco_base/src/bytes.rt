//! Classes of bytes. Case concerns ASCII letters alone.
ghost use Rattle.std.specs.Prelude.{◌≡◌};
ghost use Rattle.teco_base.specs.Bytes as byte;

/// Horizontal tab.
pub const TAB: u8 = 9;

/// Line feed.
pub const LF: u8 = 10;

/// Vertical tab.
pub const VT: u8 = 11;

/// Form feed, which ends a page.
pub const FF: u8 = 12;

/// Carriage return.
pub const CR: u8 = 13;

/// The byte that commands and texts end with.
pub const ESC: u8 = 27;

/// A space.
pub const SPACE: u8 = 32;

/// A quotation mark, which begins a conditional.
pub const QUOTE: u8 = b'"';

/// A byte that is skipped between elements: a space, CR or LF.
pub fn is_blank(b: u8) -> bool
    ensures { result ≡ byte.is_blank b }
{
    matches!(b, SPACE | CR | LF)
}

/// A line end: LF, VT or FF.
pub fn is_line_end(b: u8) -> bool
    ensures { result ≡ byte.is_line_end b }
{
    matches!(b, LF | VT | FF)
}

/// A letter in either case.
pub fn is_letter(b: u8) -> bool
    ensures { result ≡ byte.is_letter b }
{
    b.is_ascii_alphabetic()
}

/// A decimal digit.
pub fn is_digit(b: u8) -> bool
    ensures { result ≡ byte.is_digit b }
{
    b.is_ascii_digit()
}

/// A letter or a digit.
pub fn is_letter_or_digit(b: u8) -> bool
    ensures { result ≡ byte.is_letter_or_digit b }
{
    is_letter(b) || is_digit(b)
}

/// A lower case letter.
pub fn is_lower(b: u8) -> bool
    ensures { result ≡ byte.is_lower b }
{
    b.is_ascii_lowercase()
}

/// An upper case letter.
pub fn is_upper(b: u8) -> bool
    ensures { result ≡ byte.is_upper b }
{
    b.is_ascii_uppercase()
}

/// A symbol constituent: a letter, a digit, `.`, `_` or the dollar sign.
pub fn is_symbol(b: u8) -> bool
    ensures { result ≡ byte.is_symbol b }
{
    is_letter_or_digit(b) || matches!(b, b'.' | b'_' | b'$')
}

/// The byte with a lower case letter put in upper case.
pub fn to_upper(b: u8) -> u8
    ensures { result ≡ byte.to_upper b }
{
    b.to_ascii_uppercase()
}

/// The control byte that `^` and this byte stand for; `None` where they stand for none.
pub fn control(b: u8) -> Option<u8>
    ensures { result ≡ byte.control b }
{
    match b {
        64..=95 | 97..=122 => Some(b % 32),
        _ => None,
    }
}
