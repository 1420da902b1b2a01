//! Texts in quotes.
ghost use Rattle.std.specs.Prelude.{◌≡◌, ◌<◌, ◌++◌, OnOk};
ghost use Rattle.std.specs.List.{flat_map};
ghost use Rattle.std.specs.Str as encoding;
ghost use Rattle.teco_json.specs.Json as json;

use std::alloc::AllocError;
use std::str;

// A hexadecimal digit.
fn hex_digit(digit: u8) -> u8
    requires { digit < 16 }
    ensures { result ≡ json.hex_digit digit }
{
    if digit < 10 {
        b'0' + digit
    } else {
        b'a' - 10 + digit
    }
}

// A byte by its number, the high half of which comes first.
fn push_numbered(text: &mut Vec<u8>, high: &[u8], byte: u8) -> Result<(), AllocError>
    ensures { OnOk result (text.new.items ≡ text.old.items ++ json.numbered high.now byte) }
{
    text.extend_from_slice(b"\\u")?;
    text.extend_from_slice(high)?;
    text.push(hex_digit(byte / 16))?;
    text.push(hex_digit(byte % 16))?;
    Ok(())
}

// A byte of a text that is UTF-8, or is none.
fn push_escaped(text: &mut Vec<u8>, is_utf8: bool, byte: u8) -> Result<(), AllocError>
    ensures { OnOk result (text.new.items ≡ text.old.items ++ json.escaped is_utf8 byte) }
{
    if byte == b'"' || byte == b'\\' {
        text.extend_from_slice(&[b'\\', byte])
    } else if byte < 32 || byte == 127 {
        push_numbered(text, b"00", byte)
    } else if byte > 127 && !is_utf8 {
        push_numbered(text, b"dc", byte)
    } else {
        text.push(byte)?;
        Ok(())
    }
}

// The bytes of a text that is UTF-8, or is none.
fn push_inner(text: &mut Vec<u8>, is_utf8: bool, bytes: &[u8]) -> Result<(), AllocError>
    ensures { OnOk result (text.new.items ≡ text.old.items ++ flat_map (json.escaped is_utf8) bytes.now) }
{
    for byte in bytes {
        push_escaped(text, is_utf8, *byte)?;
    }
    Ok(())
}

// Are bytes UTF-8?
#[tactic(auto, using(crate::proofs::Encoded::of_text, crate::proofs::Encoded::of_none))]
fn is_utf8(bytes: &[u8]) -> bool
    ensures { result ≡ encoding.is_utf8 bytes.now }
{
    match str::from_utf8(bytes) {
        Ok(_) => true,
        Err(_) => false,
    }
}

/// Adds bytes in quotes to a text.
pub fn push_quoted(text: &mut Vec<u8>, bytes: &[u8]) -> Result<(), AllocError>
    ensures { OnOk result (text.new.items ≡ text.old.items ++ json.quoted_text bytes.now) }
{
    text.push(b'"')?;
    push_inner(text, is_utf8(bytes), bytes)?;
    text.push(b'"')?;
    Ok(())
}
