//! What follows an element's letters: a register's name and texts.
ghost use Rattle.std.specs.Prelude.{◌≡◌, ◌≤◌, ◌==◌, [], drop, length, position, IfOk};
ghost use Rattle.teco_model.specs.Element as model;
ghost use Rattle.teco_model.specs.declared.head.TextShape.TheVariants as texts;
ghost use Rattle.teco_lex.specs.Reading.{Gives};
ghost use Rattle.teco_lex.specs.Texts.{texts_seen};

use crate::form::kind_on;
use memchr::memchr;
use teco_base::bytes::ESC;
use teco_base::{Code, Reg};
use teco_model::{Head, Kind, TextShape};

/// The texts of an element, and what stands behind them.
#[derive(Clone, Copy)]
pub struct TextsRead<'a> {
    pub text: &'a [u8],
    pub second: &'a [u8],
    pub rest: &'a [u8],
}

/// What the element is, with the register whose name stands at the front if it needs one, and how
/// many bytes that takes.
pub fn kind_read(head: Head, bytes: &[u8]) -> Result<(Kind, usize), Code>
    ensures value { Gives (λ x. (x.0, drop x.1 bytes.now)) result (model.kind_read head bytes.now) }
    ensures within { IfOk result (λ x. x.1 ≤ length bytes.now) }
{
    match head {
        Head::Kind(kind) => Ok((kind, 0)),
        Head::OnRegister(on) => {
            let name = bytes.first().ok_or(Code::Utc)?;
            let reg = Reg::of(*name).ok_or(Code::Iqn)?;
            Ok((kind_on(on, reg), 1))
        }
    }
}

/// The byte that ends the texts: after `@` the byte that comes next.
fn ending(at: bool, byte: u8, bytes: &[u8]) -> Result<(u8, &[u8]), Code>
    ensures value { Gives (λ x. (x.0, x.1.now)) result (model.ending at byte bytes.now) }
    ensures within { IfOk result (λ x. length x.1.now ≤ length bytes.now) }
{
    if !at {
        return Ok((byte, bytes));
    }
    let (delimiter, rest) = bytes.split_first().ok_or(Code::Utc)?;
    Ok((*delimiter, rest))
}

/// Where a byte stands first.
fn position_of(byte: u8, bytes: &[u8]) -> Option<usize>
    ensures { result ≡ position (λ b. b == byte) bytes.now }
{
    memchr(byte, bytes)
}

/// A text up to the byte that ends it.
fn text_up_to(byte: u8, bytes: &[u8]) -> Result<(&[u8], &[u8]), Code>
    ensures value { Gives (λ x. (x.0.now, x.1.now)) result (model.text_up_to byte bytes.now) }
    ensures within { IfOk result (λ x. length x.1.now ≤ length bytes.now) }
{
    let end = position_of(byte, bytes).ok_or(Code::Utc)?;
    Ok((&bytes[..end], &bytes[end + 1..]))
}

/// One text.
fn one_text(at: bool, byte: u8, bytes: &[u8]) -> Result<TextsRead<'_>, Code>
    ensures value { Gives texts_seen result (model.texts (texts.EndedBy byte) at [] bytes.now) }
    ensures within { IfOk result (λ x. length x.rest.now ≤ length bytes.now) }
{
    let (byte, rest) = ending(at, byte, bytes)?;
    let (text, rest) = text_up_to(byte, rest)?;
    Ok(TextsRead {
        text,
        second: &[],
        rest,
    })
}

/// Two texts.
fn two_texts(at: bool, bytes: &[u8]) -> Result<TextsRead<'_>, Code>
    ensures value { Gives texts_seen result (model.texts texts.Two at [] bytes.now) }
    ensures within { IfOk result (λ x. length x.rest.now ≤ length bytes.now) }
{
    let (byte, rest) = ending(at, ESC, bytes)?;
    let (text, rest) = text_up_to(byte, rest)?;
    let (second, rest) = text_up_to(byte, rest)?;
    Ok(TextsRead { text, second, rest })
}

/// The texts of an element whose own bytes are known.
pub fn texts<'a>(
    shape: TextShape,
    at: bool,
    own: &'a [u8],
    bytes: &'a [u8],
) -> Result<TextsRead<'a>, Code>
    ensures value { Gives texts_seen result (model.texts shape at own.now bytes.now) }
    ensures within { IfOk result (λ x. length x.rest.now ≤ length bytes.now) }
{
    match shape {
        TextShape::Itself => Ok(TextsRead {
            text: own,
            second: &[],
            rest: bytes,
        }),
        TextShape::EndedBy(byte) => one_text(at, byte, bytes),
        TextShape::Two => two_texts(at, bytes),
        TextShape::NoText => Ok(TextsRead {
            text: &[],
            second: &[],
            rest: bytes,
        }),
    }
}
