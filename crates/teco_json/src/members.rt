//! Objects in a line.
ghost use Rattle.std.specs.Prelude.{◌≡◌, ◌++◌, IfOk, OnOk, map};
ghost use Rattle.std.specs.Fmt.{decimal};
ghost use Rattle.std.specs.List.{flat_map};
ghost use Rattle.teco_json.specs.Json as json;

use crate::quoted::push_quoted;
use std::alloc::{AllocError, Global};

/// What a member says.
#[derive(Clone, Copy)]
pub enum Value<'a> {
    /// Bytes, which may be no UTF-8.
    Text(&'a [u8]),
    Number(u64),
    Truth(bool),
    /// A text, or `null`.
    MaybeText(Option<&'a [u8]>),
    /// A text of one byte, or `null`.
    MaybeByte(Option<u8>),
    /// A number, or `null`.
    MaybeNumber(Option<u64>),
    /// An array of numbers, or `null`.
    MaybeNumbers(Option<&'a [u64]>),
}

/// A member of an object.
#[derive(Clone, Copy)]
pub struct Member<'a> {
    pub key: &'a str,
    pub value: Value<'a>,
}

// Adds a number to a text.
fn push_number(text: &mut Vec<u8>, number: u64) -> Result<(), AllocError>
    ensures { OnOk result (text.new.items ≡ text.old.items ++ decimal number) }
{
    let alloc = *text.allocator();
    let digits = format!(in alloc; "{number}")?;
    text.extend_from_slice(digits.as_bytes())
}

// Adds numbers behind another to a text.
fn push_numbers(text: &mut Vec<u8>, numbers: &[u64]) -> Result<(), AllocError>
    ensures { OnOk result (text.new.items ≡ text.old.items ++ flat_map json.next_number numbers.now) }
{
    for number in numbers {
        text.extend_from_slice(b", ")?;
        push_number(text, *number)?;
    }
    Ok(())
}

// Adds an array of numbers to a text.
fn push_array(text: &mut Vec<u8>, numbers: &[u64]) -> Result<(), AllocError>
    ensures { OnOk result (text.new.items ≡ text.old.items ++ json.array_text numbers.now) }
{
    text.extend_from_slice(b"[")?;
    if let Some((first, others)) = numbers.split_first() {
        push_number(text, *first)?;
        push_numbers(text, others)?;
    }
    text.extend_from_slice(b"]")
}

// Adds a value to a text.
fn push_value(text: &mut Vec<u8>, value: Value<'_>) -> Result<(), AllocError>
    ensures { OnOk result (text.new.items ≡ text.old.items ++ json.value_text value.entry) }
{
    match value {
        Value::Text(bytes) | Value::MaybeText(Some(bytes)) => push_quoted(text, bytes),
        Value::Number(number) | Value::MaybeNumber(Some(number)) => push_number(text, number),
        Value::Truth(true) => text.extend_from_slice(b"true"),
        Value::Truth(false) => text.extend_from_slice(b"false"),
        Value::MaybeByte(Some(byte)) => push_quoted(text, &[byte]),
        Value::MaybeNumbers(Some(numbers)) => push_array(text, numbers),
        Value::MaybeText(None)
        | Value::MaybeByte(None)
        | Value::MaybeNumber(None)
        | Value::MaybeNumbers(None) => text.extend_from_slice(b"null"),
    }
}

// Adds a member to a text.
fn push_member(text: &mut Vec<u8>, member: Member<'_>) -> Result<(), AllocError>
    ensures { OnOk result (text.new.items
        ≡ text.old.items ++ json.member_text (json.member_seen member.entry)) }
{
    push_quoted(text, member.key.as_bytes())?;
    text.extend_from_slice(b": ")?;
    push_value(text, member.value)
}

// Adds members behind another to a text.
fn push_others(text: &mut Vec<u8>, members: &[Member<'_>]) -> Result<(), AllocError>
    ensures { OnOk result (text.new.items
        ≡ text.old.items ++ flat_map json.next_member (map json.member_seen members.now)) }
{
    for member in members {
        text.extend_from_slice(b", ")?;
        push_member(text, *member)?;
    }
    Ok(())
}

/// An object with these members, in a line of its own.
pub fn object(alloc: Global, members: &[Member<'_>]) -> Result<Vec<u8>, AllocError>
    ensures { IfOk result (λ text. text.items ≡ json.object_text (map json.member_seen members.now)) }
{
    let mut text = Vec::new(alloc);
    text.push(b'{')?;
    if let Some((first, others)) = members.split_first() {
        push_member(&mut text, *first)?;
        push_others(&mut text, others)?;
    }
    text.extend_from_slice(b"}\n")?;
    Ok(text)
}
