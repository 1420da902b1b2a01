//! Command strings, cut from what a reader gives.
ghost use Rattle.std.specs.Prelude.{◌≡◌, ◌≢◌, ◌≤◌, ◌<◌, ◌++◌, [], length, take, vec_len, IfOk, IfErr, IfSome, IfNone};
ghost use Rattle.std.specs.Prelude.{OnOk, OnErr, true};
ghost use Rattle.std.specs.Io.KnownBytes.{Consumes, prepend_known};
ghost use Rattle.teco_model.specs.Session.{string_end};
ghost use Rattle.teco_session.specs.Strings.{first_is_esc, last_is_esc, IsEnded, IsPiece, IsUnended};
ghost use Rattle.teco_session.specs.declared.fault.SessionFault.TheVariants as fault;

use crate::ahead::{CHUNK, ReadAhead};
use crate::fault::SessionFault;
use memchr::memmem;
use std::io::Read;
use teco_base::bytes::ESC;
use teco_model::Limits;

/// What stands next in the input.
#[derive(Clone, Copy)]
pub enum Piece {
    /// A command string.
    Command,
    /// Bytes without an end: as many as a command string may have, or fewer and then the end of the
    /// input.
    Rest,
}

// Is the last byte an ESC?
fn has_esc_last(bytes: &[u8]) -> bool
    ensures { result ≡ last_is_esc bytes.now }
{
    let n = bytes.len();
    n > 0 && bytes[n - 1] == ESC
}

// Is the first byte an ESC?
fn has_esc_first(bytes: &[u8]) -> bool
    ensures { result ≡ first_is_esc bytes.now }
{
    !bytes.is_empty() && bytes[0] == ESC
}

// How many of the bytes belong to the string that goes on with them, if its end is among them.
fn end_behind(string: &[u8], bytes: &[u8]) -> Option<usize>
    requires { string_end string.now ≡ None }
    ensures within { IfSome result (λ n. n ≤ length bytes.now) }
    ensures end { IfSome result (λ n. IsEnded (string.now ++ take n bytes.now)) }
    ensures none { IfNone result (string_end (string.now ++ bytes.now) ≡ None) }
{
    if has_esc_last(string) && has_esc_first(bytes) {
        return Some(1);
    }
    let place = memmem::find(bytes, &[ESC, ESC])?;
    Some(place + 2)
}

// Moves bytes from those ahead to a string that goes on with them, up to its end or to as many as
// it may have. Says whether it ended.
fn extend(string: &mut Vec<u8>, ahead: &mut ReadAhead, limits: Limits) -> Result<bool, SessionFault>
    requires { IsUnended limits string.old.items }
    ensures moved { string.new.items ++ ahead.new ≡ string.old.items ++ ahead.old }
    ensures some { OnOk result (ahead.old ≢ [] → vec_len string.old < vec_len string.new) }
    ensures within { vec_len string.new ≤ limits.length }
    ensures ended { result ≡ Ok true → IsEnded string.new.items }
    ensures endless { result ≢ Ok true → string_end string.new.items ≡ None }
    ensures err { IfErr result (λ e. e ≡ fault.Memory) }
    ensures kept { OnErr result (string.new.items ≡ string.old.items) }
    ensures one_read { length ahead.new ≤ CHUNK }
{
    let room = limits.length - string.len();
    let bytes = ahead.bytes();
    let bytes = &bytes[..bytes.len().min(room)];
    let end = end_behind(string.as_slice(), bytes);
    let len = end.unwrap_or(bytes.len());
    string.extend_from_slice(&bytes[..len])?;
    ahead.skip(len);
    Ok(end.is_some())
}

/// Reads the next command string, or what stands in its place. It reads no further than to the end
/// of the read in which it ends; what is read beyond it stays ahead.
pub fn next_piece<R: Read>(
    string: &mut Vec<u8>,
    ahead: &mut ReadAhead,
    reader: &mut R,
    limits: Limits,
) -> Result<Piece, SessionFault>
    ensures came { Consumes (prepend_known ahead.old (R.remaining reader.old))
        (prepend_known ahead.new (R.remaining reader.new)) string.new.items }
    ensures piece { IfOk result
        (IsPiece limits (prepend_known ahead.new (R.remaining reader.new)) string.new.items) }
    ensures fault { OnErr result (IsUnended limits string.new.items) }
    ensures all_used { IfErr result (λ e. e ≡ fault.Read → ahead.new ≡ []) }
    ensures not_writing { IfErr result (λ e. e ≢ fault.Write) }
    ensures not_calling { IfErr result (λ e. e ≢ fault.Argument) }
    ensures one_read { length ahead.old ≤ CHUNK → length ahead.new ≤ CHUNK }
{
    string.clear();
    while string.len() < limits.length {
        ahead.fill(reader)?;
        if ahead.bytes().is_empty() {
            return Ok(Piece::Rest);
        }
        if extend(string, ahead, limits)? {
            return Ok(Piece::Command);
        }
    }
    Ok(Piece::Rest)
}
