//! Sessions: command strings from a reader, and what they type to a writer.
ghost use Rattle.std.specs.Prelude.{◌≡◌, ◌≤◌, ◌++◌, [], length, IfOk};
ghost use Rattle.std.specs.List.{list_all};
ghost use Rattle.teco_base.specs.Bytes as byte;
ghost use Rattle.teco_base.specs.declared.TheConstants.{LIMIT};
ghost use Rattle.teco_model.specs.Session as model;
ghost use Rattle.teco_model.specs.Session.{rest_code, code_of, code_line, is_code};
ghost use Rattle.teco_run.specs.Holdings.{Joined};
ghost use Rattle.teco_session.specs.Answers.{Answers, Said};
ghost use Rattle.teco_session.specs.FirstCode.{Hears};
ghost use Rattle.teco_session.specs.Output.{Writes};
ghost use Rattle.teco_session.specs.Sessions.{Converses, SessionCounts, setting};
ghost use Rattle.teco_session.specs.Touched.{TouchesByPiece, TouchesByString, TouchesInSession};
ghost use Rattle.teco_session.specs.declared.strings.Piece.TheVariants as piece;

use crate::ahead::ReadAhead;
use crate::fault::SessionFault;
use crate::listener::{Listener, Silent};
use crate::output::{write_both, write_bytes};
use crate::strings::{Piece, next_piece};
use std::alloc::Global;
use std::io::{Read, Write};
use teco_base::bytes::is_blank;
use teco_base::{Code, LIMIT};
use teco_hosts::Host;
use teco_hosts::laws::notes_fit;
use teco_model::{HostFault, Limits};
use teco_run::{Machine, Stop};
use teco_text::TextStore;

/// How many command strings a session takes; it then answers `Read`.
pub const STRINGS: u64 = 4_294_967_296;

/// What came of a session.
#[derive(Clone, Copy)]
pub struct Done {
    /// Was a code line written?
    pub coded: bool,
    /// Did a command string end the session?
    pub exit: bool,
}

/// How a session goes on.
#[derive(Clone, Copy)]
pub struct Conduct {
    /// What its command strings may have.
    pub limits: Limits,
    /// Does the first code end it?
    pub until_code: bool,
}

// A piece of the input, with the limits of its session.
#[derive(Clone, Copy)]
struct InputPiece<'a> {
    piece: Piece,
    bytes: &'a [u8],
    limits: Limits,
}

// The code that is typed for what the host could not do.
fn code_of_fault(fault: HostFault) -> Code
    ensures { result ≡ model.code_of_fault fault }
{
    match fault {
        HostFault::NoFile => Code::Fnf,
        HostFault::In => Code::Inp,
        HostFault::Out => Code::Out,
    }
}

// Does a stop end the session?
fn is_exit(stop: Stop) -> bool
    ensures { result ≡ model.is_exit stop }
{
    matches!(stop, Stop::Exit { .. })
}

// The code that is typed for a stop.
fn code_of_stop(stop: Stop) -> Option<Code>
    ensures { result ≡ code_of stop }
{
    match stop {
        Stop::Ended { .. } => None,
        Stop::Exit { .. } => None,
        Stop::Error(code) => Some(code),
        Stop::Limit => Some(Code::Lim),
        Stop::Memory => Some(Code::Mem),
        Stop::HostFault(fault) => Some(code_of_fault(fault)),
    }
}

// Are there only blanks?
fn is_all_blank(bytes: &[u8]) -> bool
    ensures { result ≡ list_all byte.is_blank bytes.now }
{
    bytes.iter().all(|b| is_blank(*b))
}

// The code that is typed for what follows the last command string.
fn code_of_rest(rest: &[u8], limits: Limits) -> Option<Code>
    ensures { result ≡ rest_code limits rest.now }
{
    if rest.len() >= limits.length {
        Some(Code::Ful)
    } else if is_all_blank(rest) {
        None
    } else {
        Some(Code::Utc)
    }
}

// Writes the line of a code, if there is one, and says whether there is.
fn write_code<W: Write>(writer: &mut W, code: Option<Code>) -> Result<bool, SessionFault>
    ensures line { Writes (W.contents writer.old) (W.contents writer.new) (code_line code) result }
    ensures told { IfOk result (λ line. line ≡ is_code code) }
{
    let Some(code) = code else {
        return Ok(false);
    };
    let [a, b, c] = *code.name();
    write_bytes(writer, &[b'?', a, b, c, b'\r', b'\n'])?;
    Ok(true)
}

// Writes what a machine typed, as it lies there.
fn write_typed<T: TextStore, W: Write>(
    machine: &Machine<T>,
    writer: &mut W,
) -> Result<(), SessionFault>
    ensures { Writes (W.contents writer.old) (W.contents writer.new)
        machine.now.kept.typed result }
{
    let (first, second, third) = machine.typed();
    write_bytes(writer, first)?;
    write_both(writer, second, third)
}

// Writes what a machine typed and then the line of a code, if there is one, and says whether there
// is.
fn write_lines<T: TextStore, W: Write>(
    machine: &Machine<T>,
    code: Option<Code>,
    writer: &mut W,
) -> Result<bool, SessionFault>
    ensures lines { Writes (W.contents writer.old) (W.contents writer.new)
        (machine.now.kept.typed ++ code_line code) result }
    ensures told { IfOk result (λ line. line ≡ is_code code) }
{
    write_typed(machine, writer)?;
    write_code(writer, code)
}

/// Writes what a run typed and then the line of a code, if its stop is one, and says whether it is.
///
/// # Errors
///
/// The writer's fault, behind a part of what was to be written.
pub fn write_stop<T: TextStore, W: Write>(
    machine: &mut Machine<T>,
    stop: Stop,
    writer: &mut W,
) -> Result<bool, SessionFault>
    ensures lines { Writes (W.contents writer.old) (W.contents writer.new)
        (machine.old.kept.typed ++ code_line (code_of stop)) result }
    ensures told { IfOk result (λ line. line ≡ is_code (code_of stop)) }
    ensures taken { machine.new ≡ record
        machine.old { kept = record machine.old.kept { typed = [] } } }
{
    let line = write_lines(machine, code_of_stop(stop), writer);
    machine.drop_typed();
    line
}

// What was done with a piece.
fn said(line: Result<bool, SessionFault>, exit: bool) -> Result<Done, SessionFault>
    ensures { Said line exit result }
{
    match line {
        Ok(coded) => Ok(Done { coded, exit }),
        Err(fault) => Err(fault),
    }
}

// Runs a command string, and writes what it types and its code line.
fn answer_command<T: TextStore, W: Write, H: Host, L: Listener<H>>(
    machine: &mut Machine<T>,
    cut: &InputPiece<'_>,
    writer: &mut W,
    host: &mut H,
    listener: &mut L,
) -> Result<Done, SessionFault>
    requires { length cut.now.bytes.now ≤ LIMIT }
    ensures run { Joined (λ old new. Answers cut.now.limits piece.Command cut.now.bytes.now old
        new (H.failures host.old) (H.failures host.new)
        (W.contents writer.old) (W.contents writer.new) result)
        machine.old machine.new (H.files host.old) (H.files host.new) }
    ensures touches { TouchesByString cut.now.limits.steps cut.now.bytes.now
        machine.old machine.new (H.files host.old) (H.files host.new) }
    ensures counted { SessionCounts result (H.failures host.old) (H.failures host.new) }
{
    let stopped = machine.run_to_stop(cut.bytes, cut.limits.steps, host);
    let line = write_stop(machine, stopped.stop, writer);
    listener.stopped(cut.bytes, &stopped, machine, host);
    said(line, is_exit(stopped.stop))
}

// Writes the code line of a rest, which is not run.
fn answer_rest<T: TextStore, W: Write, H: Host, L: Listener<H>>(
    machine: &Machine<T>,
    cut: &InputPiece<'_>,
    writer: &mut W,
    host: &H,
    listener: &mut L,
) -> Result<Done, SessionFault>
    requires { length cut.now.bytes.now ≤ LIMIT }
    ensures { Joined (λ old new. Answers cut.now.limits piece.Rest cut.now.bytes.now old new
        (H.failures host.now) (H.failures host.now)
        (W.contents writer.old) (W.contents writer.new) result)
        machine.now machine.now (H.files host.now) (H.files host.now) }
{
    let code = code_of_rest(cut.bytes, cut.limits);
    let line = write_code(writer, code);
    if code.is_some() {
        listener.rest(code);
    }
    said(line, false)
}

// Runs a piece of the input, if it is a command string, and writes what it types and its code line.
// Says whether there is such a line, and whether it ends the session.
fn answer<T: TextStore, W: Write, H: Host, L: Listener<H>>(
    machine: &mut Machine<T>,
    cut: &InputPiece<'_>,
    writer: &mut W,
    host: &mut H,
    listener: &mut L,
) -> Result<Done, SessionFault>
    requires { length cut.now.bytes.now ≤ LIMIT }
    ensures run { Joined (λ old new. Answers cut.now.limits cut.now.piece cut.now.bytes.now old new
        (H.failures host.old) (H.failures host.new)
        (W.contents writer.old) (W.contents writer.new) result)
        machine.old machine.new (H.files host.old) (H.files host.new) }
    ensures touches { TouchesByPiece cut.now.limits cut.now.piece cut.now.bytes.now
        machine.old machine.new (H.files host.old) (H.files host.new) }
    ensures counted { SessionCounts result (H.failures host.old) (H.failures host.new) }
{
    match cut.piece {
        Piece::Command => answer_command(machine, cut, writer, host, listener),
        Piece::Rest => answer_rest(machine, cut, writer, host, listener),
    }
}

/// Runs the command strings that a reader gives, each for at most `limit` steps, over the files of
/// a host. What a string types is written when it has stopped, and then a code line for a stop that
/// is not the end. A string has at most `LIMIT` bytes.
///
/// A string is run as soon as its end is read. After a code the session goes on with the next
/// string; a string that ends the session is the last. A rest without an end is not executed. With
/// a fault of reading or of memory, the strings that came before it are executed and written, and
/// nothing else is. With one of writing, the string whose bytes were being written is the last that
/// was executed: a part of what it writes is written, from the front and less than all.
///
/// # Errors
///
/// The fault of the reader or of the writer, or `Memory`.
///
/// # Examples
///
/// ```
/// fn types_abc(alloc: Global, machine: &mut Machine<GapText>) -> Result<bool, SessionFault> {
///     let (mut keys, mut typed) = (b"Iabc\x1bHT\x1b\x1b".as_slice(), Vec::new(alloc));
///     let (from, to, host) = (&mut keys, &mut typed, &mut MemHost::new(alloc));
///     let done = session(alloc, machine, from, to, host, 1_000)?;
///     Ok(!done.coded && typed.as_slice() == b"abc".as_slice())
/// }
/// ```
pub fn session<T: TextStore, R: Read, W: Write, H: Host>(
    alloc: Global,
    machine: &mut Machine<T>,
    reader: &mut R,
    writer: &mut W,
    host: &mut H,
    limit: u64,
) -> Result<Done, SessionFault>
    ensures session { Joined (λ old new. Converses (record { steps = limit; length = LIMIT })
        (setting old (H.failures host.old) (R.remaining reader.old) (W.contents writer.old))
        (setting new (H.failures host.new) (R.remaining reader.new) (W.contents writer.new))
        result) machine.old machine.new (H.files host.old) (H.files host.new) }
    ensures touches { TouchesInSession (record { steps = limit; length = LIMIT })
        (R.remaining reader.old) (R.remaining reader.new)
        machine.old machine.new (H.files host.old) (H.files host.new) }
    ensures counted { SessionCounts result (H.failures host.old) (H.failures host.new) }
{
    session_max(alloc, machine, reader, writer, host, limit, LIMIT)
}

/// A session whose command strings have at most `max` bytes each, their ends included: as many
/// without an end are `FUL`, and end it.
///
/// # Errors
///
/// As `session`.
pub fn session_max<T: TextStore, R: Read, W: Write, H: Host>(
    alloc: Global,
    machine: &mut Machine<T>,
    reader: &mut R,
    writer: &mut W,
    host: &mut H,
    limit: u64,
    max: usize,
) -> Result<Done, SessionFault>
    requires { max ≤ LIMIT }
    ensures session { Joined (λ old new. Converses (record { steps = limit; length = max })
        (setting old (H.failures host.old) (R.remaining reader.old) (W.contents writer.old))
        (setting new (H.failures host.new) (R.remaining reader.new) (W.contents writer.new))
        result) machine.old machine.new (H.files host.old) (H.files host.new) }
    ensures touches { TouchesInSession (record { steps = limit; length = max })
        (R.remaining reader.old) (R.remaining reader.new)
        machine.old machine.new (H.files host.old) (H.files host.new) }
    ensures counted { SessionCounts result (H.failures host.old) (H.failures host.new) }
{
    let limits = Limits {
        steps: limit,
        length: max,
    };
    let conduct = Conduct {
        limits,
        until_code: false,
    };
    session_heard(alloc, machine, reader, writer, host, conduct, &mut Silent)
}

/// A session that a listener hears: it is told how each command string stopped, once that was run.
/// Where the conduct says so the first code ends the session: no later string is run, and the end
/// is not that of a string that ends the session.
///
/// # Errors
///
/// As `session`.
pub fn session_heard<T: TextStore, R: Read, W: Write, H: Host, L: Listener<H>>(
    alloc: Global,
    machine: &mut Machine<T>,
    reader: &mut R,
    writer: &mut W,
    host: &mut H,
    conduct: Conduct,
    listener: &mut L,
) -> Result<Done, SessionFault>
    requires { conduct.limits.length ≤ LIMIT }
    ensures session { Joined (λ old new. Hears conduct.until_code conduct.limits
        (setting old (H.failures host.old) (R.remaining reader.old) (W.contents writer.old))
        (setting new (H.failures host.new) (R.remaining reader.new) (W.contents writer.new))
        result) machine.old machine.new (H.files host.old) (H.files host.new) }
    ensures touches { TouchesInSession conduct.limits
        (R.remaining reader.old) (R.remaining reader.new)
        machine.old machine.new (H.files host.old) (H.files host.new) }
    ensures counted { SessionCounts result (H.failures host.old) (H.failures host.new) }
{
    notes_fit();
    let limits = conduct.limits;
    let mut string = Vec::new(alloc);
    let mut ahead = ReadAhead::new();
    let mut coded = false;
    for _ in 0..STRINGS {
        let piece = next_piece(&mut string, &mut ahead, reader, limits)?;
        let cut = InputPiece {
            piece,
            bytes: string.as_slice(),
            limits,
        };
        let done = answer(machine, &cut, writer, host, listener)?;
        coded |= done.coded;
        if done.exit {
            return Ok(Done { coded, exit: true });
        }
        if let Piece::Rest = piece {
            return Ok(Done { coded, exit: false });
        }
        if conduct.until_code && coded {
            return Ok(Done { coded, exit: false });
        }
    }
    Err(SessionFault::Read)
}
