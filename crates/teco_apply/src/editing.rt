//! The command strings of edits, and what is told of their runs.
ghost use Rattle.std.specs.Prelude.{◌≡◌, ◌≤◌, ◌++◌, [], IfOk, length};
ghost use Rattle.teco_apply.specs.Apply as edit;
ghost use Rattle.teco_apply.specs.Apply.{AnswersText, DropCounts, DropsIfCoded, LineCounts, opening};
ghost use Rattle.teco_apply.specs.Sure.{PromisedCall, MOST};
ghost use Rattle.teco_apply.specs.Touched.{TouchesByParts};
ghost use Rattle.teco_base.specs.declared.TheConstants.{LIMIT};
ghost use Rattle.teco_model.specs.Session.{code_of, code_line, is_code};
ghost use Rattle.teco_run.specs.Holdings.{Joined};
ghost use Rattle.teco_session.specs.Output.{Writes};
ghost use Rattle.teco_session.specs.Touched.{TouchesByString};

use crate::ready::NotReady;
use std::alloc::{AllocError, Global};
use std::io::Write;
use teco_base::Code;
use teco_base::bytes::ESC;
use teco_hosts::Host;
use teco_model::Stop;
use teco_run::{Machine, Stopped};
use teco_session::{Listener, SessionFault, write_stop};
use teco_text::TextStore;

/// The command string that opens an input and an output, and reads the first page.
pub fn opening(alloc: Global, source: &[u8], target: &[u8]) -> Result<Vec<u8>, AllocError>
    ensures { IfOk result (λ text. text.items ≡ opening source.now target.now) }
{
    let mut text = Vec::new(alloc);
    text.extend_from_slice(b"ER")?;
    text.extend_from_slice(source)?;
    text.extend_from_slice(&[ESC, b'E', b'W'])?;
    text.extend_from_slice(target)?;
    text.extend_from_slice(&[ESC, b'Y'])?;
    Ok(text)
}

/// What stops a macro that is not run.
pub fn stop_of(not_ready: NotReady) -> Stop
    ensures { result ≡ edit.stop_of not_ready }
{
    match not_ready {
        NotReady::NoInput => Stop::Error(Code::Nfi),
        NotReady::NoOutput => Stop::Error(Code::Nfo),
        NotReady::Argument => Stop::Error(Code::Arg),
        NotReady::Memory => Stop::Memory,
    }
}

/// What a listener hears of a run: its command string, and how it stopped.
#[derive(Clone, Copy)]
pub struct Heard<'a> {
    pub text: &'a [u8],
    pub stopped: &'a Stopped,
}

/// Writes what a run typed and its code line, which a listener hears. Says whether there is such a
/// line.
pub fn tell<T: TextStore, H: Host, W: Write, L: Listener<H>>(
    machine: &mut Machine<T>,
    heard: &Heard<'_>,
    host: &H,
    writer: &mut W,
    listener: &mut L,
) -> Result<bool, SessionFault>
    ensures lines { Writes (W.contents writer.old) (W.contents writer.new)
        (machine.old.kept.typed ++ code_line (code_of heard.now.stopped.now.stop)) result }
    ensures told { IfOk result (λ line. line ≡ is_code (code_of heard.now.stopped.now.stop)) }
    ensures taken { machine.new ≡ record
        machine.old { kept = record machine.old.kept { typed = [] } } }
{
    let line = write_stop(machine, heard.stopped.stop, writer);
    listener.stopped(heard.text, heard.stopped, machine, host);
    line
}

/// Runs a command string, and writes what it types and its code line, which a listener hears. Says
/// whether there is such a line.
pub fn answer_text<T: TextStore, H: Host, W: Write, L: Listener<H>>(
    machine: &mut Machine<T>,
    text: &[u8],
    host: &mut H,
    writer: &mut W,
    listener: &mut L,
) -> Result<bool, SessionFault>
    requires { length text.now ≤ LIMIT }
    ensures answers { Joined (λ old new. AnswersText text.now old new
        (H.failures host.old) (H.failures host.new)
        (W.contents writer.old) (W.contents writer.new) result)
        machine.old machine.new (H.files host.old) (H.files host.new) }
    ensures touches { TouchesByString MOST text.now
        machine.old machine.new (H.files host.old) (H.files host.new) }
    ensures counted { LineCounts result (H.failures host.old) (H.failures host.new) }
{
    let stopped = machine.run_to_stop(text, u64::MAX, host);
    let heard = Heard {
        text,
        stopped: &stopped,
    };
    tell(machine, &heard, host, writer, listener)
}

/// Drops the output behind a code.
pub fn drop_if_coded<T: TextStore, H: Host>(
    machine: &mut Machine<T>,
    line: Result<bool, SessionFault>,
    host: &mut H,
)
    ensures drops { Joined (λ old new. DropsIfCoded line old new
        (H.failures host.old) (H.failures host.new))
        machine.old machine.new (H.files host.old) (H.files host.new) }
    ensures touches { (call : PromisedCall) →
        TouchesByParts call machine.old machine.new (H.files host.old) (H.files host.new) }
    ensures counted { DropCounts line (H.failures host.old) (H.failures host.new) }
{
    if let Ok(true) = line {
        machine.run_to_stop(b"EK", u64::MAX, host);
    }
}
