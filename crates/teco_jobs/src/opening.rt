//! How files are opened and read for the run of a macro.
ghost use Rattle.std.specs.Prelude.{◌≡◌, IfOk, option_map};
ghost use Rattle.teco_apply.specs.Sure.{MOST, call_text};
ghost use Rattle.teco_jobs.specs.Openings as openings;
ghost use Rattle.teco_jobs.specs.Openings.{AddsAll, Opens, Runs, Then, TurnsIfAny};
ghost use Rattle.teco_run.specs.Holdings.{Joined};
ghost use Rattle.teco_tools.specs.Codes.{code_at};

use crate::names::Names;
use std::alloc::{AllocError, Global};
use teco_apply::PageChoice;
use teco_base::bytes::ESC;
use teco_base::{Reg, decimal};
use teco_console::AnswerFault;
use teco_hosts::Host;
use teco_model::Stop;
use teco_run::{Machine, Site, Stopped};
use teco_text::TextStore;
use teco_tools::{ToolFault, code_of, within_limit};

/// How many pages are read at most.
pub const PAGES: u64 = 4_294_967_296;

/// What adds the next page to what is read, behind a form feed.
const JOINING: &[u8] = &[b'Z', b'J', b'1', b'2', b'I', ESC, b'A'];

// The command string that opens files and reads the first page.
fn opening(alloc: Global, names: Names<'_>) -> Result<Vec<u8>, AllocError>
    ensures { IfOk result (λ text.
        text.items ≡ openings.opening names.entry.source.now names.entry.target.now) }
{
    let mut text = Vec::new(alloc);
    text.extend_from_slice(b"ER")?;
    text.extend_from_slice(names.source)?;
    text.extend_from_slice(&[ESC, b'E', b'W'])?;
    text.extend_from_slice(names.target)?;
    text.extend_from_slice(&[ESC, b'Y'])?;
    Ok(text)
}

/// The command string that calls a macro.
pub fn call(alloc: Global, entry: Reg, argument: Option<i32>) -> Result<Vec<u8>, AllocError>
    ensures { IfOk result (λ text. text.items ≡ call_text entry argument) }
{
    let mut text = Vec::new(alloc);
    if let Some(n) = argument {
        text.extend_from_slice(decimal(n).as_bytes())?;
    }
    text.push(b'M')?;
    text.push(entry.name())?;
    Ok(text)
}

/// Runs a command string for at most so many steps, and tells how it stopped.
pub fn run_within<T: TextStore, H: Host>(
    machine: &mut Machine<T>,
    host: &mut H,
    text: &[u8],
    most: u64,
) -> Result<Stopped, ToolFault>
    ensures { IfOk result (λ stopped. Joined (Runs most text.now (code_at stopped.stop))
        machine.old machine.new (H.files host.old) (H.files host.new)) }
{
    let command = within_limit(text)?;
    Ok(machine.run_to_stop(command, most, host))
}

// Runs a command string, and tells how it stopped.
fn run_text<T: TextStore, H: Host>(
    machine: &mut Machine<T>,
    host: &mut H,
    text: &[u8],
) -> Result<Stopped, ToolFault>
    ensures { IfOk result (λ stopped. Joined (Runs MOST text.now (code_at stopped.stop))
        machine.old machine.new (H.files host.old) (H.files host.new)) }
{
    run_within(machine, host, text, u64::MAX)
}

// A command string that is not begun.
fn not_begun(stop: Stop) -> Stopped
    ensures { result.stop ≡ stop }
{
    Stopped {
        stop,
        steps: 0,
        site: Site {
            register: None,
            place: 0,
        },
    }
}

/// Runs a command string, if bytes are unread; how it stopped, or nothing where none are.
pub fn turn<T: TextStore, H: Host>(
    machine: &mut Machine<T>,
    host: &mut H,
    text: &[u8],
) -> Result<Option<Stopped>, ToolFault>
    ensures { IfOk result (λ stopped.
        Joined (TurnsIfAny text.now (option_map (λ it. code_at it.stop) stopped))
        machine.old machine.new (H.files host.old) (H.files host.new)) }
{
    match machine.has_unread(host) {
        Ok(false) => Ok(None),
        Ok(true) => Ok(Some(run_text(machine, host, text)?)),
        Err(stop) => Ok(Some(not_begun(stop))),
    }
}

// Adds all pages behind the first to it, and goes to its start; how it stopped.
fn add_pages<T: TextStore, H: Host>(
    machine: &mut Machine<T>,
    host: &mut H,
) -> Result<Stopped, ToolFault>
    ensures { IfOk result (λ stopped. Joined (AddsAll (code_at stopped.stop))
        machine.old machine.new (H.files host.old) (H.files host.new)) }
{
    for _ in 0..PAGES {
        match turn(machine, host, JOINING)? {
            None => return run_text(machine, host, b"J"),
            Some(stopped) if code_of(stopped.stop).is_some() => return Ok(stopped),
            Some(_) => {}
        }
    }
    Err(AnswerFault::Memory.into())
}

// Runs a command string, and adds all pages behind the first where no code comes of it.
fn open_whole<T: TextStore, H: Host>(
    machine: &mut Machine<T>,
    host: &mut H,
    opening: &[u8],
) -> Result<Stopped, ToolFault>
    ensures { IfOk result (λ stopped. Joined (Then (Runs MOST opening.now) AddsAll (code_at stopped.stop))
        machine.old machine.new (H.files host.old) (H.files host.new)) }
{
    let stopped = run_text(machine, host, opening)?;
    if code_of(stopped.stop).is_some() {
        return Ok(stopped);
    }
    add_pages(machine, host)
}

/// Opens files of these names, and reads the first page, or all of them as one; how it stopped.
pub fn open_pages<T: TextStore, H: Host>(
    alloc: Global,
    machine: &mut Machine<T>,
    host: &mut H,
    names: Names<'_>,
    pages: PageChoice,
) -> Result<Stopped, ToolFault>
    ensures { IfOk result (λ stopped.
        Joined (Opens pages names.entry.source.now names.entry.target.now (code_at stopped.stop))
        machine.old machine.new (H.files host.old) (H.files host.new)) }
{
    let text = opening(alloc, names)?;
    match pages {
        PageChoice::Whole => open_whole(machine, host, &text),
        PageChoice::First | PageChoice::Each => run_text(machine, host, &text),
    }
}
