//! Runs of macros on texts in memory.
ghost use Rattle.std.specs.Prelude.{◌≡◌, IfOk};
ghost use Rattle.teco_hosts.specs.MemFiles.{no_files, with_put};
ghost use Rattle.teco_jobs.specs.InMemory as memory;
ghost use Rattle.teco_jobs.specs.InMemory.{CallsAndCloses, Makes, OpensAndCalls, Works, text_of_output};
ghost use Rattle.teco_jobs.specs.Openings.{Opens, Runs, Then};
ghost use Rattle.teco_run.specs.Holdings.{Joined};
ghost use Rattle.teco_tools.specs.Codes.{code_at};
ghost use Rattle.teco_tools.specs.Scripts.{new_machine};

use crate::names::Names;
use crate::opening::{call, open_pages, run_within};
use std::alloc::{AllocError, Global};
use teco_apply::PageChoice;
use teco_base::{Code, Reg};
use teco_hosts::{Host, MemHost};
use teco_library::Library;
use teco_run::Machine;
use teco_text::TextStore;
use teco_tools::{Start, ToolFault, code_of, machine_with, prepare};

/// How many steps each command string may take on a text in memory, from the call on.
pub const STEPS: u64 = 100_000_000;

// How many bytes such a run may type, and its calls may take.
const CAP: usize = 1 << 30;

// The names of the file that is read, and of that which is written.
const SOURCE: &[u8] = b"in";

const TARGET: &[u8] = b"out";

/// What a macro made of a text: another text, or a code.
pub enum Came {
    Text(Vec<u8>),
    Code(Code),
}

/// A macro of a library, and how it is called on texts in memory.
#[derive(Clone, Copy)]
pub struct TextCall<'a> {
    pub library: &'a Library,
    pub entry: Reg,
    pub argument: Option<i32>,
    /// What the machine has before.
    pub start: Start<'a>,
    /// The pages that it is called on: the first, or all as one.
    pub pages: PageChoice,
}

// A host with a text as the file that is read.
fn host_with(alloc: Global, text: &[u8]) -> Result<MemHost, AllocError>
    ensures { IfOk result (λ host. host ≡ with_put memory.source text.now no_files) }
{
    let mut host = MemHost::new(alloc);
    host.put(SOURCE, text)?;
    Ok(host)
}

// Runs a command string; the code at which that stopped.
fn run<T: TextStore, H: Host>(
    machine: &mut Machine<T>,
    host: &mut H,
    text: &[u8],
) -> Result<Option<Code>, ToolFault>
    ensures { IfOk result (λ code. Joined (Runs STEPS text.now code)
        machine.old machine.new (H.files host.old) (H.files host.new)) }
{
    let stopped = run_within(machine, host, text, STEPS)?;
    Ok(code_of(stopped.stop))
}

// Runs a command string, and closes the files where no code comes of it; the code.
fn run_and_close<T: TextStore, H: Host>(
    machine: &mut Machine<T>,
    host: &mut H,
    text: &[u8],
) -> Result<Option<Code>, ToolFault>
    ensures { IfOk result (λ code. Joined (Then (Runs STEPS text.now) (Runs STEPS memory.closing) code)
        machine.old machine.new (H.files host.old) (H.files host.new)) }
{
    let code = run(machine, host, text)?;
    if code.is_some() {
        return Ok(code);
    }
    run(machine, host, b"EC")
}

// Loads the library, calls the macro, and closes the files; the code at which that stopped.
fn call_and_close<T: TextStore, H: Host>(
    alloc: Global,
    subject: &TextCall<'_>,
    machine: &mut Machine<T>,
    host: &mut H,
) -> Result<Option<Code>, ToolFault>
    ensures { IfOk result (λ code. Joined (CallsAndCloses subject.now code)
        machine.old machine.new (H.files host.old) (H.files host.new)) }
{
    let text = call(alloc, subject.entry, subject.argument)?;
    machine.load(subject.library.texts())?;
    run_and_close(machine, host, &text)
}

// Opens the files; the code at which that stopped.
fn open<T: TextStore, H: Host>(
    alloc: Global,
    machine: &mut Machine<T>,
    host: &mut H,
    pages: PageChoice,
) -> Result<Option<Code>, ToolFault>
    ensures { IfOk result (λ code. Joined (Opens pages memory.source memory.target code)
        machine.old machine.new (H.files host.old) (H.files host.new)) }
{
    let names = Names {
        source: SOURCE,
        target: TARGET,
    };
    let opened = open_pages(alloc, machine, host, names, pages)?;
    Ok(code_of(opened.stop))
}

// Opens the files, and calls the macro where no code comes of that; the code.
fn open_and_call<T: TextStore, H: Host>(
    alloc: Global,
    subject: &TextCall<'_>,
    machine: &mut Machine<T>,
    host: &mut H,
) -> Result<Option<Code>, ToolFault>
    ensures { IfOk result (λ code. Joined (OpensAndCalls subject.now code)
        machine.old machine.new (H.files host.old) (H.files host.new)) }
{
    let code = open(alloc, machine, host, subject.pages)?;
    if code.is_some() {
        return Ok(code);
    }
    call_and_close(alloc, subject, machine, host)
}

// Prepares a machine, and calls the macro on the file; the code at which that stopped.
fn work<T: TextStore, H: Host>(
    alloc: Global,
    subject: &TextCall<'_>,
    machine: &mut Machine<T>,
    host: &mut H,
) -> Result<Option<Code>, ToolFault>
    ensures { IfOk result (λ code. Joined (Works subject.now code)
        machine.old machine.new (H.files host.old) (H.files host.new)) }
{
    prepare(machine, subject.start, host)?;
    open_and_call(alloc, subject, machine, host)
}

// The text of the file that was written.
fn written(alloc: Global, host: &MemHost) -> Result<Vec<u8>, AllocError>
    ensures { IfOk result (λ text. text.items ≡ text_of_output host.now.told.named) }
{
    host.file(TARGET).unwrap_or(&[]).to_vec(alloc)
}

/// Calls a macro of a library on a text, and says what came of it.
///
/// # Errors
///
/// Want of memory, where no run is told.
pub fn run_on_text(alloc: Global, subject: &TextCall<'_>, text: &[u8]) -> Result<Came, ToolFault>
    ensures { IfOk result (Makes subject.now text.now) }
{
    let mut host = host_with(alloc, text)?;
    let mut machine = machine_with(alloc, CAP);
    match work(alloc, subject, &mut machine, &mut host)? {
        None => Ok(Came::Text(written(alloc, &host)?)),
        Some(code) => Ok(Came::Code(code)),
    }
}
