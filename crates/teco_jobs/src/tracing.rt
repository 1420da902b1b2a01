//! The steps of a macro on a file.
ghost use Rattle.std.specs.Prelude.{◌≡◌};
ghost use Rattle.teco_jobs.specs.Traces as traces;
ghost use Rattle.teco_jobs.specs.Traces.{FollowsMacro, FollowsOnce, TracesLibrary, TracesLoaded, outcome_of};

use crate::following::{Followed, ListedRun, follow};
use crate::jobs::Task;
use crate::names::Names;
use crate::opening::{PAGES, call, open_pages, turn};
use std::io::Write;
use teco_apply::PageChoice;
use teco_base::{Code, LIMIT};
use teco_console::{AnswerFault, Console, Outcome, letters};
use teco_explain::note_of_code;
use teco_hosts::Host;
use teco_library::Library;
use teco_model::Stop;
use teco_run::{Machine, Stopped};
use teco_text::GapText;
use teco_tools::{Reporting, ToolFault, code_of, machine_with, prepare, tell_macro, tell_trouble};

/// What stands over the steps.
const HEAD: &str = "step\tplace\telement\tpointer\tlength\tanswer\ttyped\n";

// Says a code that is met in no macro.
fn tell_code<O: Write + Drop, E: Write + Drop>(console: &mut Console<O, E>, code: Code) {
    let name = letters(code);
    let summary = note_of_code(code).summary;
    console.say(format_args!("?{name}: {summary}"));
}

// Says what a run came to that stopped with a code.
fn tell_stop<H: Host + Reporting, O: Write + Drop, E: Write + Drop>(
    console: &mut Console<O, E>,
    machine: &Machine<GapText>,
    host: &H,
    stopped: &Stopped,
    code: Code,
) {
    if stopped.site.register.is_some() {
        tell_macro(&mut console.voice, None, stopped, machine, code);
    } else {
        tell_code(console, code);
    }
    if let Stop::HostFault(_) = stopped.stop {
        tell_trouble(&mut console.voice, host);
    }
}

// What comes of a run that stopped.
fn outcome_at(stop: Stop) -> Outcome
    ensures { result ≡ traces.outcome_at stop }
{
    match stop {
        Stop::Ended { .. } | Stop::Exit { .. } => Outcome::Done,
        Stop::Error(_) | Stop::Limit | Stop::Memory | Stop::HostFault(_) => Outcome::Coded,
    }
}

// Says what a run came to.
fn conclude<H: Host + Reporting, O: Write + Drop, E: Write + Drop>(
    console: &mut Console<O, E>,
    machine: &Machine<GapText>,
    host: &H,
    stopped: &Stopped,
) -> Outcome
    ensures { result ≡ traces.outcome_at stopped.now.stop }
{
    match code_of(stopped.stop) {
        Some(code) => tell_stop(console, machine, host, stopped, code),
        None => {
            let steps = stopped.steps;
            console.say(format_args!("it came to its end in {steps} steps"));
        }
    }
    outcome_at(stopped.stop)
}

// Says that the most steps are listed.
fn tell_cut<O: Write + Drop, E: Write + Drop>(console: &mut Console<O, E>, most: u64) {
    console.say(format_args!("{most} steps are listed, and it goes on; --limit lists more"));
}

// What comes of a macro whose steps were listed, which is said.
fn conclude_followed<H: Host + Reporting, O: Write + Drop, E: Write + Drop>(
    console: &mut Console<O, E>,
    machine: &Machine<GapText>,
    host: &H,
    followed: Followed,
) -> Outcome
    ensures { result ≡ outcome_of followed.stopped }
{
    match followed.stopped {
        Some(stopped) => conclude(console, machine, host, &stopped),
        None => {
            tell_cut(console, followed.steps);
            Outcome::Done
        }
    }
}

// Does the steps of the macro one by one, and lists them.
fn follow_macro<H: Host + Reporting, O: Write + Drop, E: Write + Drop>(
    console: &mut Console<O, E>,
    machine: &mut Machine<GapText>,
    host: &mut H,
    task: &Task<'_, '_>,
    most: u64,
) -> Result<Followed, ToolFault>
    ensures { FollowsMacro task.now most
        machine.old machine.new (H.files host.old) (H.files host.new) result }
{
    let text = call(console.alloc, task.entry, task.argument)?;
    let command = text.as_slice();
    if command.len() > LIMIT {
        return Err(ToolFault::Answer(AnswerFault::Memory));
    }
    let mut execution = machine.begin(command)?;
    let walk = ListedRun { command, most };
    follow(console, machine, host, &mut execution, walk)
}

// Lists the steps of the macro on what is read.
fn follow_once<H: Host + Reporting, O: Write + Drop, E: Write + Drop>(
    console: &mut Console<O, E>,
    machine: &mut Machine<GapText>,
    host: &mut H,
    task: &Task<'_, '_>,
    most: u64,
) -> Result<Outcome, ToolFault>
    ensures { FollowsOnce task.now most
        machine.old machine.new (H.files host.old) (H.files host.new) result }
{
    match follow_macro(console, machine, host, task, most) {
        Ok(followed) => Ok(conclude_followed(console, machine, host, followed)),
        Err(fault) => Err(fault),
    }
}

// Lists the steps of the macro on each page in turn.
fn follow_pages<H: Host + Reporting, O: Write + Drop, E: Write + Drop>(
    console: &mut Console<O, E>,
    machine: &mut Machine<GapText>,
    host: &mut H,
    task: &Task<'_, '_>,
    most: u64,
) -> Result<Outcome, ToolFault> {
    let mut left = most;
    for _ in 0..PAGES {
        let followed = follow_macro(console, machine, host, task, left)?;
        left = left.saturating_sub(followed.steps);
        match followed.stopped {
            None => {
                tell_cut(console, most);
                return Ok(Outcome::Done);
            }
            Some(stopped) => match conclude(console, machine, host, &stopped) {
                Outcome::Done => {}
                outcome => return Ok(outcome),
            },
        }
        match turn(machine, host, b"P")? {
            None => break,
            Some(stopped) if code_of(stopped.stop).is_some() => {
                return Ok(conclude(console, machine, host, &stopped));
            }
            Some(_) => console.say("the next page"),
        }
    }
    Ok(Outcome::Done)
}

/// The file whose steps are listed, and how many are at most.
#[derive(Clone, Copy)]
pub struct Listing<'a> {
    pub names: Names<'a>,
    pub most: u64,
}

/// A macro of a library, and how it is run.
#[derive(Clone, Copy)]
pub struct TracedMacro<'t, 'a, 's> {
    pub task: &'t Task<'a, 's>,
    pub library: &'t Library,
}

// Loads a library, and lists the steps of its macro on what is read.
#[tactic(auto, using(crate::proofs::Steps::unloaded, crate::proofs::Steps::on_each, crate::proofs::Steps::on_one))]
fn trace_loaded<H: Host + Reporting, O: Write + Drop, E: Write + Drop>(
    console: &mut Console<O, E>,
    machine: &mut Machine<GapText>,
    host: &mut H,
    subject: TracedMacro<'_, '_, '_>,
    most: u64,
) -> Result<Outcome, ToolFault>
    ensures { TracesLoaded subject.entry.task.now subject.entry.library.now most
        machine.old machine.new (H.files host.old) (H.files host.new) result }
{
    let TracedMacro { task, library } = subject;
    machine.load(library.texts())?;
    console.answer(HEAD)?;
    match task.pages {
        PageChoice::Each => follow_pages(console, machine, host, task, most),
        PageChoice::First => follow_once(console, machine, host, task, most),
        PageChoice::Whole => follow_once(console, machine, host, task, most),
    }
}

// Opens the files, and lists the steps of a macro of a library on them.
#[tactic(auto, using(crate::proofs::Steps::library_failed, crate::proofs::Steps::library_opened))]
fn trace<H: Host + Reporting, O: Write + Drop, E: Write + Drop>(
    console: &mut Console<O, E>,
    machine: &mut Machine<GapText>,
    host: &mut H,
    subject: TracedMacro<'_, '_, '_>,
    listing: Listing<'_>,
) -> Result<Outcome, ToolFault>
    ensures { TracesLibrary subject.entry.task.now subject.entry.library.now listing.entry.most
        (H.files host.new) result }
{
    let task = subject.task;
    prepare(machine, task.start, host)?;
    let stopped = open_pages(console.alloc, machine, host, listing.names, task.pages)?;
    match outcome_at(stopped.stop) {
        Outcome::Done => trace_loaded(console, machine, host, subject, listing.most),
        Outcome::Coded | Outcome::Refused => {
            tell_opening(console, machine, host, &stopped);
            Ok(Outcome::Coded)
        }
    }
}

// Says why the files could not be opened.
fn tell_opening<H: Host + Reporting, O: Write + Drop, E: Write + Drop>(
    console: &mut Console<O, E>,
    machine: &Machine<GapText>,
    host: &H,
    stopped: &Stopped,
) {
    if let Some(code) = code_of(stopped.stop) {
        tell_stop(console, machine, host, stopped, code);
    }
}

/// Lists the steps of a macro of a library on a file, up to the most: the number of each, the register
/// and the line and column of its element, the element, and the pointer, the length of the buffer, the
/// value that is pending and what was typed behind it. The macro need not be one that is accepted.
pub fn trace_library<H: Host + Reporting, O: Write + Drop, E: Write + Drop>(
    console: &mut Console<O, E>,
    subject: TracedMacro<'_, '_, '_>,
    listing: Listing<'_>,
    host: &mut H,
) -> Result<Outcome, ToolFault>
    ensures { TracesLibrary subject.entry.task.now subject.entry.library.now listing.entry.most
        (H.files host.new) result }
{
    let mut machine = machine_with(console.alloc, subject.task.cap);
    trace(console, &mut machine, host, subject, listing)
}
