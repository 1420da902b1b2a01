//! Steps of a run that are done one by one, and listed.
ghost use Rattle.std.specs.Prelude.{◌≡◌, []};
ghost use Rattle.teco_jobs.specs.Following.{Advances, Follows, stop_behind};
ghost use Rattle.teco_run.specs.Executions.{state_at};

use std::alloc::{AllocError, Global};
use std::fmt;
use std::io::Write;
use teco_console::{Console, element_at};
use teco_hosts::Host;
use teco_model::Stop;
use teco_run::{Execution, Machine, Progress, Site, Stopped};
use teco_source::{LineAndByte, Shown};
use teco_text::GapText;
use teco_tools::{ToolFault, size_of};

// Where a run stands, and the element there, as they are listed.
fn shown_site(
    alloc: Global,
    machine: &Machine<GapText>,
    command: &[u8],
    site: Site,
) -> Result<String, AllocError> {
    let name = site
        .register
        .map_or('-', |register| char::from(register.name()));
    let text = match site.register {
        None => command,
        Some(register) => machine.regs().text(register),
    };
    let LineAndByte { line, column } = LineAndByte::of(text, site.place);
    let found = Shown(element_at(text, site.place));
    format!(in alloc; "{name}:{line}:{column}\t{found}")
}

// What a run has come to behind a step that was not done.
fn stop_of(progress: Progress, steps: u64) -> Option<Stop>
    ensures { result ≡ stop_behind progress steps }
{
    match progress {
        Progress::On => None,
        Progress::Ended => Some(Stop::Ended { steps }),
        Progress::Exit => Some(Stop::Exit { steps }),
        Progress::Error(code) => Some(Stop::Error(code)),
        Progress::Memory => Some(Stop::Memory),
        Progress::HostFault(fault) => Some(Stop::HostFault(fault)),
    }
}

// The value that is pending behind a step, if there is one.
#[derive(Clone, Copy)]
struct PendingValue(Option<i32>);

impl fmt::Display for PendingValue {
    fn fmt<W: fmt::Write>(&self, f: &mut fmt::Formatter<W>) -> fmt::Result {
        match self.0 {
            None => write!(f, "-"),
            Some(answer) => write!(f, "{answer}"),
        }
    }
}

// A step that is listed: the steps before it, and where it stands.
#[derive(Clone, Copy)]
struct ListedStep<'a> {
    steps: u64,
    site: &'a str,
}

// Lists a step that was done.
fn list<O: Write + Drop, E: Write + Drop>(
    console: &mut Console<O, E>,
    machine: &mut Machine<GapText>,
    line: ListedStep<'_>,
    answer: PendingValue,
) -> Result<(), ToolFault>
    ensures { machine.new ≡ record
        machine.old { kept = record machine.old.kept { typed = [] } } }
{
    let (pointer, length) = size_of(machine);
    let typed = machine.take_typed();
    let typed = Shown(&typed);
    let number = line.steps.saturating_add(1);
    let site = line.site;
    console.answer(format_args!("{number}\t{site}\t{pointer}\t{length}\t{answer}\t{typed}\n"))?;
    Ok(())
}

/// The command string whose steps are listed, and how many are at most.
#[derive(Clone, Copy)]
pub struct ListedRun<'a> {
    pub command: &'a [u8],
    pub most: u64,
}

// Does the step behind so many, and lists it; what the run came to if it was not done.
fn advance<H: Host, O: Write + Drop, E: Write + Drop>(
    console: &mut Console<O, E>,
    machine: &mut Machine<GapText>,
    host: &mut H,
    execution: &mut Execution<'_>,
    walk: ListedRun<'_>,
) -> Result<Option<Stop>, ToolFault>
    ensures { Advances execution.old execution.new
        machine.old machine.new (H.files host.old) (H.files host.new) result }
{
    let steps = walk.most;
    let site = shown_site(console.alloc, machine, walk.command, execution.site())?;
    match stop_of(machine.step(execution, host), steps) {
        Some(stop) => Ok(Some(stop)),
        None => {
            let line = ListedStep {
                steps,
                site: site.as_str(),
            };
            list(console, machine, line, PendingValue(execution.value()))?;
            Ok(None)
        }
    }
}

/// How many steps of a run were listed, and where it stopped; nothing where it goes on.
#[derive(Clone, Copy)]
pub struct Followed {
    pub steps: u64,
    pub stopped: Option<Stopped>,
}

/// Does the steps of a run one by one, and lists them, up to the most.
pub fn follow<H: Host, O: Write + Drop, E: Write + Drop>(
    console: &mut Console<O, E>,
    machine: &mut Machine<GapText>,
    host: &mut H,
    execution: &mut Execution<'_>,
    walk: ListedRun<'_>,
) -> Result<Followed, ToolFault>
    ensures { Follows walk.entry.most (state_at execution.old) (state_at execution.new)
        machine.old machine.new (H.files host.old) (H.files host.new) result }
{
    for steps in 0..walk.most {
        let site = execution.site();
        let here = ListedRun {
            command: walk.command,
            most: steps,
        };
        match advance(console, machine, host, execution, here) {
            Ok(None) => {}
            Ok(Some(stop)) => {
                return Ok(Followed {
                    steps,
                    stopped: Some(Stopped { stop, steps, site }),
                });
            }
            Err(fault) => return Err(fault),
        }
    }
    Ok(Followed {
        steps: walk.most,
        stopped: None,
    })
}
