//! What edits are made of: command strings, and the runs of a macro, which a guard admits and
//! hears.
ghost use Rattle.std.specs.Prelude.{◌≡◌, ◌≤◌, ◌<◌, ◌+◌, ◌^◌, MatchOption, IfSome, length, false};
ghost use Rattle.teco_apply.specs.Apply.{AnswersText, LineCounts};
ghost use Rattle.teco_apply.specs.ByPages as edit;
ghost use Rattle.teco_apply.specs.ByPages.{AdmittedStops, Closing, EndsWith, IsAskedAt, IsRefused, PagesCount, RanBy};
ghost use Rattle.teco_apply.specs.ByPages.{RanCounts, RunsAdmitted, TurnCounts, TurnedBy, Turns, edited_with};
ghost use Rattle.teco_apply.specs.ByPages.{nothing_done, order_by, tally_after};
ghost use Rattle.teco_apply.specs.Sure.{PromisedCall, TakesArgument};
ghost use Rattle.teco_apply.specs.Touched.{IsOfPages, Measures, TouchesByParts};
ghost use Rattle.teco_base.specs.declared.TheConstants.{LIMIT};
ghost use Rattle.teco_model.specs.Paging.{unread_of};
ghost use Rattle.teco_model.specs.Run.{StopCounts};
ghost use Rattle.teco_run.specs.Holdings.{Joined};

use crate::by_pages::Edited;
use crate::editing::{Heard, answer_text, stop_of, tell};
use crate::guard::{Asked, Guard, Observer, Order};
use crate::run::{call_promised, call_text, make_ready};
use std::io::Write;
use teco_hosts::Host;
use teco_model::Stop;
use teco_run::{Machine, Site, Stopped};
use teco_session::{Listener, SessionFault};
use teco_text::TextStore;

/// What the macro came to.
#[derive(Clone, Copy)]
pub enum Ran {
    /// An end, after this many steps.
    On { steps: u64 },
    /// A code.
    Coded,
    /// The guard did not admit it.
    Refused,
}

/// What came of a command string that is run where bytes are unread.
#[derive(Clone, Copy)]
pub enum Turned {
    /// The macro was run.
    On,
    /// No bytes are unread.
    Through,
    /// A code.
    Coded,
}

/// How many pages are edited, and in how many steps.
#[derive(Clone, Copy)]
pub struct Tally {
    pub pages: u64,
    pub steps: u64,
}

impl Tally {
    /// None yet.
    pub fn new() -> Tally
        ensures { result ≡ nothing_done }
    {
        Tally { pages: 0, steps: 0 }
    }

    /// One page more.
    pub fn after(self, steps: u64) -> Tally
        requires { self.pages + 1 < 2 ^ 64 }
        ensures { result ≡ tally_after steps self }
    {
        Tally {
            pages: self.pages + 1,
            steps: self.steps.saturating_add(steps),
        }
    }

    /// What is answered of them.
    pub fn edited(self, coded: bool, refused: bool) -> Edited
        ensures { result ≡ edited_with self coded refused }
    {
        Edited {
            coded,
            refused,
            pages: self.pages,
            steps: self.steps,
        }
    }

    /// What stands where the last command string ended with this line: with a code, or without.
    pub fn ended(self, line: Result<bool, SessionFault>) -> Result<Edited, SessionFault>
        ensures { EndsWith self line result }
    {
        match line {
            Ok(coded) => Ok(self.edited(coded, false)),
            Err(fault) => Err(fault),
        }
    }
}

// The steps of a run that came to an end.
fn steps_of(stop: Stop) -> u64
    ensures { result ≡ edit.steps_of stop }
{
    match stop {
        Stop::Ended { steps } => steps,
        Stop::Exit { steps } => steps,
        Stop::Error(_) | Stop::Limit | Stop::Memory | Stop::HostFault(_) => 0,
    }
}

/// A command string that is not begun.
pub fn not_begun(stop: Stop) -> Stopped
    ensures { result.stop ≡ stop }
{
    Stopped {
        stop,
        steps: 0,
        site: Site {
            register: None,
            place: 0,
        },
    }
}

// What the macro came to, by whether a code was written.
fn ran_by(line: Result<bool, SessionFault>, stop: Stop) -> Result<Ran, SessionFault>
    ensures { RanBy line stop result }
{
    match line {
        Ok(false) => Ok(Ran::On {
            steps: steps_of(stop),
        }),
        Ok(true) => Ok(Ran::Coded),
        Err(fault) => Err(fault),
    }
}

// How many bytes of the input are unread at most, if that can be told.
fn unread_at_most<T: TextStore, H: Host>(machine: &Machine<T>, host: &mut H) -> Option<u64>
    ensures most { Joined (λ old new. (new ≡ old) × IfSome result (λ n. unread_of old ≤ n))
        machine.now machine.now (H.files host.old) (H.files host.new) }
    ensures touches { Measures machine.now (H.files host.old) (H.files host.new) }
    ensures counted { H.failures host.new ≡ H.failures host.old }
{
    let left = host.left_of_input()?;
    left.checked_add(machine.read_ahead() as u64)
}

// Asks the guard whether the macro may be run, whose library is loaded.
fn ask<T: TextStore, H: Host, G: Guard>(machine: &Machine<T>, guard: &G, host: &mut H) -> Asked
    ensures asked { Joined (λ old new. (new ≡ old) × IsAskedAt (G.answers guard.now) old result.admitted)
        machine.now machine.now (H.files host.old) (H.files host.new) }
    ensures touches { Measures machine.now (H.files host.old) (H.files host.new) }
    ensures counted { H.failures host.new ≡ H.failures host.old }
{
    let held = machine.held();
    let unread = unread_at_most(machine, host);
    Asked {
        held,
        unread,
        admitted: guard.admits(held, unread),
    }
}

// Runs the macro, if the guard admits that; `None` where it does not, and the library is loaded
// then.
fn run_guarded<T: TextStore, H: Host, G: Guard, O: Observer<H>>(
    machine: &mut Machine<T>,
    order: &Order<'_, G>,
    host: &mut H,
    observer: &mut O,
) -> Option<Stopped>
    requires { TakesArgument order.now.call.now }
    ensures stops { Joined (λ old new. MatchOption result
        (IsRefused (order_by (G.answers order.now.guard.now) order.now.call.now) old new)
        (λ stopped. AdmittedStops (order_by (G.answers order.now.guard.now) order.now.call.now)
        old stopped.stop new))
        machine.old machine.new (H.files host.old) (H.files host.new) }
    ensures touches { TouchesByParts order.now.call.now
        machine.old machine.new (H.files host.old) (H.files host.new) }
    ensures counted { MatchOption result (H.failures host.new ≡ H.failures host.old)
        (λ stopped. StopCounts stopped.stop (H.failures host.old) (H.failures host.new)) }
{
    if let Err(not_ready) = make_ready(machine, order.call) {
        return Some(not_begun(stop_of(not_ready)));
    }
    let asked = ask(machine, order.guard, host);
    observer.asked(asked, host);
    if !asked.admitted {
        return None;
    }
    Some(call_promised(machine, order.call, host))
}

/// Runs the macro, if the guard admits that, and writes what it types and its code line.
pub fn run_admitted<T: TextStore, H: Host, W: Write, G: Guard, O: Observer<H>>(
    machine: &mut Machine<T>,
    order: &Order<'_, G>,
    host: &mut H,
    writer: &mut W,
    observer: &mut O,
) -> Result<Ran, SessionFault>
    requires { TakesArgument order.now.call.now }
    ensures runs { Joined (λ old new. RunsAdmitted
        (order_by (G.answers order.now.guard.now) order.now.call.now) old new
        (H.failures host.old) (H.failures host.new)
        (W.contents writer.old) (W.contents writer.new) result)
        machine.old machine.new (H.files host.old) (H.files host.new) }
    ensures touches { TouchesByParts order.now.call.now
        machine.old machine.new (H.files host.old) (H.files host.new) }
    ensures counted { RanCounts result (H.failures host.old) (H.failures host.new) }
{
    let Some(stopped) = run_guarded(machine, order, host, observer) else {
        return Ok(Ran::Refused);
    };
    let call = order.call;
    let text = call_text(call.promise.entry(), call.given);
    let stop = stopped.stop;
    let heard = Heard {
        text: text.as_slice(),
        stopped: &stopped,
    };
    let line = tell(machine, &heard, host, writer, observer);
    ran_by(line, stop)
}

// What came of a command string that was run, by whether a code was written.
fn turned_by(line: Result<bool, SessionFault>) -> Result<Turned, SessionFault>
    ensures { TurnedBy line result }
{
    match line {
        Ok(false) => Ok(Turned::On),
        Ok(true) => Ok(Turned::Coded),
        Err(fault) => Err(fault),
    }
}

/// Runs a command string, if bytes are unread. Where that cannot be told, why is written.
pub fn turn<T: TextStore, H: Host, W: Write, L: Listener<H>>(
    machine: &mut Machine<T>,
    text: &[u8],
    host: &mut H,
    writer: &mut W,
    listener: &mut L,
) -> Result<Turned, SessionFault>
    requires { length text.now ≤ LIMIT }
    ensures turns { Joined (λ old new. Turns text.now old new
        (H.failures host.old) (H.failures host.new)
        (W.contents writer.old) (W.contents writer.new) result)
        machine.old machine.new (H.files host.old) (H.files host.new) }
    ensures touches { (call : PromisedCall) → IsOfPages text.now →
        TouchesByParts call machine.old machine.new (H.files host.old) (H.files host.new) }
    ensures counted { TurnCounts result (H.failures host.old) (H.failures host.new) }
{
    match machine.has_unread(host) {
        Ok(false) => Ok(Turned::Through),
        Ok(true) => turned_by(answer_text(machine, text, host, writer, listener)),
        Err(why) => {
            let stopped = not_begun(why);
            let heard = Heard {
                text,
                stopped: &stopped,
            };
            turned_by(tell(machine, &heard, host, writer, listener))
        }
    }
}

/// Closes the output.
pub fn close<T: TextStore, H: Host, W: Write, L: Listener<H>>(
    machine: &mut Machine<T>,
    done: Tally,
    host: &mut H,
    writer: &mut W,
    listener: &mut L,
) -> Result<Edited, SessionFault>
    ensures closes { Joined (λ old new. Closing done old new
        (H.failures host.old) (H.failures host.new)
        (W.contents writer.old) (W.contents writer.new) result)
        machine.old machine.new (H.files host.old) (H.files host.new) }
    ensures touches { (call : PromisedCall) →
        TouchesByParts call machine.old machine.new (H.files host.old) (H.files host.new) }
    ensures counted { PagesCount result (H.failures host.old) (H.failures host.new) }
{
    done.ended(answer_text(machine, b"EC", host, writer, listener))
}
