//! The run of a verified macro.
ghost use Rattle.std.specs.Prelude.{◌≡◌, ◌↔◌, Some, None, IfOk, OnOk, OnErr, IsTrue};
ghost use Rattle.teco_apply.specs.Sure.{Answers, Calls, HasFiles, IsReady, IsTaken, Runs, TakesArgument};
ghost use Rattle.teco_apply.specs.Sure.{call_text as text_of_call, kept_loaded};
ghost use Rattle.teco_apply.specs.Touched.{IsReadyLoaded, TouchesNone};
ghost use Rattle.teco_model.specs.Macros.{IsLoaded};
ghost use Rattle.teco_model.specs.Run.{StopCounts};
ghost use Rattle.teco_run.specs.Holdings.{Joined};

use crate::ready::NotReady;
use arrayvec::ArrayVec;
use std::marker::Model;
use teco_base::{Reg, decimal};
use teco_hosts::Host;
use teco_hosts::laws::notes_fit;
use teco_law_runs::laws::{loading_loads, runs_are_sure, runs_end_once, runs_leave_open};
use teco_model::Stop;
use teco_promise::Promise;
use teco_run::{Machine, Stopped};
use teco_text::TextStore;

/// What is promised of a macro, and the argument that it is given.
#[derive(Drop)]
pub struct PromisedCall<'a> {
    pub promise: &'a Promise<'a>,
    pub given: Option<i32>,
}

impl<'a> Model for PromisedCall<'a> {
    ghost use Rattle.teco_apply.specs.Sure as model;

    ghost Value = { model.PromisedCall };

    ghost view = { λ c. record { promise = c.promise.now; given = c.given } };
}

// How long the text of a call may be: a number's text, and two characters.
const CALL: usize = 13;

/// Is a macro called with this argument, or with none?
pub fn takes(promise: &Promise<'_>, given: Option<i32>) -> bool
    ensures { IsTrue result ↔ IsTaken promise.now.argument given }
{
    match (promise.argument(), given) {
        (None, None) => true,
        (Some(range), Some(n)) => range.low() as i32 <= n && n <= range.high() as i32,
        _ => false,
    }
}

/// The text that calls a macro.
pub fn call_text(entry: Reg, given: Option<i32>) -> ArrayVec<u8, CALL>
    ensures { result.items ≡ text_of_call entry given }
{
    let mut text = ArrayVec::new();
    if let Some(n) = given {
        for digit in decimal(n).as_bytes() {
            text.push(*digit);
        }
    }
    text.push(b'M');
    text.push(entry.name());
    text
}

/// Calls a macro where its library is loaded, and the files that it needs are open.
pub fn call_promised<T: TextStore, H: Host>(
    machine: &mut Machine<T>,
    call: &PromisedCall<'_>,
    host: &mut H,
) -> Stopped
    requires loaded { IsLoaded call.now.promise.library machine.old.kept }
    requires files { HasFiles call.now.promise.needs machine.old.held }
    requires taken { TakesArgument call.now }
    ensures calls { Joined (Calls call.now result.stop)
        machine.old machine.new (H.files host.old) (H.files host.new) }
    ensures touches { TouchesNone (IsReady call.now.promise)
        machine.old machine.new (H.files host.old) (H.files host.new) }
    ensures counted { StopCounts result.stop (H.failures host.old) (H.failures host.new) }
{
    machine.is_whole();
    call.promise.is_sound();
    runs_are_sure();
    runs_leave_open();
    runs_end_once();
    notes_fit();
    let entry = call.promise.entry();
    entry.index();
    let text = call_text(entry, call.given);
    machine.run_to_stop(text.as_slice(), u64::MAX, host)
}

/// Loads the library of a macro, if it may be run with an argument, or with none. A refusal leaves
/// all as it is.
pub fn make_ready<T: TextStore>(
    machine: &mut Machine<T>,
    call: &PromisedCall<'_>,
) -> Result<(), NotReady>
    ensures answer { Answers call.now
        machine.old.held result }
    ensures loaded { OnOk result (machine.new ≡
        record machine.old { kept = kept_loaded call.now.promise.library machine.old.kept }) }
    ensures ready { OnOk result (IsLoaded call.now.promise.library machine.new.kept) }
    ensures err { OnErr result (machine.new ≡ machine.old) }
{
    let needs = call.promise.needs();
    if needs.input && !machine.has_input() {
        return Err(NotReady::NoInput);
    }
    if needs.output && !machine.has_output() {
        return Err(NotReady::NoOutput);
    }
    if !takes(call.promise, call.given) {
        return Err(NotReady::Argument);
    }
    machine.is_whole();
    machine.load(call.promise.library().texts())?;
    loading_loads();
    Ok(())
}

/// Runs a macro of which a promise is given, by either edition of the rules, with an argument, or with
/// none, over the files of a host: the texts of its library are loaded into their registers, and the
/// macro is called without a limit of steps. A refusal leaves all as it is.
///
/// Where the printed size at N fits, and the printed number of commands is one of 64 bits, it comes
/// to its end within that number of commands, and never to a code, its text gets no longer and it types
/// no more bytes than is promised; or want of memory stops it, or the host. N is what is held and what
/// is unread once the library is loaded.
///
/// # Errors
///
/// `NotReady`, and nothing is done: an argument is missing or one that the macro does not take; the
/// input or the output that it needs is not open; memory for the library's texts is refused.
pub fn run_promised<T: TextStore, H: Host>(
    machine: &mut Machine<T>,
    call: &PromisedCall<'_>,
    host: &mut H,
) -> Result<Stop, NotReady>
    ensures answer { Answers call.now
        machine.old.held result }
    ensures runs { IfOk result (λ stop. Joined
        (Runs call.now stop)
        machine.old machine.new (H.files host.old) (H.files host.new)) }
    ensures counted { IfOk result (λ stop. StopCounts stop
        (H.failures host.old) (H.failures host.new)) }
    ensures machine { OnErr result (machine.new ≡ machine.old) }
    ensures host { OnErr result (host.new ≡ host.old) }
    ensures touches { IfOk result (λ _. TouchesNone
        (IsReadyLoaded call.now)
        machine.old machine.new (H.files host.old) (H.files host.new)) }
{
    make_ready(machine, call)?;
    Ok(call_promised(machine, call, host).stop)
}
