//! The run of a macro that has a closed table.
ghost use Rattle.std.specs.Prelude.{◌≡◌, Some, None, IfOk, OnErr};
ghost use Rattle.teco_apply.specs.Sure.{Answers, Runs};
ghost use Rattle.teco_apply.specs.Touched.{IsReadyLoaded, TouchesNone};
ghost use Rattle.teco_model.specs.Run.{StopCounts};
ghost use Rattle.teco_run.specs.Holdings.{Joined};
ghost use Rattle.teco_verify.specs.Promised.{promise_of};

use teco_apply::{NotReady, PromisedCall, run_promised};
use teco_hosts::Host;
use teco_model::Stop;
use teco_run::Machine;
use teco_text::TextStore;
use teco_verify::Verified;

/// Runs a verified macro that takes no argument, as `run_promised` does by its promise.
///
/// # Errors
///
/// `NotReady`, as at `run_promised`.
///
/// # Examples
///
/// ```
/// fn types_bnn(
///     machine: &mut Machine<GapText>,
///     verified: &Verified<'_>,
///     host: &mut MemHost,
/// ) -> Option<bool> {
///     machine.run(b"Ibanana\x1b", 100, host);
///     let stop = run_verified(machine, verified, host).ok()?;
///     let typed = machine.take_typed();
///     Some(matches!(stop, Stop::Ended { .. }) && typed.as_slice() == b"bnn".as_slice())
/// }
///
/// fn runs_a_verified_macro(alloc: Global) -> Option<bool> {
///     let library = Library::read(alloc, b"@^UA/J<:Sa\x1b;-D>HT/").ok()?;
///     let verified = verify(alloc, &library, Reg::of(b'A')?).ok()?;
///     let mut machine = Box::new(alloc, Machine::new(alloc, GapText::new(alloc))).ok()?;
///     types_bnn(machine.as_mut(), &verified, &mut MemHost::new(alloc))
/// }
/// ```
pub fn run_verified<T: TextStore, H: Host>(
    machine: &mut Machine<T>,
    verified: &Verified<'_>,
    host: &mut H,
) -> Result<Stop, NotReady>
    ensures answer { Answers (record { promise = promise_of verified.now; given = None })
        machine.old.held result }
    ensures runs { IfOk result (λ stop. Joined
        (Runs (record { promise = promise_of verified.now; given = None }) stop)
        machine.old machine.new (H.files host.old) (H.files host.new)) }
    ensures counted { IfOk result (λ stop. StopCounts stop
        (H.failures host.old) (H.failures host.new)) }
    ensures machine { OnErr result (machine.new ≡ machine.old) }
    ensures host { OnErr result (host.new ≡ host.old) }
    ensures touches { IfOk result (λ _. TouchesNone
        (IsReadyLoaded (record { promise = promise_of verified.now; given = None }))
        machine.old machine.new (H.files host.old) (H.files host.new)) }
{
    let promise = verified.promise();
    let call = PromisedCall {
        promise: &promise,
        given: None,
    };
    run_promised(machine, &call, host)
}

/// Runs a verified macro that takes an argument, which stands before the call. Any argument will do
/// that is in the range for which the macro was verified.
///
/// # Errors
///
/// `NotReady`, as at `run_promised`.
pub fn run_verified_with<T: TextStore, H: Host>(
    machine: &mut Machine<T>,
    verified: &Verified<'_>,
    n: i32,
    host: &mut H,
) -> Result<Stop, NotReady>
    ensures answer { Answers (record { promise = promise_of verified.now; given = Some n })
        machine.old.held result }
    ensures runs { IfOk result (λ stop. Joined
        (Runs (record { promise = promise_of verified.now; given = Some n }) stop)
        machine.old machine.new (H.files host.old) (H.files host.new)) }
    ensures counted { IfOk result (λ stop. StopCounts stop
        (H.failures host.old) (H.failures host.new)) }
    ensures machine { OnErr result (machine.new ≡ machine.old) }
    ensures host { OnErr result (host.new ≡ host.old) }
    ensures touches { IfOk result (λ _. TouchesNone
        (IsReadyLoaded (record { promise = promise_of verified.now; given = Some n }))
        machine.old machine.new (H.files host.old) (H.files host.new)) }
{
    let promise = verified.promise();
    let call = PromisedCall {
        promise: &promise,
        given: Some(n),
    };
    run_promised(machine, &call, host)
}
