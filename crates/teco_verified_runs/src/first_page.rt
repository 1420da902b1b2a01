//! Editing the first page of a file by a macro that has a closed table.
ghost use Rattle.std.specs.Prelude.{◌≡◌, ◌≤◌, ◌↔◌, Err, length};
ghost use Rattle.teco_apply.specs.Apply.{Applied, EditCounts};
ghost use Rattle.teco_apply.specs.Sure.{IsTaken};
ghost use Rattle.teco_apply.specs.Touched.{EditTouches};
ghost use Rattle.teco_run.specs.Holdings.{Joined};
ghost use Rattle.teco_session.specs.declared.fault.SessionFault.TheVariants as fault;
ghost use Rattle.teco_verify.specs.Promised.{promise_of};

use std::alloc::Global;
use std::io::Write;
use teco_apply::{PromisedCall, apply_promised};
use teco_hosts::Host;
use teco_options::NAME;
use teco_run::Machine;
use teco_session::{Done, SessionFault};
use teco_text::TextStore;
use teco_verify::Verified;

/// Edits a file by a verified macro into another file, as `apply_promised` does by its promise.
///
/// # Errors
///
/// A fault of the writer, or `Memory` for the first command string.
pub fn apply<T: TextStore, H: Host, W: Write>(
    alloc: Global,
    machine: &mut Machine<T>,
    verified: &Verified<'_>,
    given: Option<i32>,
    source: &[u8],
    target: &[u8],
    host: &mut H,
    writer: &mut W,
) -> Result<Done, SessionFault>
    requires source { length source.now ≤ NAME }
    requires target { length target.now ≤ NAME }
    ensures edits { Joined (λ old new. Applied (record { promise = promise_of verified.now; given = given })
        source.now target.now old new
        (H.failures host.old) (H.failures host.new)
        (W.contents writer.old) (W.contents writer.new) result)
        machine.old machine.new (H.files host.old) (H.files host.new) }
    ensures touches { EditTouches (record { promise = promise_of verified.now; given = given })
        source.now target.now result
        machine.old machine.new (H.files host.old) (H.files host.new) }
    ensures argument { (result ≡ Err fault.Argument)
        ↔ (¬ IsTaken verified.now.fields.argument given) }
    ensures counted { EditCounts result (H.failures host.old) (H.failures host.new) }
{
    let promise = verified.promise();
    let call = PromisedCall {
        promise: &promise,
        given,
    };
    apply_promised(alloc, machine, &call, source, target, host, writer)
}
