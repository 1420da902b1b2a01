//! Editing the first page of a file by a promised macro.
ghost use Rattle.std.specs.Prelude.{◌≡◌, ◌≤◌, ◌↔◌, Err, length, false};
ghost use Rattle.teco_apply.specs.Apply.{Applied, EditCounts};
ghost use Rattle.teco_apply.specs.Sure.{TakesArgument};
ghost use Rattle.teco_apply.specs.Touched.{EditTouches};
ghost use Rattle.teco_run.specs.Holdings.{Joined};
ghost use Rattle.teco_session.specs.Answers.{Said};
ghost use Rattle.teco_session.specs.declared.fault.SessionFault.TheVariants as fault;

use crate::by_pages::{Edit, dropped, edit_file};
use crate::guard::Willing;
use crate::run::PromisedCall;
use std::alloc::Global;
use std::io::Write;
use teco_hosts::Host;
use teco_options::{NAME, PageChoice};
use teco_run::Machine;
use teco_session::{Done, SessionFault};
use teco_text::TextStore;

// What was done.
fn said(line: Result<bool, SessionFault>) -> Result<Done, SessionFault>
    ensures { Said line false result }
{
    match line {
        Ok(coded) => Ok(Done { coded, exit: false }),
        Err(fault) => Err(fault),
    }
}

/// Edits a file by a macro of which a promise is given into another file, over the files of a host: both are opened
/// and the first page is read, the macro is run, and the rest is copied and the output closed. What
/// each of these runs types is written behind it, and its code line. After the first code no more
/// is run, and the output is dropped.
///
/// The macro is called with an argument, if one is given. Where that is none that it takes, or
/// where it takes one and none is given, this is told first, and nothing is done.
///
/// Without memory for the first command string nothing is done. With a fault of writing, the run
/// whose bytes were being written is the last: a part of what it writes is written.
///
/// # Errors
///
/// A fault of the writer, or `Memory` for the first command string.
pub fn apply_promised<T: TextStore, H: Host, W: Write>(
    alloc: Global,
    machine: &mut Machine<T>,
    call: &PromisedCall<'_>,
    source: &[u8],
    target: &[u8],
    host: &mut H,
    writer: &mut W,
) -> Result<Done, SessionFault>
    requires source { length source.now ≤ NAME }
    requires target { length target.now ≤ NAME }
    ensures edits { Joined (λ old new. Applied call.now
        source.now target.now old new
        (H.failures host.old) (H.failures host.new)
        (W.contents writer.old) (W.contents writer.new) result)
        machine.old machine.new (H.files host.old) (H.files host.new) }
    ensures touches { EditTouches call.now
        source.now target.now result
        machine.old machine.new (H.files host.old) (H.files host.new) }
    ensures argument { (result ≡ Err fault.Argument)
        ↔ (¬ TakesArgument call.now) }
    ensures counted { EditCounts result (H.failures host.old) (H.failures host.new) }
{
    let edit = Edit {
        alloc,
        promise: call.promise,
        source,
        target,
        given: call.given,
        pages: PageChoice::First,
        guard: &Willing,
    };
    // as no run is refused, the output is dropped behind a code alone
    said(dropped(edit_file(machine, &edit, host, writer, &mut Willing)))
}
