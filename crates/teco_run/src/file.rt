//! The commands of files.
ghost use Rattle.std.specs.Prelude.{IfOk};
ghost use Rattle.teco_model.specs.Memory.{file_grows};
ghost use Rattle.teco_model.specs.Outside.{file_reply, filed};
ghost use Rattle.teco_model.specs.State.{Frame};
ghost use Rattle.teco_model.specs.declared.kind.Kind.TheVariants as kind;
ghost use Rattle.teco_filing.specs.Halts.{Counts};
ghost use Rattle.teco_filing.specs.Touched.{touched_in};
ghost use Rattle.teco_run.specs.Holdings.{Joined};
ghost use Rattle.teco_run.specs.Pending.{Pending};
ghost use Rattle.teco_run.specs.Replies.{Answers, IsStraight};
ghost use Rattle.teco_run.specs.Touched.{TouchesBetween};

use crate::course::{Course, then};
use crate::desk::Desk;
use crate::pending::Pending;
use teco_filing::{Halt, abandon_output, close_output, copy_all, exit, open_input, open_output};
use teco_hosts::Host;
use teco_model::kind::File;
use teco_text::TextStore;

// A command of files whose arguments are taken.
fn use_name<T: TextStore, H: Host>(
    desk: &mut Desk<T>,
    file: File,
    name: &[u8],
    host: &mut H,
) -> Result<Course, Halt>
    ensures answers { (frame : Frame) (pending : Pending) → Joined (λ old new. Answers
        (kind.File file) (file_grows file) frame pending
        (filed file name.now pending.left pending.arguments old) old new result)
        desk.old desk.new (H.files host.old) (H.files host.new) }
    ensures counted { Counts result (H.failures host.old) (H.failures host.new) }
    ensures noted { TouchesBetween (touched_in file name.now desk.old.held.output result)
        desk.old desk.new (H.files host.old) (H.files host.new) }
    ensures straight { IfOk result IsStraight }
{
    match file {
        File::Read => then(open_input(&mut desk.pages, name, host), Course::Behind),
        File::Write => then(open_output(&mut desk.pages, name, host), Course::Behind),
        File::Close => then(close_output(&mut desk.pages, host), Course::Behind),
        File::Abandon => then(abandon_output(&mut desk.pages, host), Course::Behind),
        File::Copy => then(
            copy_all(&mut desk.editor, &mut desk.pages, host),
            Course::Behind,
        ),
        File::Exit => then(exit(&mut desk.editor, &mut desk.pages, host), Course::Quit),
    }
}

/// A command of files, with the name that it has. It drops its arguments.
#[inline(never)]
pub fn use_file<T: TextStore, H: Host>(
    desk: &mut Desk<T>,
    file: File,
    name: &[u8],
    pending: &mut Pending,
    host: &mut H,
) -> Result<Course, Halt>
    ensures answers { (frame : Frame) → Joined (λ old new. Answers (kind.File file)
        (file_grows file) frame pending.new
        (file_reply file name.now pending.old.left pending.old.arguments old) old new result)
        desk.old desk.new (H.files host.old) (H.files host.new) }
    ensures counted { Counts result (H.failures host.old) (H.failures host.new) }
    ensures noted { TouchesBetween (touched_in file name.now desk.old.held.output result)
        desk.old desk.new (H.files host.old) (H.files host.new) }
    ensures straight { IfOk result IsStraight }
{
    pending.take()?;
    use_name(desk, file, name, host)
}
