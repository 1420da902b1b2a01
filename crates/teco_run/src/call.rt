//! The call of a macro.
ghost use Rattle.std.specs.Prelude.{◌≡◌, OnOk, OnErr};
ghost use Rattle.teco_model.specs.Going.{frames_in};
ghost use Rattle.teco_model.specs.Storage.{text_in};
ghost use Rattle.teco_run.specs.Steps.{Calls};
ghost use Rattle.teco_run.specs.Ways.{IsBehind};

use crate::frames::Frames;
use crate::macros::Macros;
use std::alloc::AllocError;
use teco_base::Reg;
use teco_editor::{Editor, Stuck};
use teco_text::TextStore;

// Goes on in the text of a register, if memory is not refused. Out of line, so that the loop of
// steps stays small.
#[inline(never)]
fn enter<T: TextStore>(
    editor: &Editor<T>,
    macros: &mut Macros,
    reg: Reg,
    next: usize,
    frames: &mut Frames<'_>,
) -> Result<(), AllocError>
    requires { IsBehind frames.old.running next }
    ensures called { OnOk result
        (frames.new ≡ frames_in (text_in reg editor.now) next frames.old) }
    ensures err { OnErr result (frames.new ≡ frames.old) }
{
    let text = editor.regs().text(reg);
    let called = macros.scan(reg, text)?;
    frames.call(called, next)
}

/// Goes on in the text of a register, and behind its end at a place of the running text.
#[inline(always)]
pub fn call<T: TextStore>(
    editor: &Editor<T>,
    macros: &mut Macros,
    reg: Reg,
    next: usize,
    frames: &mut Frames<'_>,
) -> Result<(), Stuck>
    requires { IsBehind frames.old.running next }
    ensures { Calls (text_in reg editor.now) next frames.old frames.new result }
{
    enter(editor, macros, reg, next, frames)?;
    Ok(())
}
