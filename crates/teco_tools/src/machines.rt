//! Machines for runs, and what they are given to run.
ghost use Rattle.std.specs.Prelude.{◌≡◌, ◌≤◌, IfOk, length};
ghost use Rattle.teco_base.specs.declared.TheConstants.{LIMIT};
ghost use Rattle.teco_tools.specs.Scripts.{new_machine};

use crate::fault::ToolFault;
use std::alloc::Global;
use teco_base::LIMIT;
use teco_console::AnswerFault;
use teco_run::Machine;
use teco_text::GapText;

/// A machine whose runs may type so many bytes.
pub fn machine_with(alloc: Global, cap: usize) -> Machine<GapText>
    ensures { result ≡ new_machine }
{
    let mut machine = Machine::new(alloc, GapText::new(alloc));
    machine.set_cap(cap);
    machine
}

/// A command string, as long as a machine takes one. Names and numbers never make a longer one.
pub fn within_limit(text: &[u8]) -> Result<&[u8], ToolFault>
    ensures same { IfOk result (λ command. command.now ≡ text.now) }
    ensures within { IfOk result (λ command. length command.now ≤ LIMIT) }
{
    if text.len() > LIMIT {
        return Err(AnswerFault::Memory.into());
    }
    Ok(text)
}
