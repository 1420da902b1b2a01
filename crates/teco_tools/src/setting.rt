//! What registers have before a run.
ghost use Rattle.std.specs.Prelude.{◌≡◌, ◌≤◌, [], Some, None, OnOk, length, replicate, set};
ghost use Rattle.std.specs.List.{All};
ghost use Rattle.teco_base.specs.declared.TheConstants.{LIMIT, REGISTERS};
ghost use Rattle.teco_regs.specs.Texts.{IsTextWithinLimit};
ghost use Rattle.teco_run.specs.Holdings.{Joined};
ghost use Rattle.teco_tools.specs.Starts.{IsBare, Prepares, case_command, with_settings};

use crate::fault::ToolFault;
use crate::machines::within_limit;
use teco_base::{LIMIT, REGISTERS, Reg};
use teco_console::{AnswerFault, Setting};
use teco_hosts::Host;
use teco_options::LetterCase;
use teco_run::{Machine, Stop};
use teco_text::TextStore;

// No texts.
fn no_texts<'a>() -> [Option<&'a [u8]>; REGISTERS]
    ensures none { result ≡ replicate REGISTERS None }
    ensures all { All IsTextWithinLimit result }
{
    [None; REGISTERS]
}

// A text more, for a register.
#[tactic(auto, using(crate::proofs::Settings::one_more))]
fn with_text<'a>(
    mut texts: [Option<&'a [u8]>; REGISTERS],
    register: Reg,
    text: &'a [u8],
) -> [Option<&'a [u8]>; REGISTERS]
    requires all { All IsTextWithinLimit texts }
    requires within { length text.now ≤ LIMIT }
    ensures given { result ≡ set texts.entry register (Some text.entry) }
    ensures all { All IsTextWithinLimit result }
{
    texts[register.index()] = Some(text);
    texts
}

// The command string that makes searches treat case so.
fn command_of(case: LetterCase) -> &'static [u8]
    ensures { result.now ≡ case_command case }
{
    match case {
        LetterCase::Exact => b"1^X",
        LetterCase::Any => b"0^X",
    }
}

/// What a machine has before a run.
#[derive(Clone, Copy)]
pub struct Start<'s> {
    /// The texts of registers.
    pub settings: &'s [Setting],
    /// How searches treat case until a command says otherwise; in any case where it is none.
    pub case: Option<LetterCase>,
}

impl Start<'_> {
    /// Nothing but what a new machine has.
    pub fn new() -> Start<'static> {
        Start {
            settings: &[],
            case: None,
        }
    }
}

// Gives registers their texts, one after another.
fn set_each<T: TextStore>(machine: &mut Machine<T>, settings: &[Setting]) -> Result<(), ToolFault>
    ensures { OnOk result (machine.new ≡ record machine.old {
      kept = with_settings settings.now machine.old.kept;
    }) }
{
    for given in settings {
        machine.load(with_text(no_texts(), given.register(), given.text()))?;
    }
    Ok(())
}

// Gives registers their texts, if there are any.
fn set_texts<T: TextStore>(machine: &mut Machine<T>, settings: &[Setting]) -> Result<(), ToolFault>
    ensures none { settings.now ≡ [] → machine.new ≡ machine.old }
    ensures given { OnOk result (machine.new ≡ record machine.old {
      kept = with_settings settings.now machine.old.kept;
    }) }
{
    match settings {
        [] => Ok(()),
        _ => set_each(machine, settings),
    }
}

/// Gives a new machine what it has before a run.
pub fn prepare<T: TextStore, H: Host>(
    machine: &mut Machine<T>,
    start: Start<'_>,
    host: &mut H,
) -> Result<(), ToolFault>
    ensures machine { IsBare start.entry → machine.new ≡ machine.old }
    ensures files { IsBare start.entry → H.files host.new ≡ H.files host.old }
    ensures failures { IsBare start.entry → H.failures host.new ≡ H.failures host.old }
    ensures prepares { OnOk result (Joined (Prepares start.entry)
        machine.old machine.new (H.files host.old) (H.files host.new)) }
{
    set_texts(machine, start.settings)?;
    let Some(case) = start.case else {
        return Ok(());
    };
    match machine.run(within_limit(command_of(case))?, u64::MAX, host) {
        Stop::Memory => Err(AnswerFault::Memory.into()),
        _ => Ok(()),
    }
}
