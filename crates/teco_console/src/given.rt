//! Texts for registers, without the command that gives them these.
ghost use Rattle.std.specs.Prelude.{◌≡◌, ◌++◌, List, ℕ, IfOk, IfSome};
ghost use Rattle.std.specs.List.{Contains};
ghost use Rattle.teco_console.specs.Sources.{IsGivenBehind};

use crate::fault::AnswerFault;
use std::alloc::Global;
use teco_base::Reg;
use teco_base::bytes::ESC;
use teco_source::{Addition, EscapeForm, Source};

/// The control byte of `^U`.
const CONTROL_U: u8 = 0x15;

// A byte to end a text by that is none of those that say it; none where they are all.
fn delimiter_for(bytes: &[u8]) -> Option<u8>
    ensures { IfSome result (λ byte. ¬ Contains bytes.now byte) }
{
    (1..=u8::MAX).find(|byte| *byte != ESC && !bytes.contains(byte))
}

/// A text that bytes say, for a register.
#[derive(Drop)]
pub struct GivenText<'a> {
    pub register: Reg,
    /// What messages call it by.
    pub name: &'a str,
    pub bytes: Vec<u8>,
    pub form: EscapeForm,
}

/// A source with a text more for a register, behind all that it says.
pub fn with_text(alloc: Global, source: Source, given: GivenText<'_>) -> Result<Source, AnswerFault>
    ensures { IfOk result (λ text.
        IsGivenBehind source given.entry.register given.entry.form given.entry.bytes.items text) }
{
    let Some(delimiter) = delimiter_for(&given.bytes) else {
        return Err(AnswerFault::NoDelimiter);
    };
    let added = Addition {
        name: given.name,
        bytes: given.bytes,
        form: given.form,
        front: &[b'@', CONTROL_U, given.register.name(), delimiter],
        end: &[delimiter],
    };
    Ok(source.with(alloc, added)?)
}
