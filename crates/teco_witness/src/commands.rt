//! The command strings by which a macro is tried.
ghost use Rattle.std.specs.Prelude.{◌≡◌, ◌++◌, ◌↔◌, IfOk, IsTrue, OnOk, flat_map};
ghost use Rattle.teco_witness.specs.Witness as small;
ghost use Rattle.teco_witness.specs.Witness.{IsTaken, setting_text, text_setting};

use crate::witness::{Setting, SmallWorld};
use std::alloc::{AllocError, Global};
use teco_base::bytes::ESC;
use teco_base::{Reg, decimal};
use teco_model::ArgumentRange;

/// What sets the text of a register, before its name.
const SET_TEXT: u8 = 21;

/// What opens the input and an output, and reads the first page.
const OPENING: &[u8] = b"ERin\x1bEWout\x1bY";

/// Is a macro called with this argument, or with none?
pub fn takes(argument: Option<ArgumentRange>, given: Option<i32>) -> bool
    ensures { IsTrue result ↔ IsTaken argument given }
{
    match (argument, given) {
        (None, None) => true,
        (Some(range), Some(n)) => range.low() as i32 <= n && n <= range.high() as i32,
        _ => false,
    }
}

// Adds what sets the text of a register, unless that is empty.
fn push_text(commands: &mut Vec<u8>, register: Reg, text: &[u8]) -> Result<(), AllocError>
    ensures { OnOk result (commands.new.items
        ≡ commands.old.items ++ text_setting register text.now) }
{
    if text.is_empty() {
        return Ok(());
    }
    commands.extend_from_slice(&[SET_TEXT, register.name()])?;
    commands.extend_from_slice(text)?;
    commands.push(ESC)?;
    Ok(())
}

// Adds what sets a register.
fn push_setting(commands: &mut Vec<u8>, setting: &Setting) -> Result<(), AllocError>
    ensures { OnOk result (commands.new.items
        ≡ commands.old.items ++ setting_text setting.now) }
{
    commands.extend_from_slice(decimal(setting.number).as_bytes())?;
    commands.extend_from_slice(&[b'U', setting.register.name()])?;
    push_text(commands, setting.register, &setting.text)
}

// Adds what sets registers.
fn push_settings(commands: &mut Vec<u8>, settings: &[Setting]) -> Result<(), AllocError>
    ensures { OnOk result (commands.new.items
        ≡ commands.old.items ++ flat_map setting_text settings.now) }
{
    for setting in settings {
        push_setting(commands, setting)?;
    }
    Ok(())
}

/// The command string that makes a small world ready.
pub fn preparation(alloc: Global, world: &SmallWorld) -> Result<Vec<u8>, AllocError>
    ensures { IfOk result (λ commands. commands.items ≡ small.preparation world.now) }
{
    let mut commands = Vec::new(alloc);
    if world.is_input {
        commands.extend_from_slice(OPENING)?;
    }
    push_settings(&mut commands, &world.settings)?;
    Ok(commands)
}

/// The command string that calls a macro.
pub fn call_text(alloc: Global, entry: Reg, given: Option<i32>) -> Result<Vec<u8>, AllocError>
    ensures { IfOk result (λ commands. commands.items ≡ small.call_text entry given) }
{
    let mut commands = Vec::new(alloc);
    if let Some(n) = given {
        commands.extend_from_slice(decimal(n).as_bytes())?;
    }
    commands.push(b'M')?;
    commands.push(entry.name())?;
    Ok(commands)
}
