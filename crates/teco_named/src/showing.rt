//! Macros as they are written.
use crate::called::CalledMacro;
use crate::fault::NamedFault;
use std::fs::Files;
use std::io::{Input, Write};
use teco_console::{Console, Outcome, read_file};
use teco_source::Shown;

/// Prints the file of a macro as it is written, safe for a terminal.
pub fn show_macro<R: Files + Input, O: Write + Drop, E: Write + Drop>(
    rt: &R,
    console: &mut Console<O, E>,
    called: &CalledMacro,
) -> Result<Outcome, NamedFault> {
    let bytes = read_file(rt, console.alloc, called.path())?;
    let text = bytes.strip_suffix(b"\n").unwrap_or(&bytes);
    for line in text.split(|byte| *byte == b'\n') {
        let line = Shown(line);
        console.answer(format_args!("{line}\n"))?;
    }
    Ok(Outcome::Done)
}
