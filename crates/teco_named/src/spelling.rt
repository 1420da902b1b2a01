//! Parameters as they are told.
use std::alloc::{AllocError, Global};
use std::fmt;
use teco_parameters::Parameter;

/// A text as comments of macros spell it, with no byte but those of printable ASCII.
#[derive(Clone, Copy)]
pub struct Spelled<'a>(pub &'a [u8]);

// Writes a byte as comments spell it.
fn write_byte<W: fmt::Write>(f: &mut fmt::Formatter<W>, byte: u8) -> fmt::Result {
    match byte {
        b'\\' => f.write_str("\\\\"),
        b'\n' => f.write_str("\\n"),
        b'\r' => f.write_str("\\r"),
        b'\t' => f.write_str("\\t"),
        b'!'..=b'~' => write!(f, "{}", char::from(byte)),
        _ => write!(f, "\\x{byte:02x}"),
    }
}

impl fmt::Display for Spelled<'_> {
    fn fmt<W: fmt::Write>(&self, f: &mut fmt::Formatter<W>) -> fmt::Result {
        for byte in self.0 {
            write_byte(f, *byte)?;
        }
        Ok(())
    }
}

/// A parameter as lists have it: its name, and behind an equals sign the text that it has by default.
#[derive(Clone, Copy)]
pub struct Declared<'a>(pub &'a Parameter);

impl fmt::Display for Declared<'_> {
    fn fmt<W: fmt::Write>(&self, f: &mut fmt::Formatter<W>) -> fmt::Result {
        let name = Spelled(&self.0.name);
        match &self.0.default {
            Some(text) => write!(f, "{name}={}", Spelled(text)),
            None => write!(f, "{name}"),
        }
    }
}

// What stands before a parameter in a list of so many.
fn separator(at: usize, count: usize) -> &'static str {
    if at == 0 {
        ""
    } else if at.saturating_add(1) == count {
        " and "
    } else {
        ", "
    }
}

/// What a macro takes, as messages have it.
pub fn all_declared(alloc: Global, parameters: &[Parameter]) -> Result<String, AllocError> {
    if parameters.is_empty() {
        return String::from_str(alloc, "no texts");
    }
    let mut all = String::new(alloc);
    for (at, parameter) in parameters.iter().enumerate() {
        all.push_str(separator(at, parameters.len()))?;
        let declared = format!(in alloc; "{}", Declared(parameter))?;
        all.push_str(&declared)?;
    }
    Ok(all)
}
