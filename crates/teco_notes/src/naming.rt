//! Search texts that name registers, with the texts of these in their places.
use std::alloc::{AllocError, Global};
use teco_base::Reg;
use teco_console::Setting;
use teco_parameters::quoted;

/// The text that registers have, where it is known.
#[derive(Clone, Copy)]
pub enum KnownTexts<'a> {
    /// These; a register that has none is left as it stands.
    Settings(&'a [Setting]),
    /// Any: one of a letter stands for each, to see whether what is left can be read.
    Any,
}

/// What stands for a text that is not known.
const ANY: &[u8] = b"x";

impl<'a> KnownTexts<'a> {
    // The text of a register: the last that it is given.
    fn text_of(self, register: Reg) -> Option<&'a [u8]> {
        match self {
            KnownTexts::Any => Some(ANY),
            KnownTexts::Settings(settings) => {
                let setting = settings
                    .iter()
                    .rev()
                    .find(|setting| setting.register().index() == register.index())?;
                Some(setting.text())
            }
        }
    }
}

// What stands behind a control character, which is written as itself or as a caret and its letter.
fn behind_control(text: &[u8], letter: u8) -> Option<&[u8]> {
    match text {
        [b'^', written, behind @ ..] if written.eq_ignore_ascii_case(&letter) => Some(behind),
        [byte, behind @ ..] if *byte == letter.saturating_sub(b'@') => Some(behind),
        _ => None,
    }
}

// The register that a search text begins with as `^EQQ`, and what stands behind that.
fn register_in(text: &[u8]) -> Option<(Reg, &[u8])> {
    match behind_control(text, b'E')? {
        [b'Q' | b'q', name, behind @ ..] => Some((Reg::of(*name)?, behind)),
        _ => None,
    }
}

// How many bytes at the front stand for themselves, or are a control and what it is about.
fn front_len(text: &[u8]) -> usize {
    let behind = match behind_control(text, b'Q') {
        Some(quoted) => quoted.get(1..).unwrap_or(&[]),
        None => text.get(1..).unwrap_or(&[]),
    };
    text.len().saturating_sub(behind.len())
}

// Appends what a search text begins with, and answers what is left of it.
fn push_front<'t>(
    alloc: Global,
    named: &mut Vec<u8>,
    text: &'t [u8],
    known: KnownTexts<'_>,
) -> Result<&'t [u8], AllocError> {
    if let Some((register, behind)) = register_in(text)
        && let Some(found) = known.text_of(register)
    {
        let search = quoted(alloc, found)?;
        named.extend_from_slice(&search)?;
        return Ok(behind);
    }
    let (front, behind) = text.split_at(front_len(text).min(text.len()));
    named.extend_from_slice(front)?;
    Ok(behind)
}

/// A search text with the texts of registers in the places of these, so that each of their bytes
/// stands for itself.
pub fn with_texts(
    alloc: Global,
    text: &[u8],
    known: KnownTexts<'_>,
) -> Result<Vec<u8>, AllocError> {
    let mut named = Vec::new(alloc);
    let mut rest = text;
    for _ in 0..text.len() {
        if rest.is_empty() {
            break;
        }
        rest = push_front(alloc, &mut named, rest, known)?;
    }
    Ok(named)
}
