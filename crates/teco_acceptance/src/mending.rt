//! Changes by which a refused macro would be accepted.
use std::alloc::{AllocError, Global};
use teco_base::{LIMIT, Reg};
use teco_claimed::verify_quickly;
use teco_explain::place_in;
use teco_library::Library;
use teco_paths::search::{ClaimSearch, Effort};
use teco_source::Source;

/// What may be put in before an element.
#[derive(Clone, Copy)]
pub enum Mend {
    /// A colon: it then answers, and does not stop.
    Colon,
    /// A test that leaves the iteration at the end of the text.
    Test,
}

impl Mend {
    fn words(self) -> &'static [u8] {
        match self {
            Mend::Colon => b":",
            Mend::Test => b".-Z;",
        }
    }
}

/// A change: what is put in at a place of a register's text.
#[derive(Clone, Copy)]
pub struct MacroChange {
    pub register: Reg,
    pub place: usize,
    pub mend: Mend,
}

// A text with words more at a place.
fn text_with(
    alloc: Global,
    text: &[u8],
    place: usize,
    words: &[u8],
) -> Result<Vec<u8>, AllocError> {
    let mut changed = Vec::new(alloc);
    changed.extend_from_slice(text.get(..place).unwrap_or(text))?;
    changed.extend_from_slice(words)?;
    changed.extend_from_slice(text.get(place..).unwrap_or(&[]))?;
    Ok(changed)
}

// The text of a library with a change; none where the change has no place in it, or memory is refused.
fn changed_text(alloc: Global, source: &Source, change: MacroChange) -> Option<Vec<u8>> {
    let place = place_in(source.text(), Some(change.register), change.place)?;
    text_with(alloc, source.text(), place, change.mend.words()).ok()
}

/// Is a macro of a source accepted with a change, by claims that the quickest way finds?
pub fn is_mended<S: ClaimSearch>(
    alloc: Global,
    source: &Source,
    entry: Reg,
    change: MacroChange,
) -> bool {
    let Some(text) = changed_text(alloc, source, change) else {
        return false;
    };
    if text.len() > LIMIT {
        return false;
    }
    match Library::read(alloc, &text) {
        Ok(library) => verify_quickly::<S>(&library, entry, Effort::usual(), alloc).is_ok(),
        Err(_) => false,
    }
}
