//! Search texts in the places of a library that are marked for them.
ghost use Rattle.std.specs.Prelude.{◌≡◌, IfOk};
ghost use Rattle.teco_console.specs.Searches as spec;

use crate::fault::AnswerFault;
use crate::setting::Setting;
use std::alloc::{AllocError, Global};
use teco_base::Reg;
use teco_base::bytes::ESC;
use teco_source::{EscapeForm, Source};

/// How many bytes of a mark stand behind its first.
const BEHIND: usize = 3;

// Does a text begin with the mark for the search text of a register?
fn begins_with_mark(register: Reg, text: &[u8]) -> bool
    ensures { result ≡ spec.begins_with_mark register text.now }
{
    match text {
        [b'^', b'E', b'Q', name, ..] => *name == register.name(),
        _ => false,
    }
}

// A text with the search text of a register in the place of each mark.
fn filling(alloc: Global, given: &Setting, text: &[u8]) -> Result<Vec<u8>, AllocError>
    ensures { IfOk result (λ filled. filled.items ≡ spec.filling given.now.register given.now.text 0 text.now) }
{
    let mut filled = Vec::new(alloc);
    let mut skipped = 0usize;
    let mut rest = text;
    while let Some((byte, behind)) = rest.split_first() {
        if skipped > 0 {
            skipped -= 1;
        } else if begins_with_mark(given.register(), rest) {
            filled.extend_from_slice(given.text())?;
            skipped = BEHIND;
        } else {
            filled.push(*byte)?;
        }
        rest = behind;
    }
    Ok(filled)
}

/// A text with the search text of each register in the place of its marks.
pub fn filled(alloc: Global, searches: &[Setting], text: &[u8]) -> Result<Vec<u8>, AllocError>
    ensures { IfOk result (λ filled. filled.items ≡ spec.filled searches.now text.now) }
{
    let mut filled = text.to_vec(alloc)?;
    for given in searches {
        filled = filling(alloc, given, &filled)?;
    }
    Ok(filled)
}

// The source of a text, under a name.
#[tactic(auto, using(crate::proofs::Unmarked::says_itself))]
fn source_of(alloc: Global, name: &str, text: Vec<u8>) -> Result<Source, AnswerFault>
    ensures { IfOk result (λ source. source ≡ text.items) }
{
    Ok(Source::new(alloc, name, text, EscapeForm::Marked(ESC))?)
}

/// A source with search texts in the places that are marked for them.
pub fn with_searches(
    alloc: Global,
    source: Source,
    searches: &[Setting],
) -> Result<Source, AnswerFault>
    ensures { IfOk result (λ text. text ≡ spec.filled searches.now source) }
{
    if searches.is_empty() {
        return Ok(source);
    }
    let text = filled(alloc, searches, source.text())?;
    source_of(alloc, source.name(), text)
}
