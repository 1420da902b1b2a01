//! Where the texts of a library stand in its file.
use teco_base::Reg;
use teco_lex::element;
use teco_model::kind::{Command, Storage};
use teco_model::{Element, Kind};
use teco_source::{LineAndByte, Source};

/// The element at a place of a text, if one can be read there.
pub fn element_at(text: &[u8], place: usize) -> Option<Element<'_>> {
    if place > text.len() {
        return None;
    }
    match element(text, place) {
        Ok(Some(found)) => Some(found),
        _ => None,
    }
}

// A text that a library gives to a register.
#[derive(Clone, Copy)]
struct GivenText<'a> {
    register: Reg,
    text: &'a [u8],
    // where it begins
    begin: usize,
}

// The text that an element gives to a register, if it does.
fn text_given<'a>(found: &Element<'a>) -> Option<GivenText<'a>> {
    let text = found.text;
    let begin = found.next.saturating_sub(1).saturating_sub(text.len());
    match found.kind {
        Kind::Command(Command::Storage(Storage::SetText(register))) => Some(GivenText {
            register,
            text,
            begin,
        }),
        _ => None,
    }
}

// Is it this register?
fn is_same(one: Reg, other: Reg) -> bool {
    one.index() == other.index()
}

// The text that a library file gives to a register, if it does.
fn given_in(library: &[u8], register: Reg) -> Option<GivenText<'_>> {
    let mut at = 0;
    for _ in 0..library.len() {
        let Some(found) = element_at(library, at) else {
            return None;
        };
        match text_given(&found) {
            Some(given) if is_same(given.register, register) => return Some(given),
            _ => at = found.next,
        }
    }
    None
}

/// Where in a library file the text of a register begins, if the file gives it one. It takes time
/// by the length of the file.
pub fn text_begin_in(library: &[u8], register: Reg) -> Option<usize> {
    match given_in(library, register) {
        Some(given) => Some(given.begin),
        None => None,
    }
}

/// The text of a register in a library file, if the file gives it one. It takes time by the length
/// of the file.
pub fn text_in(library: &[u8], register: Reg) -> Option<&[u8]> {
    match given_in(library, register) {
        Some(given) => Some(given.text),
        None => None,
    }
}

/// The place in the text of a library file that a place in the text of a register is, if the file
/// says it; the same where no register is named.
pub fn place_in(library: &[u8], register: Option<Reg>, place: usize) -> Option<usize> {
    match register {
        None => Some(place),
        Some(register) => {
            let begin = text_begin_in(library, register)?;
            Some(begin.saturating_add(place))
        }
    }
}

/// The position in a library file of a place in the text of a register, if the file says it; of a
/// place in the file's own text where no register is named.
pub fn position_in(source: &Source, register: Option<Reg>, place: usize) -> Option<LineAndByte> {
    Some(source.position(place_in(source.text(), register, place)?))
}
