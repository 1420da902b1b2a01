//! What is wrong at a place of a library or a text.
use teco_base::Code;
use teco_find::{FindFault, minimum};
use teco_lex::element;
use teco_model::Kind;
use teco_model::kind::{Command, Storage};

/// What keeps a file from being a library, where the element at a place is the first that may not
/// stand there.
pub fn flaw_of_library(library: &[u8], place: usize) -> &'static str {
    if place > library.len() {
        return "it ends too early";
    }
    match element(library, place) {
        Err(Code::Utc) => "a text that begins here isn't closed",
        Err(_) => "no command begins here; a macro's text goes into a register, as in @^UA~..~",
        Ok(None) => "it ends too early",
        Ok(Some(found)) => flaw_of(&found.kind, found.colons, place),
    }
}

// What is wrong with an element of a library.
fn flaw_of(kind: &Kind, colons: u8, place: usize) -> &'static str {
    match kind {
        Kind::Command(Command::Storage(Storage::SetText(_))) if colons > 0 => {
            "a library gives texts to registers by ^U, and doesn't append with :^U"
        }
        Kind::Command(Command::Storage(Storage::SetText(_))) => {
            "this register has a text already; a library gives each register one"
        }
        Kind::Flow(_) if place == 0 => {
            "the first comment begins TECO-LIB and is no header; a header is !TECO-LIB 2 q low high!"
        }
        _ => "a command stands outside the macros; put it into a register, as in @^UA~..~",
    }
}

/// The code that a run would stop with at a place of a text, if reading alone shows that: no
/// command, or a search text that can't be read.
pub fn code_at(text: &[u8], place: usize) -> Option<Code> {
    if place > text.len() {
        return None;
    }
    match element(text, place) {
        Err(Code::Utc) => Some(Code::Utm),
        Err(code) => Some(code),
        Ok(Some(found)) => code_of_search(&found.kind, found.text),
        Ok(None) => None,
    }
}

// The code of a search whose text can't be read.
fn code_of_search(kind: &Kind, text: &[u8]) -> Option<Code> {
    match kind {
        Kind::Search(_) => match minimum(text) {
            Err(FindFault::Ice) => Some(Code::Ice),
            Err(FindFault::Iqn) => Some(Code::Iqn),
            _ => None,
        },
        _ => None,
    }
}
