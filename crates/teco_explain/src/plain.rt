//! Macros that stand alone, without the command that gives them to a register.
use teco_lex::element;
use teco_model::Kind;
use teco_model::kind::{Argument, Command, Flow, Storage};

/// The control byte of `^U`.
const CONTROL_U: u8 = 0x15;

// May it stand between the texts of a library?
fn is_between(kind: &Kind) -> bool {
    matches!(
        kind,
        Kind::Flow(Flow::Comment) | Kind::Argument(Argument::DropAll)
    )
}

// Does a text begin like a command that gives a register a text?
fn begins_with_text(text: &[u8]) -> bool {
    let behind = text.strip_prefix(b"@").unwrap_or(text);
    match behind {
        [byte, ..] if *byte == CONTROL_U => true,
        [b'^', letter, ..] => letter.eq_ignore_ascii_case(&b'u'),
        _ => false,
    }
}

// Does an element give a register a text?
fn gives_text(kind: &Kind) -> bool {
    matches!(kind, Kind::Command(Command::Storage(Storage::SetText(_))))
}

// Is what stands at a place of a text no part of a library? Nothing is said of a comment, of ESC and
// of the end.
fn is_foreign(text: &[u8], at: usize) -> Foreign {
    let Some(behind) = text.get(at..) else {
        return Foreign::No;
    };
    match element(text, at) {
        Ok(None) => Foreign::No,
        Ok(Some(found)) if is_between(&found.kind) => Foreign::Unknown { next: found.next },
        Ok(Some(found)) if gives_text(&found.kind) => Foreign::No,
        Ok(Some(_)) => Foreign::Yes,
        Err(_) if begins_with_text(behind.trim_ascii_start()) => Foreign::No,
        Err(_) => Foreign::Yes,
    }
}

// Is something no part of a library? Where that is open, something else comes behind it.
#[derive(Clone, Copy)]
enum Foreign {
    Yes,
    No,
    Unknown { next: usize },
}

/// Is a text one macro, and no library? Behind comments and ESC it then has another command than one
/// that gives a register a text.
pub fn is_plain(text: &[u8]) -> bool {
    let mut at = 0;
    for _ in 0..text.len() {
        match is_foreign(text, at) {
            Foreign::Yes => return true,
            Foreign::No => return false,
            Foreign::Unknown { next } => at = next,
        }
    }
    false
}
