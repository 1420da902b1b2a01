//! Elements of flow whose partners stand in the texts of commands.
use crate::places::element_at;
use teco_model::Kind;
use teco_model::kind::Flow;

// The command that closes what an element begins, if it begins something.
fn closing(kind: &Kind) -> Option<u8> {
    match kind {
        Kind::Flow(Flow::Iterate) => Some(b'>'),
        Kind::Flow(Flow::Test(_) | Flow::Otherwise) => Some(b'\''),
        _ => None,
    }
}

// Does a text from a place on have this byte? What can't be read as an element is taken for such a
// text, since its end is missing.
fn is_in_text(text: &[u8], place: usize, byte: u8) -> bool {
    let mut at = place;
    for _ in 0..text.len() {
        let Some(found) = element_at(text, at) else {
            break;
        };
        if found.text.contains(&byte) || found.second.contains(&byte) {
            return true;
        }
        at = found.next;
    }
    text.get(at..).is_some_and(|rest| rest.contains(&byte))
}

/// Does what would close the element at a place stand in the text of a command behind it? It takes
/// time by the length of the text.
pub fn is_closed_in_text(text: &[u8], place: usize) -> bool {
    match element_at(text, place) {
        None => false,
        Some(found) => match closing(&found.kind) {
            None => false,
            Some(byte) => is_in_text(text, found.next, byte),
        },
    }
}
