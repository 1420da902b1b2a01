//! The names of codes and elements.
use std::str;
use teco_base::Code;
use teco_lex::element;

/// The letters of a code.
pub fn letters(code: Code) -> &'static str {
    str::from_utf8(code.name().as_slice()).unwrap_or("")
}

/// The part of a text that the element at a place takes.
pub fn element_at(text: &[u8], place: usize) -> &[u8] {
    if place > text.len() {
        return &[];
    }
    let behind = match element(text, place) {
        Ok(Some(found)) => found.next,
        _ => text.len().min(place.saturating_add(1)),
    };
    text.get(..behind)
        .unwrap_or(text)
        .get(place..)
        .unwrap_or(&[])
}
