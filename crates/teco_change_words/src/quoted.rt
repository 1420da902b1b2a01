//! Texts in a line of words.
use std::fmt;
use std::fmt::Write;
use teco_base::bytes::is_letter_or_digit;
use teco_source::Shown;

/// Words that say something else where they stand without quotes.
const TAKEN: &[&[u8]] = &[
    b"a", b"any", b"what", b"nothing", b"digits", b"letters", b"blanks",
];

// A text in quotes, double ones unless it has such itself, and cut where it is long. A word of
// letters and digits that is bare stands without them.
#[derive(Clone, Copy)]
pub(crate) struct Quoted<'a> {
    pub(crate) text: &'a [u8],
    pub(crate) most: usize,
    pub(crate) is_bare: bool,
}

// Is a byte a later one of a character in UTF-8?
fn continues(byte: u8) -> bool {
    (0x80..0xc0).contains(&byte)
}

// The front of a text, of so many bytes at most, in which no character is cut.
fn front_of(text: &[u8], most: usize) -> &[u8] {
    if text.len() <= most {
        return text;
    }
    let front = &text[..most];
    if !continues(text[most]) {
        return front;
    }
    match front.iter().rposition(|byte| !continues(*byte)) {
        Some(at) if at <= front.len() => &front[..at],
        _ => front,
    }
}

// Is a text a word that needs no quotes?
fn is_word(text: &[u8]) -> bool {
    !text.is_empty()
        && text
            .iter()
            .all(|byte| is_letter_or_digit(*byte) || *byte == b'_')
        && !TAKEN.iter().any(|word| *word == text)
}

impl fmt::Display for Quoted<'_> {
    fn fmt<W: fmt::Write>(&self, f: &mut fmt::Formatter<W>) -> fmt::Result {
        let front = front_of(self.text, self.most);
        let is_whole = front.len() == self.text.len();
        if is_whole && self.is_bare && is_word(front) {
            return write!(f, "{}", Shown(front));
        }
        let quote = if front.contains(&b'"') { '\'' } else { '"' };
        let more = if is_whole { "" } else { ".." };
        write!(f, "{quote}{}{more}{quote}", Shown(front))
    }
}
