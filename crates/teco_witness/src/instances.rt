//! Texts that search texts match.
use std::alloc::{AllocError, Global};
use teco_base::bytes::{control, is_letter, to_upper};

// The control bytes that stand for more than themselves in a search text.
const ANY: u8 = 24;

const SEPARATOR: u8 = 19;

const QUOTED: u8 = 17;

const EXTENDED: u8 = 5;

const NEGATED: u8 = 14;

// What stands for a character of which nothing is asked, or that is to be a letter.
const LETTER: u8 = b'a';

// A reader of a search text, behind which it reads zeros.
#[derive(Drop)]
struct SearchReader<'a> {
    text: &'a [u8],
    place: usize,
}

impl SearchReader<'_> {
    fn is_at_end(&self) -> bool {
        self.place >= self.text.len()
    }

    // The byte as it stands.
    fn byte(&mut self) -> u8 {
        let byte = self.text.get(self.place).copied().unwrap_or(0);
        self.place = self.place.saturating_add(1);
        byte
    }

    // A byte; a caret and a byte are a control byte.
    fn sign(&mut self) -> u8 {
        let byte = self.byte();
        if byte != b'^' {
            return byte;
        }
        control(self.byte()).unwrap_or(byte)
    }

    // A byte of the class that a letter names.
    fn lettered(&mut self) -> u8 {
        match to_upper(self.byte()) {
            b'D' => b'1',
            b'L' => b'\n',
            b'S' => b' ',
            b'W' => b'A',
            b'Q' => self.of_register(),
            _ => LETTER,
        }
    }

    // A byte in the place of the text of a register.
    fn of_register(&mut self) -> u8 {
        self.byte();
        LETTER
    }

    // A byte that a sign matches which was read.
    fn matched_by(&mut self, sign: u8) -> u8 {
        match sign {
            ANY => LETTER,
            SEPARATOR => b' ',
            QUOTED => self.byte(),
            EXTENDED => self.lettered(),
            byte => byte,
        }
    }

    // A byte that what comes next matches.
    fn next(&mut self) -> u8 {
        let sign = self.sign();
        if sign != NEGATED {
            return self.matched_by(sign);
        }
        let negated = self.sign();
        if is_letter(self.matched_by(negated)) {
            b'1'
        } else {
            LETTER
        }
    }
}

/// A text that a search text matches, if it is one.
pub fn instance_of(alloc: Global, text: &[u8]) -> Result<Vec<u8>, AllocError> {
    let mut instance = Vec::new(alloc);
    let mut reader = SearchReader { text, place: 0 };
    for _ in 0..text.len() {
        if reader.is_at_end() {
            break;
        }
        instance.push(reader.next())?;
    }
    Ok(instance)
}
