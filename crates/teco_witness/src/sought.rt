//! What the macros of a library look for, test and read.
use crate::instances::instance_of;
use crate::trial::opens_files;
use crate::witness::Subject;
use std::alloc::{AllocError, Global};
use teco_base::bytes::FF;
use teco_base::{REGISTERS, Reg};
use teco_lex::{Element, Reading, Readings};
use teco_model::Kind;
use teco_model::kind::{Argument, Command, Flow, Query, Storage, Test};

/// How many texts of searches and insertions are kept at most, and how long these are.
const MOST: usize = 12;

const LONGEST: usize = 30;

/// How a register is used, as far as the text says.
#[derive(Clone, Copy)]
pub struct Use {
    /// Is its number read before it is set?
    pub reads_number: bool,
    /// Is its text read before it is set?
    pub reads_text: bool,
    sets_number: bool,
    sets_text: bool,
}

// A register of which nothing is said.
const UNUSED: Use = Use {
    reads_number: false,
    reads_text: false,
    sets_number: false,
    sets_text: false,
};

/// What the macros of a library look for, test and read.
#[derive(Drop)]
pub struct Sought {
    /// A character of each class that is tested, and each that a number in the text stands for.
    pub characters: Vec<u8>,
    /// Texts that searches match, and texts that are put in.
    pub texts: Vec<Vec<u8>>,
    /// Is a number read from the text?
    pub has_numbers: bool,
    /// The registers, by their places.
    pub uses: [Use; REGISTERS],
}

// A character that a test is true of.
fn character_of(test: Test) -> Option<u8> {
    match test {
        Test::Letter | Test::Lower => Some(b'a'),
        Test::Digit | Test::LetterOrDigit => Some(b'1'),
        Test::Upper => Some(b'A'),
        Test::Symbol => Some(b'.'),
        _ => None,
    }
}

// The number that digits say, up to the greatest of a byte.
fn byte_of(digits: &[u8]) -> Option<u8> {
    let mut number = 0u8;
    for digit in digits {
        let value = digit.checked_sub(b'0')?;
        number = number.checked_mul(10)?.checked_add(value)?;
    }
    Some(number)
}

impl Sought {
    // Nothing yet, but a letter and a line end.
    fn new(alloc: Global) -> Result<Sought, AllocError> {
        let mut characters = Vec::new(alloc);
        characters.extend_from_slice(b"a\n")?;
        Ok(Sought {
            characters,
            texts: Vec::new(alloc),
            has_numbers: false,
            uses: [UNUSED; REGISTERS],
        })
    }

    // A character more.
    fn take_character(&mut self, character: Option<u8>) -> Result<(), AllocError> {
        match character {
            Some(byte) if !self.characters.iter().any(|c| *c == byte) => {
                self.characters.push(byte)?;
                Ok(())
            }
            _ => Ok(()),
        }
    }

    // A text more, if it is short, while there are few.
    fn take_text(&mut self, text: Vec<u8>) -> Result<(), AllocError> {
        let is_known = self.texts.iter().any(|t| t.as_slice() == text.as_slice());
        let is_short = !text.is_empty() && text.len() <= LONGEST;
        if is_short && !is_known && self.texts.len() < MOST {
            self.texts.push(text)?;
        }
        Ok(())
    }

    // The use of a register.
    fn use_of(&mut self, register: Reg) -> &mut Use {
        &mut self.uses[register.index()]
    }

    fn read_number(&mut self, register: Reg) {
        let used = self.use_of(register);
        used.reads_number |= !used.sets_number;
    }

    fn read_text(&mut self, register: Reg) {
        let used = self.use_of(register);
        used.reads_text |= !used.sets_text;
    }

    // What a query says.
    fn take_query(&mut self, query: Query) {
        match query {
            Query::Number(register) => self.read_number(register),
            Query::Conversion => self.has_numbers = true,
            Query::Mode => {}
        }
    }

    // What is done with a register.
    fn take_storage(&mut self, storage: Storage) {
        match storage {
            Storage::SetNumber(register) => self.use_of(register).sets_number = true,
            Storage::Add(register) => self.read_number(register),
            Storage::Copy(register) | Storage::SetText(register) => {
                self.use_of(register).sets_text = true;
            }
            Storage::Get(register) => self.read_text(register),
        }
    }

    // What a command says.
    fn take_command(
        &mut self,
        alloc: Global,
        found: &Element<'_>,
        command: Command,
    ) -> Result<(), AllocError> {
        match command {
            Command::Storage(storage) => {
                self.take_storage(storage);
                Ok(())
            }
            Command::Insertion(_) => self.take_text(found.text.to_vec(alloc)?),
            _ => Ok(()),
        }
    }

    // What an element says.
    fn take_element(&mut self, alloc: Global, found: &Element<'_>) -> Result<(), AllocError> {
        match found.kind {
            Kind::Argument(Argument::Digits) => self.take_character(byte_of(found.text)),
            Kind::Flow(Flow::Test(test)) => self.take_character(character_of(test)),
            Kind::Search(_) => self.take_text(instance_of(alloc, found.text)?),
            Kind::Command(command) => self.take_command(alloc, found, command),
            Kind::Query(query) => {
                self.take_query(query);
                Ok(())
            }
            _ => Ok(()),
        }
    }

    // What a macro says.
    fn take(&mut self, alloc: Global, text: &[u8]) -> Result<(), AllocError> {
        let mut ahead = Readings::from(text, 0);
        while let Some(reading) = ahead.next() {
            if let Reading::Whole(element) = reading {
                self.take_element(alloc, &element)?;
            }
        }
        Ok(())
    }

    /// Is a register read before it is set?
    pub fn reads_registers(&self) -> bool {
        self.uses.iter().any(|u| u.reads_number || u.reads_text)
    }

    /// What the macros of a library say, the one that is called before the others.
    pub fn of(alloc: Global, subject: &Subject<'_>) -> Result<Sought, AllocError> {
        let mut sought = Sought::new(alloc)?;
        if opens_files(subject) {
            sought.take_character(Some(FF))?;
        }
        sought.take(alloc, subject.library.text(subject.entry).unwrap_or(&[]))?;
        for text in subject.library.texts() {
            sought.take(alloc, text.unwrap_or(&[]))?;
        }
        Ok(sought)
    }
}
