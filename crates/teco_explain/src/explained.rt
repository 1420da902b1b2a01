//! Refusals with their sources, for people.
use crate::codes::note_of_code;
use crate::faults::{code_at, flaw_of_library};
use crate::hints::{hint, hint_by_table};
use crate::places::{place_in, text_in};
use crate::refusals::{note_of_refusal, number_of};
use std::{fmt, str};
use teco_base::{Code, Reg};
use teco_source::{Shown, Source};
use teco_verifier::RefusalReason;

/// Why a library, or a macro of it, is refused, where in its source, and what usually mends it.
#[derive(Clone, Copy)]
pub struct Explained<'a> {
    /// The library file.
    pub source: &'a Source,
    pub why: RefusalReason,
    /// The register in whose text the place is; none where it is one of the file's.
    pub register: Option<Reg>,
    pub place: usize,
    /// Was it refused for the table of what is known before each element? Some hints are on that.
    pub is_by_table: bool,
}

// The three letters of a code.
fn letters(code: Code) -> &'static str {
    str::from_utf8(code.name().as_slice()).unwrap_or("")
}

impl Explained<'_> {
    // The place in the text that the file says.
    fn place_in_file(&self) -> Option<usize> {
        place_in(self.source.text(), self.register, self.place)
    }

    // The text that the place is in.
    fn text(&self) -> &[u8] {
        let text = self.source.text();
        match self.register {
            None => text,
            Some(register) => match text_in(text, register) {
                Some(given) => given,
                None => &[],
            },
        }
    }

    // What usually mends it.
    fn remedy(&self) -> &'static str {
        let by_table = if self.is_by_table {
            hint_by_table(self.why, self.text(), self.place)
        } else {
            None
        };
        let hint = match by_table {
            None => hint(self.why, self.text(), self.place),
            Some(_) => by_table,
        };
        hint.unwrap_or(note_of_refusal(self.why).remedy)
    }

    // What is wrong beside the reason, where that can be told.
    fn detail<W: fmt::Write>(&self, f: &mut fmt::Formatter<W>) -> fmt::Result {
        match self.why {
            RefusalReason::Library => {
                writeln!(f, "  {}", flaw_of_library(self.source.text(), self.place))
            }
            RefusalReason::Fault => match code_at(self.text(), self.place) {
                None => Ok(()),
                Some(code) => writeln!(f, "  ?{}: {}", letters(code), note_of_code(code).summary),
            },
            _ => Ok(()),
        }
    }
}

impl fmt::Display for Explained<'_> {
    fn fmt<W: fmt::Write>(&self, f: &mut fmt::Formatter<W>) -> fmt::Result {
        let number = number_of(self.why);
        let note = note_of_refusal(self.why);
        let Some(place) = self.place_in_file() else {
            let name = Shown(self.source.name().as_bytes());
            return write!(f, "{name}: refused X{number}: {}", note.summary);
        };
        let name = Shown(self.source.name_at(place).as_bytes());
        let position = self.source.position(place);
        writeln!(
            f,
            "{name}:{}:{}: refused X{number}: {}",
            position.line, position.column, note.summary
        )?;
        writeln!(f, "{}", self.source.excerpt(place))?;
        self.detail(f)?;
        write!(f, "  {}", self.remedy())
    }
}
