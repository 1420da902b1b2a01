//! Files of cases: a line that names their kind, and cases, each with its fields.
use crate::fault::{CaseFault, Mistake};
use crate::phrase::Phrase;
use crate::spelling::{FileLine, LineEnding};
use std::alloc::{AllocError, Global};
use std::str;

/// What the cases of a file are about.
#[derive(Clone, Copy)]
pub enum CaseKind {
    /// Command strings: what they type, and the files that they leave.
    Sessions,
    /// Macros: what `teco verify` prints.
    Verdicts,
    /// Certificates: what `teco check` prints.
    Certificates,
    /// Files that verified macros edit.
    Edits,
    /// Macros: by which edition they are accepted, what they promise and what they make of a file.
    Macros,
    /// Files of cases: how they are read.
    Formats,
    /// Linear programs: their least values.
    Programs,
    /// Linear forms: what follows from inequalities between them.
    Implications,
    /// Texts of claims: how they are read.
    Claims,
    /// Command strings: what may come of their last element, by forms.
    Outcomes,
    /// Macros with claims at cut points: whether these hang together.
    Paths,
}

/// The kinds, by their names.
const KINDS: &[(&str, CaseKind)] = &[
    ("sessions", CaseKind::Sessions),
    ("verdicts", CaseKind::Verdicts),
    ("certificates", CaseKind::Certificates),
    ("edits", CaseKind::Edits),
    ("macros", CaseKind::Macros),
    ("formats", CaseKind::Formats),
    ("programs", CaseKind::Programs),
    ("implications", CaseKind::Implications),
    ("claims", CaseKind::Claims),
    ("outcomes", CaseKind::Outcomes),
    ("paths", CaseKind::Paths),
];

impl CaseKind {
    // The kind of a name.
    fn of(name: &str) -> Option<CaseKind> {
        for (word, kind) in KINDS {
            if *word == name {
                return Some(*kind);
            }
        }
        None
    }
}

/// A text with the name of its file.
#[derive(Clone, Copy)]
pub struct NamedText<'a> {
    pub name: &'a [u8],
    pub text: &'a [u8],
}

/// The keys that the cases of a kind may have.
#[derive(Clone, Copy)]
pub struct CaseKeys {
    /// Those with a text.
    pub plain: &'static [&'static str],
    /// Those with a name and a text.
    pub named: &'static [&'static str],
    /// Those with a name alone.
    pub bare: &'static [&'static str],
}

impl CaseKeys {
    /// Keys with texts alone.
    pub fn of_texts(keys: &'static [&'static str]) -> CaseKeys {
        CaseKeys {
            plain: keys,
            named: &[],
            bare: &[],
        }
    }
}

// A text of a case, under its key, with the name that stands behind the key.
#[derive(Drop)]
struct Field<'a> {
    line: FileLine<'a>,
    key: &'a str,
    name: Vec<u8>,
    text: Vec<u8>,
    has_text: bool,
}

impl Field<'_> {
    // Is this its key and its name?
    fn is(&self, key: &str, name: &[u8]) -> bool {
        self.key == key && self.name.as_slice() == name
    }

    // Is its key one of these?
    fn has_key(&self, keys: &[&str]) -> bool {
        for key in keys {
            if self.key == *key {
                return true;
            }
        }
        false
    }

    // Takes a line of its text, behind so many empty ones.
    fn take(&mut self, line: FileLine<'_>, empty_lines: usize) -> Result<(), CaseFault> {
        let line_end = line_end_of(self.key);
        for _ in 0..empty_lines {
            self.text.extend_from_slice(line_end)?;
        }
        if let LineEnding::Plain = line.append_to(&mut self.text)? {
            self.text.extend_from_slice(line_end)?;
        }
        self.has_text = true;
        Ok(())
    }

    // Is it one of these keys, with what these have?
    fn check(&self, keys: CaseKeys) -> Result<(), CaseFault> {
        if !self.has_text && !keys.bare.contains(&self.key) {
            return Err(self.line.fault(Mistake::Bare));
        }
        let known = match (self.has_text, self.name.is_empty()) {
            (true, true) => keys.plain,
            (true, false) => keys.named,
            (false, _) => keys.bare,
        };
        if known.contains(&self.key) {
            Ok(())
        } else {
            Err(self.line.fault(Mistake::UnknownKey))
        }
    }
}

/// A case.
#[derive(Drop)]
pub struct NamedCase<'a> {
    line: FileLine<'a>,
    name: &'a str,
    fields: Vec<Field<'a>>,
}

impl<'a> NamedCase<'a> {
    /// The number of the line that begins it.
    pub fn line(&self) -> usize {
        self.line.number
    }

    /// What it is called.
    pub fn name(&self) -> &str {
        self.name
    }

    /// Refuses keys that are none of these.
    pub fn check(&self, keys: CaseKeys) -> Result<(), CaseFault> {
        for field in self.fields.iter() {
            field.check(keys)?;
        }
        Ok(())
    }

    /// Has it one of these keys?
    pub fn has_any(&self, keys: &[&str]) -> bool {
        for field in self.fields.iter() {
            if field.has_key(keys) {
                return true;
            }
        }
        false
    }

    /// The texts of a key, with the names of their files.
    pub fn named_texts(&self, alloc: Global, key: &str) -> Result<Vec<NamedText<'_>>, AllocError> {
        let mut texts = Vec::new(alloc);
        for field in self.fields.iter() {
            if field.key == key {
                texts.push(NamedText {
                    name: &field.name,
                    text: &field.text,
                })?;
            }
        }
        Ok(texts)
    }

    // The field of a key and a name.
    fn field(&self, key: &str, name: &[u8]) -> Option<&Field<'a>> {
        for field in self.fields.iter() {
            if field.is(key, name) {
                return Some(field);
            }
        }
        None
    }

    /// The text of a key and a name, if it is there.
    pub fn named_text(&self, key: &str, name: &[u8]) -> Option<&[u8]> {
        Some(&self.field(key, name)?.text)
    }

    /// The text of a key, if it is there.
    pub fn text_if_any(&self, key: &str) -> Option<&[u8]> {
        self.named_text(key, b"")
    }

    /// The text of a key.
    pub fn text(&self, key: &'static str) -> Result<&[u8], CaseFault> {
        match self.text_if_any(key) {
            Some(text) => Ok(text),
            None => Err(self.lacks(key)),
        }
    }

    /// The fault of a key that is not there.
    pub fn lacks(&self, key: &'static str) -> CaseFault {
        self.line.fault(Mistake::Missing(key))
    }

    /// The text of a key as a word, if it is there.
    pub fn word_if_any(&self, key: &'static str) -> Result<Option<&str>, CaseFault> {
        let Some(text) = self.text_if_any(key) else {
            return Ok(None);
        };
        match str::from_utf8(text) {
            Ok(word) => Ok(Some(word)),
            Err(_) => Err(self.wrong(key)),
        }
    }

    /// The text of a key that is read further, if it is there.
    pub fn phrase_if_any(&self, key: &'static str) -> Result<Option<Phrase<'_>>, CaseFault> {
        let Some(field) = self.field(key, b"") else {
            return Ok(None);
        };
        match str::from_utf8(&field.text) {
            Ok(words) => Ok(Some(Phrase {
                line: field.line.number,
                key,
                words,
            })),
            Err(_) => Err(self.wrong(key)),
        }
    }

    /// The text of a key that is read further.
    pub fn phrase(&self, key: &'static str) -> Result<Phrase<'_>, CaseFault> {
        match self.phrase_if_any(key)? {
            Some(phrase) => Ok(phrase),
            None => Err(self.lacks(key)),
        }
    }

    /// The fault of a key whose text is none that it may have.
    pub fn wrong(&self, key: &'static str) -> CaseFault {
        let line = match self.field(key, b"") {
            Some(field) => field.line,
            None => self.line,
        };
        line.fault(Mistake::Value(key))
    }

    /// The number of a key, if it is there.
    pub fn number_if_any(&self, key: &'static str) -> Result<Option<u64>, CaseFault> {
        let Some(word) = self.word_if_any(key)? else {
            return Ok(None);
        };
        match word.parse() {
            Ok(number) => Ok(Some(number)),
            Err(_) => Err(self.wrong(key)),
        }
    }

    /// The exit status that a program ends with: 0 where the case names none.
    pub fn status(&self) -> Result<u64, CaseFault> {
        Ok(self.number_if_any("status")?.unwrap_or(0))
    }
}

/// The cases of a file.
#[derive(Drop)]
pub struct CaseFile<'a> {
    pub kind: CaseKind,
    pub cases: Vec<NamedCase<'a>>,
}

impl<'a> CaseFile<'a> {
    /// Reads a file.
    pub fn read(alloc: Global, text: &'a str) -> Result<CaseFile<'a>, CaseFault> {
        let mut lines = text.split('\n');
        let first = FileLine {
            number: 1,
            text: lines.next().unwrap_or(""),
        };
        let Some(kind) = CaseKind::of(first.text) else {
            return Err(first.fault(Mistake::Kind));
        };
        let mut reader = CaseReader::new(alloc);
        for (before, text) in lines.enumerate() {
            let number = before.saturating_add(2);
            reader.take(FileLine { number, text })?;
        }
        Ok(CaseFile {
            kind,
            cases: reader.cases,
        })
    }
}

// What of a file is read, and how the next line goes on.
#[derive(Drop)]
struct CaseReader<'a> {
    alloc: Global,
    cases: Vec<NamedCase<'a>>,
    // an indented line is one of the last field's text
    is_in_text: bool,
    // the empty lines since the last one of the text
    empty_lines: usize,
}

impl<'a> CaseReader<'a> {
    fn new(alloc: Global) -> CaseReader<'a> {
        CaseReader {
            alloc,
            cases: Vec::new(alloc),
            is_in_text: false,
            empty_lines: 0,
        }
    }

    // Takes a line.
    fn take(&mut self, line: FileLine<'a>) -> Result<(), CaseFault> {
        line.check()?;
        if line.text.is_empty() {
            self.empty_lines = self.empty_lines.saturating_add(1);
            return Ok(());
        }
        if let Some(text) = line.text.strip_prefix("  ") {
            return self.take_text(line.part(text));
        }
        self.is_in_text = false;
        if line.text.starts_with('#') {
            return Ok(());
        }
        match line.text.strip_prefix("= ") {
            Some(name) => self.take_case(line, name),
            None => self.take_field(line),
        }
    }

    // Has a case this name?
    fn has_case(&self, name: &str) -> bool {
        for case in self.cases.iter() {
            if case.name == name {
                return true;
            }
        }
        false
    }

    // Begins a case.
    fn take_case(&mut self, line: FileLine<'a>, name: &'a str) -> Result<(), CaseFault> {
        if self.has_case(name) {
            return Err(line.fault(Mistake::NameTwice));
        }
        self.cases.push(NamedCase {
            line,
            name,
            fields: Vec::new(self.alloc),
        })?;
        Ok(())
    }

    // Begins a field, which has its text on this line or on the lines below.
    fn take_field(&mut self, line: FileLine<'a>) -> Result<(), CaseFault> {
        let (head, text) = match line.text.split_once(": ") {
            Some((head, text)) => (head, Some(text)),
            None => match line.text.strip_suffix(":") {
                Some(head) => (head, Some("")),
                None => (line.text, None),
            },
        };
        let (key, name) = head.split_once(" ").unwrap_or((head, ""));
        let field = Field {
            line,
            key,
            name: line.part(name).bytes(self.alloc)?,
            text: line.part(text.unwrap_or("")).bytes(self.alloc)?,
            has_text: text.is_some(),
        };
        self.is_in_text = text.is_none();
        self.empty_lines = 0;
        self.add(field)
    }

    // Adds a field to the last case.
    fn add(&mut self, field: Field<'a>) -> Result<(), CaseFault> {
        let Some(case) = self.cases.last_mut() else {
            return Err(field.line.fault(Mistake::NoCase));
        };
        if case.field(field.key, &field.name).is_some() {
            return Err(field.line.fault(Mistake::KeyTwice));
        }
        case.fields.push(field)?;
        Ok(())
    }

    // Takes a line of a text.
    fn take_text(&mut self, line: FileLine<'a>) -> Result<(), CaseFault> {
        if !self.is_in_text {
            return Err(line.fault(Mistake::NoText));
        }
        let empty_lines = self.empty_lines;
        self.empty_lines = 0;
        let Some(case) = self.cases.last_mut() else {
            return Err(line.fault(Mistake::NoText));
        };
        match case.fields.last_mut() {
            Some(field) => field.take(line, empty_lines),
            None => Err(line.fault(Mistake::NoText)),
        }
    }
}

// What ends the lines of the text of a key: what is typed has the line ends of a terminal.
fn line_end_of(key: &str) -> &'static [u8] {
    match key {
        "typed" => b"\r\n",
        _ => b"\n",
    }
}
