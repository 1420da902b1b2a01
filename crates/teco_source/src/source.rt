//! Sources of TECO texts, with their names.
ghost use Rattle.std.specs.Prelude.{◌≡◌, ◌++◌, drop, IfOk};
ghost use Rattle.teco_source.specs.Scripts.{text_begin as text_begin_of};
ghost use Rattle.teco_source.specs.Source.{said};

use crate::excerpt::Excerpt;
use crate::form::EscapeForm;
use crate::position::LineAndByte;
use crate::script::text_begin;
use std::alloc::{AllocError, Global};
use std::marker::Model;
use teco_base::bytes::ESC;

/// A file or a word of the command line that says a text, with the name that messages call it by.
#[derive(Drop)]
pub struct Source {
    name: String,
    bytes: Vec<u8>,
    form: EscapeForm,
    // where in the bytes the text begins: behind the first line of a script
    begin: usize,
    // what else says a part of the text, in the order of their parts
    others: Vec<SourcePart>,
    text: Vec<u8>,
}

// A file or a word that says a part of a text.
#[derive(Drop)]
struct SourcePart {
    name: String,
    bytes: Vec<u8>,
    form: EscapeForm,
    // the place of the text where what it says begins
    start: usize,
}

/// A file or a word that says a part of a text, and what stands before that part and behind it.
#[derive(Drop)]
pub struct Addition<'a> {
    /// What messages call it by.
    pub name: &'a str,
    pub bytes: Vec<u8>,
    pub form: EscapeForm,
    /// What the text has before that part. It stands nowhere in the bytes.
    pub front: &'a [u8],
    /// What the text has behind that part. It stands nowhere in the bytes.
    pub end: &'a [u8],
}

impl Model for Source {
    ghost use Rattle.std.specs.Prelude.{List, ℕ};

    ghost Value = { List ℕ };

    ghost view = { λ s. s.text.items };
}

impl Source {
    /// The source of a name, which says its text in this form. Takes memory for the text and the
    /// name.
    pub fn new(
        alloc: Global,
        name: &str,
        bytes: Vec<u8>,
        form: EscapeForm,
    ) -> Result<Source, AllocError>
        ensures { IfOk result (λ source. source ≡ said form bytes.items) }
    {
        let text = form.read(alloc, &bytes)?;
        let name = String::from_str(alloc, name)?;
        Ok(Source {
            name,
            bytes,
            form,
            begin: 0,
            others: Vec::new(alloc),
            text,
        })
    }

    /// The source of a name, which may be a script: its first line then says nothing.
    pub fn script(
        alloc: Global,
        name: &str,
        bytes: Vec<u8>,
        form: EscapeForm,
    ) -> Result<Source, AllocError>
        ensures { IfOk result (λ source. source
            ≡ said form (drop (text_begin_of bytes.items) bytes.items)) }
    {
        let begin = text_begin(&bytes);
        let text = form.read(alloc, &bytes[begin..])?;
        let name = String::from_str(alloc, name)?;
        Ok(Source {
            name,
            bytes,
            form,
            begin,
            others: Vec::new(alloc),
            text,
        })
    }

    /// The source with one part more, behind the others. Takes memory for the part and its name.
    pub fn with(mut self, alloc: Global, added: Addition<'_>) -> Result<Source, AllocError>
        ensures { IfOk result (λ source. source
            ≡ self ++ added.entry.front.now
            ++ said added.entry.form added.entry.bytes.items ++ added.entry.end.now) }
    {
        let said = added.form.read(alloc, &added.bytes)?;
        self.text.extend_from_slice(added.front)?;
        let start = self.text.len();
        self.text.extend_from_slice(&said)?;
        self.text.extend_from_slice(added.end)?;
        self.others.push(SourcePart {
            name: String::from_str(alloc, added.name)?,
            bytes: added.bytes,
            form: added.form,
            start,
        })?;
        Ok(self)
    }

    /// The source with so many ESC more at the end of its text, which stand nowhere in its bytes.
    pub fn ended(mut self, count: usize) -> Result<Source, AllocError> {
        for _ in 0..count {
            self.text.push(ESC)?;
        }
        Ok(self)
    }

    /// How it says ESC.
    pub fn form(&self) -> EscapeForm {
        self.form
    }

    /// What messages call it by.
    pub fn name(&self) -> &str {
        self.name.as_str()
    }

    /// What messages call by what says a place of its text.
    pub fn name_at(&self, place: usize) -> &str {
        match self.part_at(place) {
            Some(part) => part.name.as_str(),
            None => self.name(),
        }
    }

    // The last part that begins at a place of its text or before it.
    fn part_at(&self, place: usize) -> Option<&SourcePart> {
        self.others.iter().rfind(|part| part.start <= place)
    }

    /// The text that it says.
    pub fn text(&self) -> &[u8]
        ensures { result.now ≡ self.now }
    {
        &self.text
    }

    // The bytes that say a place of its text, and where in them it is.
    fn spot(&self, place: usize) -> (&[u8], usize) {
        if let Some(part) = self.part_at(place) {
            let at = part
                .form
                .place_in(&part.bytes, place.saturating_sub(part.start));
            return (&part.bytes, at);
        }
        let behind = self.bytes.get(self.begin..).unwrap_or(&[]);
        let at = self.begin.saturating_add(self.form.place_in(behind, place));
        (&self.bytes, at)
    }

    /// The position of a place of its text, in what says it.
    pub fn position(&self, place: usize) -> LineAndByte {
        let (bytes, at) = self.spot(place);
        LineAndByte::of(bytes, at)
    }

    /// The line in which a place of its text stands.
    pub fn excerpt(&self, place: usize) -> Excerpt<'_> {
        let (bytes, at) = self.spot(place);
        Excerpt::of(bytes, at)
    }
}
