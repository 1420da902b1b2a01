//! Where notes stand.
use std::fmt;
use teco_source::{LineAndByte, Shown, Source};

/// Where a note stands, as messages have it: the file, the line and the column.
#[derive(Clone, Copy)]
pub struct NoteSite<'a> {
    pub source: &'a Source,
    /// The place in the text of the source.
    pub place: usize,
}

impl fmt::Display for NoteSite<'_> {
    fn fmt<W: fmt::Write>(&self, f: &mut fmt::Formatter<W>) -> fmt::Result {
        let name = Shown(self.source.name_at(self.place).as_bytes());
        let LineAndByte { line, column } = self.source.position(self.place);
        write!(f, "{name}:{line}:{column}")
    }
}
