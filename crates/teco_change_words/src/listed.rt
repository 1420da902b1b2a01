//! What changes put and take, in a line of words.
use crate::class::ClassInWords;
use crate::quoted::Quoted;
use std::fmt;
use std::fmt::Write;
use teco_changes::Change;

// How much is told: so many of the changes that do the same, and so many bytes of a text.
#[derive(Clone, Copy)]
pub(crate) struct Detail {
    pub(crate) changes: usize,
    pub(crate) bytes: usize,
}

// What changes do.
#[derive(Clone, Copy)]
pub(crate) enum Deed {
    Put,
    Take,
}

impl Deed {
    // Does a change do so? One that puts a text in the stead of another is said to put it.
    pub(crate) fn is_done_by(self, change: &Change) -> bool {
        match (self, change) {
            (Deed::Put, Change::Puts(text) | Change::Swaps(_, text)) => !text.as_slice().is_empty(),
            (Deed::Take, Change::Swaps(_, text)) => text.as_slice().is_empty(),
            (Deed::Put, Change::PutsNumber | Change::PutsByte | Change::PutsText(_)) => true,
            (Deed::Take, Change::Takes(_) | Change::TakesMatch(_) | Change::TakesAny) => true,
            _ => false,
        }
    }

    // How many of some changes do so?
    pub(crate) fn count(self, changes: &[Change]) -> usize {
        changes
            .iter()
            .filter(|change| self.is_done_by(change))
            .count()
    }
}

// What one change puts or takes.
#[derive(Clone, Copy)]
struct Piece<'a> {
    change: &'a Change,
    most: usize,
    is_bare: bool,
}

impl<'a> Piece<'a> {
    fn quoted(&self, text: &'a [u8]) -> Quoted<'a> {
        Quoted {
            text,
            most: self.most,
            is_bare: self.is_bare,
        }
    }
}

impl fmt::Display for Piece<'_> {
    fn fmt<W: fmt::Write>(&self, f: &mut fmt::Formatter<W>) -> fmt::Result {
        match self.change {
            Change::Puts(text) => write!(f, "{}", self.quoted(text.as_slice())),
            Change::PutsNumber => f.write_str("a number"),
            Change::PutsByte => f.write_str("a character"),
            Change::PutsText(register) => {
                write!(f, "what register {} has", char::from(register.name()))
            }
            Change::Takes(class) => {
                let ranges = class.as_slice();
                let most = self.most;
                write!(f, "{}", ClassInWords { ranges, most })
            }
            Change::TakesMatch(wanted) => write!(f, "{}", self.quoted(wanted.as_slice())),
            Change::TakesAny => f.write_str("any text"),
            Change::Swaps(wanted, text) => {
                let wanted = self.quoted(wanted.as_slice());
                if text.as_slice().is_empty() {
                    return write!(f, "{wanted}");
                }
                write!(f, "{} for {wanted}", self.quoted(text.as_slice()))
            }
        }
    }
}

// What the changes put or take that do so: the first of them, and how many more there are.
#[derive(Clone, Copy)]
pub(crate) struct Listed<'a> {
    pub(crate) changes: &'a [Change],
    pub(crate) deed: Deed,
    pub(crate) detail: Detail,
}

// What stands before a piece of a list, by its place and the number of pieces.
fn joint(place: usize, count: usize) -> &'static str {
    if place == 0 {
        ""
    } else if place.saturating_add(1) == count {
        " and "
    } else {
        ", "
    }
}

impl fmt::Display for Listed<'_> {
    fn fmt<W: fmt::Write>(&self, f: &mut fmt::Formatter<W>) -> fmt::Result {
        let count = self.deed.count(self.changes);
        let mut place = 0usize;
        for change in self.changes {
            if place < self.detail.changes && self.deed.is_done_by(change) {
                let piece = Piece {
                    change,
                    most: self.detail.bytes,
                    is_bare: count == 1,
                };
                write!(f, "{}{piece}", joint(place, count))?;
                place = place.saturating_add(1);
            }
        }
        if place < count {
            write!(f, " and {} more", count - place)?;
        }
        Ok(())
    }
}
