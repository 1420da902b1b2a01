//! The line.
use crate::listed::{Deed, Detail, Listed};
use crate::quoted::Quoted;
use std::alloc::{AllocError, Global};
use std::fmt;
use std::fmt::Write;
use teco_base::bytes::is_letter;
use teco_change_policies::Facts;
use teco_changes::Change;
use teco_source::Shown;

/// What stands where no list of changes is told.
pub const NOTHING_TOLD: &str = "nothing is told of what it changes";

/// How many columns a line takes at most, if that is not too few for what it says.
const COLUMNS: usize = 100;

/// How much is told, from the most on.
const DETAILS: [Detail; 4] = [
    Detail {
        changes: 3,
        bytes: 24,
    },
    Detail {
        changes: 2,
        bytes: 16,
    },
    Detail {
        changes: 1,
        bytes: 16,
    },
    LEAST,
];

/// The least that is told.
const LEAST: Detail = Detail {
    changes: 1,
    bytes: 8,
};

// What a line may say, in this order.
#[derive(Clone, Copy)]
enum Phrase {
    Puts,
    Takes,
    TakesNothing,
    AddsNothing,
    Lines,
    Others,
}

impl Phrase {
    const ALL: [Phrase; 6] = [
        Phrase::Puts,
        Phrase::Takes,
        Phrase::TakesNothing,
        Phrase::AddsNothing,
        Phrase::Lines,
        Phrase::Others,
    ];
}

// Is a letter looked for, besides those of ^ES?
fn looks_for_letter(wanted: &[u8]) -> bool {
    let mut passed: u8 = 0;
    for b in wanted {
        match *b {
            _ if passed > 0 => passed = passed.saturating_sub(1),
            b'^' => passed = 2,
            5 => passed = 1,
            letter if is_letter(letter) => return true,
            _ => {}
        }
    }
    false
}

// Changes, and what is known of them.
#[derive(Clone, Copy)]
struct Line<'a> {
    changes: &'a [Change],
    facts: &'a Facts,
    detail: Detail,
}

impl<'a> Line<'a> {
    // Can any text be taken, so that what is taken needs no list?
    fn takes_any(&self) -> bool {
        self.changes
            .iter()
            .any(|change| matches!(change, Change::TakesAny))
    }

    // Is there a single change, that puts or takes nothing?
    fn is_single(&self) -> bool {
        Deed::Put
            .count(self.changes)
            .saturating_add(Deed::Take.count(self.changes))
            == 1
    }

    // Is a phrase said?
    fn says(&self, phrase: Phrase) -> bool {
        let is_single = self.is_single();
        match phrase {
            Phrase::Puts => Deed::Put.count(self.changes) > 0,
            Phrase::Takes => {
                Deed::Take.count(self.changes) > 0 && !(self.takes_any() && self.facts.adds_nothing)
            }
            Phrase::TakesNothing => self.facts.takes_nothing && !is_single,
            Phrase::AddsNothing => self.facts.adds_nothing && (!is_single || self.takes_any()),
            Phrase::Lines => {
                self.facts.changes_only_with.is_some()
                    || self.facts.keeps_lines
                    || self.facts.keeps_line_ends
            }
            Phrase::Others => {
                self.facts.leaves_lines_without.is_some() && self.facts.changes_only_with.is_none()
            }
        }
    }

    fn listed(&self, deed: Deed) -> Listed<'a> {
        Listed {
            changes: self.changes,
            deed,
            detail: self.detail,
        }
    }

    fn puts<W: fmt::Write>(&self, f: &mut fmt::Formatter<W>) -> fmt::Result {
        let only = if self.facts.takes_nothing && self.is_single() {
            "only "
        } else {
            ""
        };
        write!(f, "{only}puts {}", self.listed(Deed::Put))
    }

    fn takes<W: fmt::Write>(&self, f: &mut fmt::Formatter<W>) -> fmt::Result {
        if self.takes_any() {
            return f.write_str("takes any text");
        }
        let only = if self.facts.adds_nothing && self.is_single() {
            "only "
        } else {
            ""
        };
        write!(f, "{only}takes {}", self.listed(Deed::Take))
    }

    fn lines<W: fmt::Write>(&self, f: &mut fmt::Formatter<W>) -> fmt::Result {
        match &self.facts.changes_only_with {
            Some(wanted) => {
                let text = wanted.as_slice();
                let quoted = Quoted {
                    text,
                    most: self.detail.bytes,
                    is_bare: true,
                };
                let case = if looks_for_letter(text) {
                    " in either case"
                } else {
                    ""
                };
                write!(f, "lines without {quoted}{case} stay as they are")
            }
            None if self.facts.keeps_lines => f.write_str("keeps lines"),
            None => f.write_str("keeps line ends"),
        }
    }
}

// A phrase of a line.
#[derive(Clone, Copy)]
struct Said<'a> {
    line: Line<'a>,
    phrase: Phrase,
}

impl fmt::Display for Said<'_> {
    fn fmt<W: fmt::Write>(&self, f: &mut fmt::Formatter<W>) -> fmt::Result {
        match self.phrase {
            Phrase::Puts => self.line.puts(f),
            Phrase::Takes => self.line.takes(f),
            Phrase::TakesNothing => f.write_str("takes nothing"),
            Phrase::AddsNothing => f.write_str("adds nothing"),
            Phrase::Lines => self.line.lines(f),
            Phrase::Others => f.write_str("only lines with a match change"),
        }
    }
}

impl fmt::Display for Line<'_> {
    fn fmt<W: fmt::Write>(&self, f: &mut fmt::Formatter<W>) -> fmt::Result {
        if self.facts.takes_nothing && self.facts.adds_nothing {
            return f.write_str("changes nothing");
        }
        let mut joint = "";
        for phrase in Phrase::ALL {
            if self.says(phrase) {
                let said = Said {
                    line: *self,
                    phrase,
                };
                write!(f, "{joint}{said}")?;
                joint = "; ";
            }
        }
        Ok(())
    }
}

/// Changes, and the facts of them, in a line of words: `puts x; takes digits; keeps line ends`. Long
/// texts are cut, and many changes summed up.
pub fn in_words(alloc: Global, changes: &[Change], facts: &Facts) -> Result<String, AllocError> {
    for detail in DETAILS {
        let line = Line {
            changes,
            facts,
            detail,
        };
        let words = format!(in alloc; "{line}")?;
        if Shown(words.as_bytes()).width() <= COLUMNS {
            return Ok(words);
        }
    }
    let line = Line {
        changes,
        facts,
        detail: LEAST,
    };
    format!(in alloc; "{line}")
}
