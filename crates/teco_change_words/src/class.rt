//! Classes of characters in a line of words.
use std::fmt;
use std::fmt::Write;
use teco_base::bytes::{FF, is_blank, is_digit, is_letter, is_line_end};
use teco_changes::Range;
use teco_source::Shown;

// Characters that have a name.
#[derive(Clone, Copy)]
enum Named {
    Letters,
    Digits,
    Blanks,
    LineEnds,
    FormFeeds,
}

impl Named {
    const ALL: [Named; 5] = [
        Named::Letters,
        Named::Digits,
        Named::Blanks,
        Named::LineEnds,
        Named::FormFeeds,
    ];

    // Is a character one of them?
    fn has(self, b: u8) -> bool {
        match self {
            Named::Letters => is_letter(b),
            Named::Digits => is_digit(b),
            Named::Blanks => is_blank(b),
            Named::LineEnds => is_line_end(b),
            Named::FormFeeds => b == FF,
        }
    }

    fn name(self) -> &'static str {
        match self {
            Named::Letters => "letters",
            Named::Digits => "digits",
            Named::Blanks => "blanks",
            Named::LineEnds => "line ends",
            Named::FormFeeds => "form feeds",
        }
    }
}

// A class of characters: those that have a name by it, and the others in quotes, so many at most.
#[derive(Clone, Copy)]
pub(crate) struct ClassInWords<'a> {
    pub(crate) ranges: &'a [Range],
    pub(crate) most: usize,
}

// Is a character of the class?
fn has(ranges: &[Range], b: u8) -> bool {
    ranges
        .iter()
        .any(|range| range.first <= b && b <= range.last)
}

impl ClassInWords<'_> {
    // Are all that have a name of the class?
    fn covers(&self, named: Named) -> bool {
        (0..=u8::MAX).all(|b| !named.has(b) || has(self.ranges, b))
    }

    // Is a name said: of form feeds, where line ends are not?
    fn says(&self, named: Named) -> bool {
        match named {
            Named::FormFeeds => self.covers(named) && !self.covers(Named::LineEnds),
            _ => self.covers(named),
        }
    }

    // Is a character of the class, and of none that has a name?
    fn is_left(&self, b: u8) -> bool {
        has(self.ranges, b)
            && !Named::ALL
                .iter()
                .any(|named| named.has(b) && self.covers(*named))
    }
}

impl fmt::Display for ClassInWords<'_> {
    fn fmt<W: fmt::Write>(&self, f: &mut fmt::Formatter<W>) -> fmt::Result {
        let mut joint = "";
        for named in Named::ALL {
            if self.says(named) {
                write!(f, "{joint}{}", named.name())?;
                joint = " or ";
            }
        }
        let mut left = 0usize;
        for b in 0..=u8::MAX {
            if left <= self.most && self.is_left(b) {
                let shown = [b];
                match left {
                    0 => write!(f, "{joint}\"{}", Shown(&shown))?,
                    _ if left == self.most => f.write_str("..")?,
                    _ => write!(f, "{}", Shown(&shown))?,
                }
                left = left.saturating_add(1);
            }
        }
        if left > 0 {
            f.write_str("\"")?;
        }
        Ok(())
    }
}
