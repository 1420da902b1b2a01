//! What is said of a policy that an edit would break.
use std::fmt;
use std::io::Write;
use teco_base::bytes::is_line_end;
use teco_console::Voice;
use teco_policy::{Breach, Policy};
use teco_source::Shown;
use teco_tools::OUTPUT;

// How many bytes of a line are shown at most.
const MOST: usize = 160;

/// A policy that the edit of a text would break, and where.
#[derive(Clone, Copy)]
pub struct Breaking<'a> {
    pub policy: &'a Policy,
    pub breach: Breach,
    /// The text before the edit.
    pub old: &'a [u8],
    /// The text behind it.
    pub new: &'a [u8],
}

impl Breaking<'_> {
    // Says what would happen to the text, at the first place that breaks the policy.
    fn write_happening<W: fmt::Write>(&self, f: &mut fmt::Formatter<W>) -> fmt::Result {
        match self.breach {
            Breach::Taken(place) => {
                let line = place.line;
                write!(f, "a character would be taken from line {line}")
            }
            Breach::Added(place) => {
                let line = place.line;
                write!(
                    f,
                    "a character would be added, in what would be line {line}"
                )
            }
            Breach::Resized => {
                let (old, new) = (self.old.len(), self.new.len());
                write!(f, "{old} characters would be {new}")
            }
            Breach::Line(line) => write!(f, "line {line} would not be as it must"),
            Breach::Changed(1) => f.write_str("1 line would change"),
            Breach::Changed(count) => write!(f, "{count} lines would change"),
        }
    }
}

impl<'a> Breaking<'a> {
    /// The line of the first place that breaks the policy, as it was and as it would be, where there is
    /// such a line.
    pub fn lines(&self) -> (Option<Shown<'a>>, Option<Shown<'a>>) {
        let Some(number) = line_of(self.breach) else {
            return (None, None);
        };
        (shown_line(self.old, number), shown_line(self.new, number))
    }
}

impl fmt::Display for Breaking<'_> {
    fn fmt<W: fmt::Write>(&self, f: &mut fmt::Formatter<W>) -> fmt::Result {
        let policy = self.policy;
        write!(f, "{policy}: ")?;
        self.write_happening(f)
    }
}

// The number of the line that a breach is in, if it is in one.
fn line_of(breach: Breach) -> Option<usize> {
    match breach {
        Breach::Taken(place) | Breach::Added(place) => Some(place.line),
        Breach::Line(line) => Some(line),
        Breach::Resized | Breach::Changed(_) => None,
    }
}

// A text without the line end at its end, if it has one there.
fn without_last_end(text: &[u8]) -> Option<&[u8]> {
    let (last, front) = text.split_last()?;
    if is_line_end(*last) {
        Some(front)
    } else {
        Some(text)
    }
}

// The front of the line of this number, from 1 on, without its line end.
fn line_at(text: &[u8], number: usize) -> Option<&[u8]> {
    let line = without_last_end(text)?
        .split(|b| is_line_end(*b))
        .nth(number.saturating_sub(1))?;
    Some(line.get(..MOST).unwrap_or(line))
}

// The line of this number, as messages have it, if there is one.
fn shown_line(text: &[u8], number: usize) -> Option<Shown<'_>> {
    Some(Shown(line_at(text, number)?))
}

// Says that a file is left as it was, and why; or that nothing is written to standard output.
fn tell_left<E: Write + Drop>(voice: &mut Voice<E>, name: &[u8], breaking: &Breaking<'_>) {
    if name == OUTPUT {
        voice.complain(format_args!("nothing is written: {breaking}"));
        return;
    }
    let shown = Shown(name);
    voice.complain(format_args!("{shown} is left as it was: {breaking}"));
}

/// Says which policy the edit of a file would break, with what would happen, and the line before and
/// behind.
pub fn tell_broken<E: Write + Drop>(voice: &mut Voice<E>, name: &[u8], breaking: &Breaking<'_>) {
    tell_left(voice, name, breaking);
    let (old, new) = breaking.lines();
    if let Some(line) = old {
        voice.say(format_args!("  -{line}"));
    }
    if let Some(line) = new {
        voice.say(format_args!("  +{line}"));
    }
}
