//! Lines of files, with a mark below a place.
use crate::shown::Shown;
use std::fmt;
use teco_base::bytes::LF;

/// How many bytes of a long line are shown before its place, and from there on.
const BEFORE: usize = 56;

const BEHIND: usize = 24;

/// The line of a file in which a place stands, as a terminal can show it, with a caret below the
/// place. Of a long line only what stands about the place is shown.
#[derive(Clone, Copy)]
pub struct Excerpt<'a> {
    before: &'a [u8],
    behind: &'a [u8],
    // is there more of the line before it, and behind it?
    is_cut_before: bool,
    is_cut_behind: bool,
}

// The part of a text behind its last line end.
fn last_line(text: &[u8]) -> &[u8] {
    match text.iter().rposition(|byte| *byte == LF) {
        Some(at) if at < text.len() => &text[at + 1..],
        _ => text,
    }
}

// The part of a text before its first line end.
fn first_line(text: &[u8]) -> &[u8] {
    match text.iter().position(|byte| *byte == LF) {
        Some(at) if at <= text.len() => &text[..at],
        _ => text,
    }
}

impl<'a> Excerpt<'a> {
    /// The excerpt about a place of a file, or about its end where it is shorter.
    pub fn of(file: &'a [u8], place: usize) -> Excerpt<'a> {
        let (front, back) = file.split_at(place.min(file.len()));
        let before = last_line(front);
        let behind = first_line(back);
        Excerpt {
            before: &before[before.len().saturating_sub(BEFORE)..],
            behind: &behind[..behind.len().min(BEHIND)],
            is_cut_before: before.len() > BEFORE,
            is_cut_behind: behind.len() > BEHIND,
        }
    }
}

impl fmt::Display for Excerpt<'_> {
    fn fmt<W: fmt::Write>(&self, f: &mut fmt::Formatter<W>) -> fmt::Result {
        let cut = if self.is_cut_before { ".. " } else { "" };
        let more = if self.is_cut_behind { " .." } else { "" };
        let before = Shown(self.before);
        let column = before.width().saturating_add(cut.len());
        writeln!(f, "    {cut}{before}{}{more}", Shown(self.behind))?;
        write!(f, "    {:column$}^", "")
    }
}
