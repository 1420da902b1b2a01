//! What would show a condition of a macro of which no claims are found, and what is known.

use crate::claims::{register_at, text_at};
use crate::failing::Unclaimed;
use crate::failure_words::words_of_witness;
use crate::mending::{MacroChange, Mend, is_mended};
use std::alloc::{AllocError, Global};
use std::fmt;
use teco_base::Reg;
use teco_base::bytes::{LF, is_blank};
use teco_claimed::{NodePlace, Unshown};
use teco_claims::Claim;
use teco_console::{Stated, all_stated, element_at};
use teco_explain::place_in;
use teco_library::Library;
use teco_paths::search::{ClaimSearch, Shortfall};
use teco_source::{Shown, Source};
use teco_verifier::RefusalReason as Why;
use teco_verify::Refusal;

// Claims in words, one after the other.
fn words_of(alloc: Global, claims: &[Claim]) -> Result<String, AllocError> {
    let mut words = String::new(alloc);
    for stated in &all_stated(alloc, claims)? {
        if !words.is_empty() {
            words.push_str("; ")?;
        }
        words.push_str(stated.words(alloc)?.as_str())?;
    }
    if words.is_empty() {
        words.push_str("nothing")?;
    }
    Ok(words)
}

// A claim in words, if there is one.
fn words_if_told(alloc: Global, claim: &Option<Claim>) -> Result<String, AllocError> {
    match claim {
        Some(claim) => Stated::of(alloc, claim)?.words(alloc),
        None => Ok(String::new(alloc)),
    }
}

// Where an element stands in the file, and what it is.
fn shown_at(
    alloc: Global,
    source: &Source,
    library: &Library,
    at: NodePlace,
) -> Result<String, AllocError> {
    let place = place_in(source.text(), register_at(at.register), at.place).unwrap_or(0);
    let position = source.position(place);
    let (line, column) = (position.line, position.column);
    let text = text_at(library, at);
    let found = element_at(text, at.place);
    if found.is_empty() {
        return format!(in alloc; "{line}:{column}");
    }
    let shown = Shown(found);
    format!(in alloc; "{line}:{column}, {shown}")
}

// A line behind others.
fn push_line<D: fmt::Display + Drop>(
    alloc: Global,
    lines: &mut String,
    line: D,
) -> Result<(), AllocError> {
    let between = if lines.is_empty() { "" } else { "\n" };
    lines.push_str(format!(in alloc; "{between}  {line}")?.as_str())
}

// Says what is known at a point, and what would do, unless that is what is needed.
fn push_known(
    alloc: Global,
    lines: &mut String,
    reason: &Shortfall,
    point: &str,
) -> Result<(), AllocError> {
    let needed = words_if_told(alloc, &reason.needed)?;
    if !needed.is_empty() {
        push_line(alloc, lines, format_args!("needed here: {needed}"))?;
    }
    let wanted = words_if_told(alloc, &reason.wanted)?;
    if !wanted.is_empty() && wanted.as_str() != needed.as_str() {
        push_line(
            alloc,
            lines,
            format_args!("it would do to know at {point}: {wanted}"),
        )?;
    }
    let known = words_of(alloc, &reason.known)?;
    push_line(alloc, lines, format_args!("known at {point}: {known}"))
}

// The most bytes of a macro that are shown with marks.
const MOST_MARKED: usize = 100;

// The place of the next element from a place on: blanks stand before it.
fn behind_blanks(text: &[u8], place: usize) -> usize {
    let behind = text.get(place..).unwrap_or(&[]);
    let blanks = behind.iter().position(|byte| !is_blank(*byte));
    place.saturating_add(blanks.unwrap_or(behind.len()))
}

// From where to where the text goes in which a way lies, if that is one text, short, and one line.
fn span_of(library: &Library, way: &[NodePlace]) -> Option<(usize, usize)> {
    let first = way.first()?;
    if way.iter().any(|at| at.register != first.register) {
        return None;
    }
    let text = text_at(library, *first);
    let mut begin = first.place;
    let mut end = begin;
    for at in way {
        begin = begin.min(at.place);
        end = end.max(at.place.saturating_add(element_at(text, at.place).len()));
    }
    let span = text.get(..end)?.get(begin..)?;
    if span.len() > MOST_MARKED || span.contains(&LF) {
        return None;
    }
    Some((begin, end))
}

// Shows the text in which a way lies, with marks below the elements on it.
fn push_marked(
    alloc: Global,
    lines: &mut String,
    library: &Library,
    way: &[NodePlace],
    span: (usize, usize),
) -> Result<(), AllocError> {
    let text = way.first().map_or(&[][..], |at| text_at(library, *at));
    let (mut place, end) = span;
    let mut line = String::new(alloc);
    let mut marks = String::new(alloc);
    for _ in 0..MOST_MARKED {
        if place >= end {
            break;
        }
        let element = element_at(text, place);
        let own = behind_blanks(text, place);
        let mark = if way.iter().any(|at| at.place == own) {
            "^"
        } else {
            " "
        };
        let shown = Shown(element);
        line.push_str(format!(in alloc; "{shown}")?.as_str())?;
        for _ in 0..shown.width() {
            marks.push_str(mark)?;
        }
        place = place.saturating_add(element.len().max(1));
    }
    push_line(alloc, lines, format_args!("  {line}"))?;
    push_line(
        alloc,
        lines,
        format_args!("  {}", marks.as_str().trim_end()),
    )
}

// The elements of a way in a line, with two dots where it leaves some out.
fn words_of_way(alloc: Global, library: &Library, way: &[NodePlace]) -> Result<String, AllocError> {
    let mut words = String::new(alloc);
    let mut next = way.first().copied();
    for at in way {
        if next != Some(*at) {
            words.push_str(" .. ")?;
        }
        let text = text_at(library, *at);
        let element = element_at(text, at.place);
        let shown = Shown(element);
        words.push_str(format!(in alloc; "{shown}")?.as_str())?;
        next = Some(NodePlace {
            register: at.register,
            place: behind_blanks(text, at.place.saturating_add(element.len())),
        });
    }
    Ok(words)
}

// Says on which ways nothing is known to fall.
fn push_ways(
    alloc: Global,
    lines: &mut String,
    library: &Library,
    ways: &[Vec<NodePlace>],
) -> Result<(), AllocError> {
    match ways {
        [] => return Ok(()),
        [_] => push_line(alloc, lines, "nothing is known to fall on this way:")?,
        _ => push_line(
            alloc,
            lines,
            "nothing is known to fall on these ways together:",
        )?,
    }
    for way in ways {
        match span_of(library, way) {
            Some(span) => push_marked(alloc, lines, library, way, span)?,
            None => {
                let way = words_of_way(alloc, library, way)?;
                push_line(alloc, lines, format_args!("  {way}"))?;
            }
        }
    }
    Ok(())
}

// Is a macro accepted with a change at a place of a register's text?
fn is_mended_at<S: ClaimSearch>(
    alloc: Global,
    source: &Source,
    entry: Reg,
    at: NodePlace,
    mend: Mend,
) -> bool {
    match register_at(at.register) {
        Some(register) => {
            let change = MacroChange {
                register,
                place: at.place,
                mend,
            };
            is_mended::<S>(alloc, source, entry, change)
        }
        None => false,
    }
}

// Where the element stands at which a macro is refused that may move or delete too far.
fn moved_too_far(refusal: &Refusal) -> Option<NodePlace> {
    match refusal {
        Refusal::No {
            why,
            register: Some(register),
            place,
        } if matches!(why, Why::Place | Why::Deletion) => Some(NodePlace {
            register: register.index(),
            place: *place,
        }),
        _ => None,
    }
}

/// A macro of a library that is refused, and why.
#[derive(Drop)]
pub struct RefusedMacro<'a> {
    pub source: &'a Source,
    pub library: &'a Library,
    pub entry: Reg,
    pub refusal: &'a Refusal,
}

// What would do at the element at which it is refused, or at this point, if that is found.
fn mend_of<S: ClaimSearch>(
    alloc: Global,
    refused: &RefusedMacro<'_>,
    point: NodePlace,
) -> Option<Mend> {
    if let Some(at) = moved_too_far(refused.refusal) {
        if is_mended_at::<S>(alloc, refused.source, refused.entry, at, Mend::Colon) {
            return Some(Mend::Colon);
        }
    }
    if is_mended_at::<S>(alloc, refused.source, refused.entry, point, Mend::Test) {
        return Some(Mend::Test);
    }
    None
}

// Says what is known, and what would do.
fn push_unshown<S: ClaimSearch>(
    alloc: Global,
    lines: &mut String,
    refused: &RefusedMacro<'_>,
    found: &Unshown,
) -> Result<(), AllocError> {
    let point = shown_at(alloc, refused.source, refused.library, found.at)?;
    push_known(alloc, lines, &found.reason, point.as_str())?;
    push_ways(alloc, lines, refused.library, &found.ways)?;
    match mend_of::<S>(alloc, refused, found.at) {
        Some(Mend::Colon) => push_line(
            alloc,
            lines,
            "with : before it the macro would be accepted",
        ),
        Some(Mend::Test) => push_line(
            alloc,
            lines,
            format_args!("with .-Z; at {point} the macro would be accepted"),
        ),
        None => Ok(()),
    }
}

// How many times as long a search may look that was given up.
const MORE: u32 = 10;

// Says that the search was given up, if it was, on what small world the macro fails, if one was found,
// what is known, and what would do.
fn lines_of<S: ClaimSearch>(
    alloc: Global,
    refused: &RefusedMacro<'_>,
    unclaimed: &Unclaimed,
) -> Result<String, AllocError> {
    let mut lines = String::new(alloc);
    if unclaimed.unverified.is_given_up {
        let more = unclaimed.effort.saturating_mul(MORE);
        push_line(
            alloc,
            &mut lines,
            format_args!(
                "no verdict: the search was given up (--effort {more} looks ten times as long)"
            ),
        )?;
    }
    if let Some(witness) = &unclaimed.witness {
        let words = words_of_witness(alloc, refused.source, refused.library, witness)?;
        push_line(alloc, &mut lines, words.as_str())?;
        push_line(
            alloc,
            &mut lines,
            "teco trace lists the steps of such a run",
        )?;
    }
    if let Some(found) = &unclaimed.unverified.unshown {
        push_unshown::<S>(alloc, &mut lines, refused, found)?;
    }
    Ok(lines)
}

/// On what small world a macro fails that is refused; what would show a condition that could not be
/// shown of it, what is known, and what change would do: in lines, as far as that can be told.
pub fn reason_of<S: ClaimSearch>(
    alloc: Global,
    refused: &RefusedMacro<'_>,
    unclaimed: &Unclaimed,
) -> String {
    lines_of::<S>(alloc, refused, unclaimed).unwrap_or(String::new(alloc))
}
