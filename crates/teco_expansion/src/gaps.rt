//! Long runs of blanks, kept by where they begin.
ghost use Rattle.std.specs.Prelude.{◌≡◌, ◌≤◌, length, All, IfSome, OnOk, Some};
ghost use Rattle.teco_model.specs.Macros.{Library, macro};
ghost use Rattle.teco_model.specs.Element.{blank_end};
ghost use Rattle.teco_expansion.specs.Scanned.{text_in, IsGapOf};

use std::alloc::AllocError;
use teco_lex::{Readings, blank_end};

/// Blanks in the text of a register, by the place of that: where they begin behind an element, and
/// where they end.
#[derive(Clone, Copy)]
pub struct Gap {
    pub register: usize,
    pub place: usize,
    pub end: usize,
}

/// Fewer blanks are read again each time.
const MANY_BLANKS: usize = 64;

/// Keeps the blanks at a place of a register's text, if they are many.
fn keep_gap(
    gaps: &mut Vec<Gap>,
    register: usize,
    text: &[u8],
    place: usize,
) -> Result<(), AllocError>
    requires { place ≤ length text.now }
    ensures { OnOk result ((library : Library) → macro library register ≡ Some text.now →
        All (IsGapOf library) gaps.old.items → All (IsGapOf library) gaps.new.items) }
{
    let end = blank_end(text, place);
    if end - place >= MANY_BLANKS {
        gaps.push(Gap {
            register,
            place,
            end,
        })?;
    }
    Ok(())
}

/// Keeps the long runs of blanks that stand in a register's text before and behind all that is read
/// of it.
pub fn keep_gaps(gaps: &mut Vec<Gap>, register: usize, text: &[u8]) -> Result<(), AllocError>
    ensures { OnOk result ((library : Library) → macro library register ≡ Some text.now →
        All (IsGapOf library) gaps.old.items → All (IsGapOf library) gaps.new.items) }
{
    keep_gap(gaps, register, text, 0)?;
    let mut ahead = Readings::from(text, 0);
    while let Some(reading) = ahead.next() {
        keep_gap(gaps, register, text, reading.next())?;
    }
    Ok(())
}

/// Where the blanks at a place end, if that is kept. Registers stand in their order, and so do the
/// places of each, so that the time grows as the number of digits of their number does.
pub fn gap_at(gaps: &[Gap], register: usize, place: usize) -> Option<usize>
    ensures { (library : Library) → All (IsGapOf library) gaps.now
        → IfSome result (λ end. end ≡ blank_end (text_in library register) place) }
{
    let number = gaps.partition_point(|gap| {
        gap.register < register || (gap.register == register && gap.place < place)
    });
    let found = gaps.get(number)?;
    if found.register == register && found.place == place {
        Some(found.end)
    } else {
        None
    }
}
