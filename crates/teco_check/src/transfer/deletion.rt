//! D and K. Whatever is deleted, what was saved may lie behind the end of the buffer.
ghost use Rattle.std.specs.Prelude.{◌≡◌, ◌<◌, ◌^◌};
ghost use Rattle.teco_verifier.specs.facts.Deletions as deletions;
ghost use Rattle.teco_facts.specs.Numbers.{AreSmall};
ghost use Rattle.teco_check.specs.Shifts as shifts;

use crate::transfer::count_of;
use crate::transfer::motion::shift_by_lines;
use teco_facts::{Facts, Foreseen, Margins, Number, Range, Shift, TakenFacts};
use teco_model::kind::Unit;
use teco_verifier::RefusalReason;

/// The number, and 0 for a negative one.
pub fn positive(n: i64) -> u64
    ensures value { result ≡ deletions.positive n }
    ensures small { result < 2 ^ 63 }
{
    if n < 0 { 0 } else { n as u64 }
}

// The characters that a count names are known to be there, on either side.
fn character_deletion(margins: Margins, n: Range) -> Result<Shift, RefusalReason>
    ensures { result ≡ deletions.character_deletion margins n }
{
    let (ahead, behind) = (positive(n.hi), positive(-n.lo));
    if ahead > margins.fore || behind > margins.back {
        return Err(RefusalReason::Deletion);
    }
    let fall = Some(positive(n.lo) as i64);
    Ok(Shift::moving(margins.back - behind, margins.fore - ahead, fall))
}

// A part between two places that are known to lie in the buffer.
fn range_deletion(m: Number, n: Number, margins: Margins) -> Result<Shift, RefusalReason>
    ensures { result ≡ deletions.range_deletion m n margins }
{
    let from = Shift::to(m.place(), margins)?;
    let to = Shift::to(n.place(), margins)?;
    Ok(from.nearer(&to))
}

// Such a part, or so many characters or lines.
fn shift_of(unit: Unit, taken: TakenFacts, margins: Margins) -> Result<Shift, RefusalReason>
    ensures { result ≡ shifts.deleting unit taken.first taken.value margins }
{
    match (taken.first, taken.value, unit) {
        (Some(m), Some(n), _) => range_deletion(m, n, margins),
        (_, n, Unit::Characters) => character_deletion(margins, count_of(n, margins)),
        (_, n, Unit::Lines) => Ok(shift_by_lines(Some(0), margins, count_of(n, margins))),
    }
}

/// A deletion of a number of characters, or of a part.
pub fn deletion(unit: Unit, taken: TakenFacts, facts: Facts) -> Result<Foreseen, RefusalReason>
    requires { AreSmall facts.position.falls }
    ensures { result ≡ deletions.deletion unit taken facts }
{
    let shift = shift_of(unit, taken, facts.margins())?;
    Foreseen::behind(&shift.ending(), facts)
}
