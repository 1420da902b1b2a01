//! C, R, J and L.
ghost use Rattle.std.specs.Prelude.{◌≡◌, IfSome};
ghost use Rattle.teco_verifier.specs.facts.Motions as motions;
ghost use Rattle.teco_verifier.specs.facts.Shifts as shifts;
ghost use Rattle.teco_facts.specs.Numbers.{IsPlace, IsNear, AreSmall};

use teco_facts::{
    Facts, Foreseen, Margins, Number, Range, Shift, TakenFacts, minus, plus, success,
};
use teco_model::kind::Motion;
use teco_verifier::{RefusalReason, Value};

/// The argument, 1 where there is none.
pub fn or_one(value: Option<Number>) -> Number
    ensures { result ≡ motions.or_one value }
{
    value.unwrap_or(Number::single(1))
}

/// The range of the argument.
pub fn count_of(value: Option<Number>, margins: Margins) -> Range
    ensures { result ≡ motions.count_of value margins }
{
    or_one(value).range(margins)
}

// The place that the argument names.
fn target(motion: Motion, n: Option<Number>) -> Value
    ensures value { result ≡ motions.target motion n }
    ensures place { IsPlace result.ahead result.behind result.lo result.hi }
{
    match motion {
        Motion::Forward => plus(Number::pointer(), or_one(n)),
        Motion::Backward => minus(Number::pointer(), or_one(n)),
        Motion::To => n.unwrap_or(Number::single(0)).place(),
        Motion::Lines => Number::pointer().place(),
    }
}

// Whether nothing more can be ahead.
fn goes_forward(motion: Motion, n: Range) -> bool
    ensures { result ≡ motions.goes_forward motion n }
{
    match motion {
        Motion::Forward => 0 <= n.lo,
        Motion::Backward => n.hi <= 0,
        Motion::To | Motion::Lines => false,
    }
}

/// To lines: where n is at least 1, what is ahead is not more; where it is at most 0, what is behind is
/// not more, and what is ahead falls by so much at the least, if that is known.
pub fn shift_by_lines(fall: Option<i64>, margins: Margins, n: Range) -> Shift
    requires { IfSome fall IsNear }
    ensures { result ≡ motions.shift_by_lines fall margins n }
{
    if 1 <= n.lo {
        Shift::moving(margins.back, 0, Some(0))
    } else if n.hi <= 0 {
        Shift::moving(0, margins.fore, fall)
    } else {
        Shift::moving(0, 0, fall)
    }
}

// To a place that is known to lie in the buffer; a saved one, to which J goes, is somewhere in it.
fn shift_for(motion: Motion, n: &Option<Number>, margins: Margins) -> Result<Shift, RefusalReason>
    ensures { result ≡ motions.shift_or_saved (motions.goes_to_saved motion n.now) (shifts.shift_to
        (motions.target motion n.now) margins) }
{
    let saved = match (motion, n) {
        (Motion::To, Some(n)) => n.value.saved,
        _ => false,
    };
    match Shift::to(target(motion, *n), margins) {
        Err(_) if saved => Ok(Shift::moving(0, 0, None)),
        shift => shift,
    }
}

// The shift to anywhere, where nothing more may be ahead if it goes forward.
fn perhaps_forward(forward: bool) -> Shift
    ensures { result ≡ motions.perhaps_forward forward }
{
    let fall = if forward { Some(0) } else { None };
    Shift::moving(0, 0, fall)
}

// With no colon it is a place that is known to lie in the buffer.
fn motion_to_place(
    motion: Motion,
    n: Option<Number>,
    facts: Facts,
) -> Result<Foreseen, RefusalReason>
    requires { AreSmall facts.position.falls }
    ensures { result ≡ motions.motion_to motion 0 n facts }
{
    let shift = shift_for(motion, &n, facts.margins())?;
    Foreseen::behind(&shift, facts)
}

// With a colon it may fail.
fn motion_with_colon(
    motion: Motion,
    n: Option<Number>,
    facts: Facts,
) -> Result<Foreseen, RefusalReason>
    requires { AreSmall facts.position.falls }
    ensures { result ≡ motions.motion_to motion 1 n facts }
{
    let shift = perhaps_forward(goes_forward(motion, count_of(n, facts.margins())));
    let facts = facts.shifted(&shift)?;
    Ok(Foreseen::giving(success(), facts))
}

// To the place that the argument names; with a colon it may fail.
fn motion_to(
    motion: Motion,
    colons: u8,
    n: Option<Number>,
    facts: Facts,
) -> Result<Foreseen, RefusalReason>
    requires { AreSmall facts.position.falls }
    ensures { result ≡ motions.motion_to motion colons n facts }
{
    if colons == 0 {
        motion_to_place(motion, n, facts)
    } else {
        motion_with_colon(motion, n, facts)
    }
}

/// A motion of the pointer.
pub fn motion(
    motion: Motion,
    colons: u8,
    taken: TakenFacts,
    facts: Facts,
) -> Result<Foreseen, RefusalReason>
    requires { AreSmall facts.position.falls }
    ensures { result ≡ motions.motion motion colons taken facts }
{
    match motion {
        Motion::Lines => {
            let margins = facts.margins();
            let shift = shift_by_lines(None, margins, count_of(taken.value, margins));
            Foreseen::behind(&shift, facts)
        }
        motion => motion_to(motion, colons, taken.value, facts),
    }
}
