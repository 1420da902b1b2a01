//! What comes of motions to a place.
ghost use Rattle.std.specs.Prelude.{◌≡◌, ◌+ℤ◌, ℕ, pos, true, if◌then◌else◌, IfOk};
ghost use Rattle.std.specs.List.{All};
ghost use Rattle.teco_linear.specs.Form.{Valuation, value};
ghost use Rattle.teco_linear.specs.Implied.{Holds};
ghost use Rattle.teco_model.specs.Element.{Element};
ghost use Rattle.teco_model.specs.Motion.{motion, target};
ghost use Rattle.teco_rows.specs.Cases.{value_if};
ghost use Rattle.teco_rows.specs.Commands.{Performs};
ghost use Rattle.teco_motion_outcomes.specs.Motions.{GoesFar, GoesTo, IsPlace, IsToPlace, Passes, Returns};
ghost use Rattle.teco_rows.specs.States.{Point, IsTrueOf};

use std::alloc::Global;
use teco_linear::{Form, Term};
use teco_model::kind::Motion;
use teco_rows::applied::copied;
use teco_rows::case::Case;
use teco_rows::commands::{TakenForms, Way, argument, commands};
use teco_rows::fault::RowFault;
use teco_rows::forms::{is_number, single};
use teco_rows::levels::{NO, VALUE, at_level};
use teco_rows::measure::{Family, Measure, Single};
use teco_rows::outcomes::Outcomes;
use teco_rows::row::{Clause, Mark, Of};

pub const POINTER: Mark = Mark::One(Single::Pointer);

pub const SIZE: Mark = Mark::One(Single::Size);

pub const HELD: Mark = Mark::One(Single::Held);

pub const LINE_END: Mark = Mark::One(Single::LineEnd);

pub const LINE_START: Mark = Mark::One(Single::LineStart);

pub const CODE_HERE: Mark = Mark::One(Single::CodeHere);

pub const CODE_BEFORE: Mark = Mark::One(Single::CodeBefore);

/// The number of the register that is spoken of.
pub const NUMBER: Mark = Mark::Here(Family::Number);

/// What is at the pointer, and before it, where that is not known.
pub const HERE: Of = Of::Unknown(4);

pub const THERE: Of = Of::Unknown(5);

pub const ANY_HERE: Clause = Clause::Sets(CODE_HERE, 0, ((1, HERE), NO, NO, NO));

pub const ANY_BEFORE: Clause = Clause::Sets(CODE_BEFORE, 0, ((1, THERE), NO, NO, NO));

// The place that is gone to, and the line's end and start there.
const PLACE: Of = Of::Given(0);

const END: Of = Of::Unknown(0);

const START: Of = Of::Unknown(1);

const GOES: Clause = Clause::Sets(POINTER, 0, ((1, PLACE), NO, NO, NO));

const ENDS: Clause = Clause::Sets(LINE_END, 0, ((1, END), NO, NO, NO));

const STARTS: Clause = Clause::Sets(LINE_START, 0, ((1, START), NO, NO, NO));

// Ahead: neither the line's end nor its start goes back.
const AHEAD: [Clause; 11] = [
    GOES,
    ANY_HERE,
    ANY_BEFORE,
    ENDS,
    STARTS,
    Clause::Wants(-1, ((1, PLACE), (-1, Of::Was(POINTER)), NO, NO)),
    Clause::Wants(0, ((1, END), (-1, Of::Was(LINE_END)), NO, NO)),
    Clause::Wants(0, ((1, END), (-1, PLACE), NO, NO)),
    Clause::Wants(0, ((1, Of::Was(SIZE)), (-1, END), NO, NO)),
    Clause::Wants(0, ((1, START), (-1, Of::Was(LINE_START)), NO, NO)),
    Clause::Wants(0, ((1, PLACE), (-1, START), NO, NO)),
];

// Back within the line: its end and start stay.
const WITHIN: [Clause; 5] = [
    GOES,
    ANY_HERE,
    ANY_BEFORE,
    Clause::Wants(0, ((1, Of::Was(POINTER)), (-1, PLACE), NO, NO)),
    Clause::Wants(0, ((1, PLACE), (-1, Of::Was(LINE_START)), NO, NO)),
];

// Back past its start: the line ends there at the latest.
const BACK: [Clause; 10] = [
    GOES,
    ANY_HERE,
    ANY_BEFORE,
    ENDS,
    STARTS,
    Clause::Wants(-1, ((1, Of::Was(LINE_START)), (-1, PLACE), NO, NO)),
    Clause::Wants(-1, ((1, END), (-1, PLACE), NO, NO)),
    Clause::Wants(0, ((1, Of::Was(LINE_START)), (-1, END), NO, NO)),
    Clause::Wants(0, ((1, START), NO, NO, NO)),
    Clause::Wants(0, ((1, PLACE), (-1, START), NO, NO)),
];

// One character ahead: that which was at the pointer is before it. It ends no line, or it does.
const PASSES: Clause = Clause::Sets(CODE_BEFORE, 0, ((1, Of::Was(CODE_HERE)), NO, NO, NO));

const IN_LINE: Clause = Clause::Wants(0, ((1, Of::Was(LINE_END)), (-1, PLACE), NO, NO));

const PASSES_END: [Clause; 10] = [
    GOES,
    ANY_HERE,
    PASSES,
    ENDS,
    Clause::Sets(LINE_START, 0, ((1, PLACE), NO, NO, NO)),
    Clause::Wants(-11, ((1, Of::Was(CODE_HERE)), NO, NO, NO)),
    Clause::Wants(13, ((-1, Of::Was(CODE_HERE)), NO, NO, NO)),
    Clause::Wants(0, ((1, PLACE), (-1, Of::Was(LINE_END)), NO, NO)),
    Clause::Wants(0, ((1, END), (-1, PLACE), NO, NO)),
    Clause::Wants(0, ((1, Of::Was(SIZE)), (-1, END), NO, NO)),
];

const PASSES_LOW: [Clause; 6] = [
    GOES,
    ANY_HERE,
    PASSES,
    IN_LINE,
    Clause::Wants(-1, ((1, Of::Was(CODE_HERE)), NO, NO, NO)),
    Clause::Wants(10, ((-1, Of::Was(CODE_HERE)), NO, NO, NO)),
];

const PASSES_HIGH: [Clause; 6] = [
    GOES,
    ANY_HERE,
    PASSES,
    IN_LINE,
    Clause::Wants(-14, ((1, Of::Was(CODE_HERE)), NO, NO, NO)),
    Clause::Wants(256, ((-1, Of::Was(CODE_HERE)), NO, NO, NO)),
];

// One character back: that which was before the pointer is at it. It ends no line, or it does.
const RETURNS: Clause = Clause::Sets(CODE_HERE, 0, ((1, Of::Was(CODE_BEFORE)), NO, NO, NO));

const SAME_LINE: Clause = Clause::Wants(0, ((1, PLACE), (-1, Of::Was(LINE_START)), NO, NO));

const RETURNS_END: [Clause; 9] = [
    GOES,
    RETURNS,
    ANY_BEFORE,
    Clause::Sets(LINE_END, 0, ((1, Of::Was(POINTER)), NO, NO, NO)),
    STARTS,
    Clause::Wants(-11, ((1, Of::Was(CODE_BEFORE)), NO, NO, NO)),
    Clause::Wants(13, ((-1, Of::Was(CODE_BEFORE)), NO, NO, NO)),
    Clause::Wants(0, ((1, START), NO, NO, NO)),
    Clause::Wants(0, ((1, PLACE), (-1, START), NO, NO)),
];

const RETURNS_LOW: [Clause; 6] = [
    GOES,
    RETURNS,
    ANY_BEFORE,
    SAME_LINE,
    Clause::Wants(-1, ((1, Of::Was(CODE_BEFORE)), NO, NO, NO)),
    Clause::Wants(10, ((-1, Of::Was(CODE_BEFORE)), NO, NO, NO)),
];

const RETURNS_HIGH: [Clause; 6] = [
    GOES,
    RETURNS,
    ANY_BEFORE,
    SAME_LINE,
    Clause::Wants(-14, ((1, Of::Was(CODE_BEFORE)), NO, NO, NO)),
    Clause::Wants(256, ((-1, Of::Was(CODE_BEFORE)), NO, NO, NO)),
];

// It is in the buffer, which is answered; or it is not, and nothing moves.
const FOUND: [Clause; 3] = [
    Clause::Sets(VALUE, -1, (NO, NO, NO, NO)),
    Clause::Wants(0, ((1, PLACE), NO, NO, NO)),
    Clause::Wants(0, ((1, Of::Was(SIZE)), (-1, PLACE), NO, NO)),
];

const BEFORE: [Clause; 2] = [
    Clause::Sets(VALUE, 0, (NO, NO, NO, NO)),
    Clause::Wants(-1, ((-1, PLACE), NO, NO, NO)),
];

const BEHIND: [Clause; 2] = [
    Clause::Sets(VALUE, 0, (NO, NO, NO, NO)),
    Clause::Wants(-1, ((1, PLACE), (-1, Of::Was(SIZE)), NO, NO)),
];

// The place that an argument names.
fn place(case: &Case, kind: Motion, taken: TakenForms, alloc: Global) -> Result<Form, RowFault>
    requires { IsToPlace kind }
    ensures { IfOk result (λ form. (n : ℕ) (v : Valuation) (s : Point) → IsTrueOf n v case.now s
        → value form n v ≡ target kind s.kept.pointer (value_if taken.value n v)) }
{
    let TakenForms {
        first: _first,
        value,
    } = taken;
    let by = match kind {
        Motion::To => argument(value, 0, alloc)?,
        _ => argument(value, 1, alloc)?,
    };
    let pointer = single(case, Single::Pointer, alloc)?;
    match kind {
        Motion::Forward => Ok(pointer.add(&by, alloc)?),
        Motion::Backward => Ok(pointer.sub(&by, alloc)?),
        _ => Ok(by),
    }
}

/// The conditions that a place is in the buffer.
pub fn in_buffer(case: &Case, place: &Form, alloc: Global) -> Result<Vec<Form>, RowFault>
    ensures { IfOk result (λ conditions. (n : ℕ) (v : Valuation) (s : Point) → IsTrueOf n v case.now s
        → All (Holds n v) conditions.items → IsPlace s.kept.text (value place.now n v)) }
{
    let size = single(case, Single::Size, alloc)?;
    let least = place.copied(alloc)?;
    let most = size.sub(place, alloc)?;
    let mut conditions = Vec::new(alloc);
    conditions.push(least)?;
    conditions.push(most)?;
    Ok(conditions)
}

/// The conditions that two places are in the buffer.
pub fn both_in_buffer(
    case: &Case,
    first: &Form,
    second: &Form,
    alloc: Global,
) -> Result<Vec<Form>, RowFault>
    ensures { IfOk result (λ conditions. (n : ℕ) (v : Valuation) (s : Point) → IsTrueOf n v case.now s
        → All (Holds n v) conditions.items
        → IsPlace s.kept.text (value first.now n v) × IsPlace s.kept.text (value second.now n v)) }
{
    let size = single(case, Single::Size, alloc)?;
    let least = copied(first, alloc)?;
    let most = size.sub(first, alloc)?;
    let other_least = copied(second, alloc)?;
    let other_most = size.sub(second, alloc)?;
    let mut conditions = Vec::new(alloc);
    conditions.push(least)?;
    conditions.push(most)?;
    conditions.push(other_least)?;
    conditions.push(other_most)?;
    Ok(conditions)
}

// Whether a constraint has the symbol of a term.
fn is_spoken_of(case: &Case, term: &Term) -> bool {
    match term.symbol {
        Some(symbol) => case.constraints.iter().any(|form| form
            .terms()
            .iter()
            .any(|other| other.symbol == Some(symbol))),
        None => true,
    }
}

/// Whether something is known of a measure.
pub fn is_known(case: &Case, which: Single) -> bool {
    match case.forms.get(Measure::One(which).place()) {
        Some(Some(form)) => form.terms().iter().all(|term| is_spoken_of(case, term)),
        _ => false,
    }
}

/// Whether a place is so far from the pointer, if that is plain, and more is known of what is passed then.
pub fn is_by(
    case: &Case,
    place: &Form,
    by: i128,
    which: Single,
    alloc: Global,
) -> Result<bool, RowFault>
    ensures { IfOk result (λ is_so. is_so ≡ true → (n : ℕ) (v : Valuation) (s : Point) → IsTrueOf n v case.now s
        → value place.now n v ≡ pos s.kept.pointer +ℤ by) }
{
    let pointer = single(case, Single::Pointer, alloc)?;
    let apart = place.sub(&pointer, alloc)?;
    Ok(is_number(&apart, by) && is_known(case, which))
}

// To the next character.
fn pass(
    case: &Case,
    place: Form,
    conditions: Vec<Form>,
    alloc: Global,
) -> Result<Outcomes, RowFault>
    ensures conditions { IfOk result (λ all. all.conditions.items ≡ conditions.items) }
    ensures passes { IfOk result (λ all. Passes place case.now all) }
{
    let here = at_level(case)?;
    let ways = [
        Way {
            answers: &[],
            does: &PASSES_END,
        },
        Way {
            answers: &[],
            does: &PASSES_LOW,
        },
        Way {
            answers: &[],
            does: &PASSES_HIGH,
        },
    ];
    let cases = commands(case, &ways, &[place], here, alloc)?;
    Ok(Outcomes {
        conditions,
        guarded: Vec::new(alloc),
        cases,
        away: Vec::new(alloc),
    })
}

// To the character before.
fn return_by_one(
    case: &Case,
    place: Form,
    conditions: Vec<Form>,
    alloc: Global,
) -> Result<Outcomes, RowFault>
    ensures conditions { IfOk result (λ all. all.conditions.items ≡ conditions.items) }
    ensures returns { IfOk result (λ all. Returns place case.now all) }
{
    let here = at_level(case)?;
    let ways = [
        Way {
            answers: &[],
            does: &RETURNS_END,
        },
        Way {
            answers: &[],
            does: &RETURNS_LOW,
        },
        Way {
            answers: &[],
            does: &RETURNS_HIGH,
        },
    ];
    let cases = commands(case, &ways, &[place], here, alloc)?;
    Ok(Outcomes {
        conditions,
        guarded: Vec::new(alloc),
        cases,
        away: Vec::new(alloc),
    })
}

// Without a colon the place must be in the buffer.
fn go_far(
    case: &Case,
    place: Form,
    conditions: Vec<Form>,
    alloc: Global,
) -> Result<Outcomes, RowFault>
    ensures conditions { IfOk result (λ all. all.conditions.items ≡ conditions.items) }
    ensures goes { IfOk result (λ all. GoesFar place case.now all) }
{
    let here = at_level(case)?;
    let ways = [
        Way {
            answers: &[],
            does: &AHEAD,
        },
        Way {
            answers: &[],
            does: &WITHIN,
        },
        Way {
            answers: &[],
            does: &BACK,
        },
    ];
    let cases = commands(case, &ways, &[place], here, alloc)?;
    Ok(Outcomes {
        conditions,
        guarded: Vec::new(alloc),
        cases,
        away: Vec::new(alloc),
    })
}

// By one character more is known, where something is known of it.
fn go(case: &Case, place: Form, alloc: Global) -> Result<Outcomes, RowFault>
    ensures { IfOk result (λ all. GoesTo 0 place case.now all) }
{
    let conditions = in_buffer(case, &place, alloc)?;
    if is_by(case, &place, 1, Single::CodeHere, alloc)? {
        let all = pass(case, place, conditions, alloc)?;
        return Ok(all);
    }
    if is_by(case, &place, -1, Single::CodeBefore, alloc)? {
        let all = return_by_one(case, place, conditions, alloc)?;
        return Ok(all);
    }
    let all = go_far(case, place, conditions, alloc)?;
    Ok(all)
}

// With a colon it answers whether the place is in the buffer.
fn try_to_go(case: &Case, place: Form, alloc: Global) -> Result<Outcomes, RowFault>
    ensures { IfOk result (λ all. GoesTo 1 place case.now all) }
{
    let here = at_level(case)?;
    let ways = [
        Way {
            answers: &FOUND,
            does: &AHEAD,
        },
        Way {
            answers: &FOUND,
            does: &WITHIN,
        },
        Way {
            answers: &FOUND,
            does: &BACK,
        },
        Way {
            answers: &BEFORE,
            does: &[],
        },
        Way {
            answers: &BEHIND,
            does: &[],
        },
    ];
    let cases = commands(case, &ways, &[place], here, alloc)?;
    let conditions = Vec::new(alloc);
    Ok(Outcomes {
        conditions,
        guarded: Vec::new(alloc),
        cases,
        away: Vec::new(alloc),
    })
}

/// `C`, `R` and `J` go to a place.
pub fn move_to(
    case: &Case,
    kind: Motion,
    has_colon: bool,
    taken: TakenForms,
    alloc: Global,
) -> Result<Outcomes, RowFault>
    requires { IsToPlace kind }
    ensures { IfOk result (λ all. (e : Element) → e.colons ≡ (if has_colon then 1 else 0)
        → Performs (motion kind e) taken case.now all) }
{
    let place = place(case, kind, taken, alloc)?;
    if has_colon {
        try_to_go(case, place, alloc)
    } else {
        go(case, place, alloc)
    }
}
