//! What comes of deletions: the part of the buffer between two places goes.
ghost use Rattle.std.specs.Prelude.{◌≡◌, ℕ, IfOk, pos, negsuc, true};
ghost use Rattle.teco_linear.specs.Form.{Valuation, value};
ghost use Rattle.teco_model.specs.Deletion.{deletion};
ghost use Rattle.teco_rows.specs.Commands.{Performs};
ghost use Rattle.teco_command_outcomes.specs.Deletions.{CutsBy, CutsLines, CutsNext, CutsTo};
ghost use Rattle.teco_command_outcomes.specs.Deletions.{DeletesCharacters, DeletesLines};
ghost use Rattle.teco_command_outcomes.specs.Deletions.{DeletesPart};
ghost use Rattle.teco_rows.specs.States.{Point, IsTrueOf};

use crate::line_motions::is_negative;
use std::alloc::Global;
use teco_linear::Form;
use teco_model::kind::Unit;
use teco_motion_outcomes::motions::{
    ANY_BEFORE, ANY_HERE, CODE_HERE, HELD, LINE_END, LINE_START, POINTER, SIZE, both_in_buffer,
    in_buffer, is_by,
};
use teco_rows::case::Case;
use teco_rows::commands::{TakenForms, Way, argument, commands};
use teco_rows::fault::RowFault;
use teco_rows::forms::{is_number, single};
use teco_rows::levels::{NO, at_level};
use teco_rows::measure::Single;
use teco_rows::outcomes::Outcomes;
use teco_rows::row::{Clause, Of};

// The two places between which all goes.
const FROM: Of = Of::Given(0);

const TO: Of = Of::Given(1);

// What is not known behind: where the line ends and where it starts, and how long the buffer is.
const END: Of = Of::Unknown(0);

const OTHER: Of = Of::Unknown(1);

const REST: Of = Of::Unknown(2);

// How many lines.
const COUNT: Of = Of::Given(0);

// The first place is before the second.
const SHORTER: Clause = Clause::Sets(SIZE, 0, ((1, Of::Was(SIZE)), (1, FROM), (-1, TO), NO));

const LESS: Clause = Clause::Sets(HELD, 0, ((1, Of::Was(HELD)), (1, FROM), (-1, TO), NO));

const AT_FIRST: Clause = Clause::Sets(POINTER, 0, ((1, FROM), NO, NO, NO));

// The second is before the first.
const SHORTER_BACK: Clause = Clause::Sets(SIZE, 0, ((1, Of::Was(SIZE)), (-1, FROM), (1, TO), NO));

const LESS_BACK: Clause = Clause::Sets(HELD, 0, ((1, Of::Was(HELD)), (-1, FROM), (1, TO), NO));

const AT_SECOND: Clause = Clause::Sets(POINTER, 0, ((1, TO), NO, NO, NO));

const NEARER_BACK: Clause = Clause::Sets(
    LINE_END,
    0,
    ((1, Of::Was(LINE_END)), (-1, FROM), (1, TO), NO),
);

const ENDS: Clause = Clause::Sets(LINE_END, 0, ((1, END), NO, NO, NO));

const STARTS: Clause = Clause::Sets(LINE_START, 0, ((1, OTHER), NO, NO, NO));

// From the pointer on, within the line: its end comes nearer.
const CUTS: [Clause; 7] = [
    ANY_HERE,
    AT_FIRST,
    SHORTER,
    LESS,
    Clause::Sets(
        LINE_END,
        0,
        ((1, Of::Was(LINE_END)), (1, FROM), (-1, TO), NO),
    ),
    Clause::Wants(0, ((1, TO), (-1, FROM), NO, NO)),
    Clause::Wants(-1, ((1, Of::Was(LINE_END)), (-1, TO), NO, NO)),
];

// One character that ends no line: its end comes nearer.
const CUTS_LOW: [Clause; 8] = [
    ANY_HERE,
    AT_FIRST,
    SHORTER,
    LESS,
    Clause::Sets(
        LINE_END,
        0,
        ((1, Of::Was(LINE_END)), (1, FROM), (-1, TO), NO),
    ),
    Clause::Wants(0, ((1, Of::Was(LINE_END)), (-1, TO), NO, NO)),
    Clause::Wants(-1, ((1, Of::Was(CODE_HERE)), NO, NO, NO)),
    Clause::Wants(10, ((-1, Of::Was(CODE_HERE)), NO, NO, NO)),
];

const CUTS_HIGH: [Clause; 8] = [
    ANY_HERE,
    AT_FIRST,
    SHORTER,
    LESS,
    Clause::Sets(
        LINE_END,
        0,
        ((1, Of::Was(LINE_END)), (1, FROM), (-1, TO), NO),
    ),
    Clause::Wants(0, ((1, Of::Was(LINE_END)), (-1, TO), NO, NO)),
    Clause::Wants(-14, ((1, Of::Was(CODE_HERE)), NO, NO, NO)),
    Clause::Wants(256, ((-1, Of::Was(CODE_HERE)), NO, NO, NO)),
];

// One that ends a line.
const CUTS_END: [Clause; 10] = [
    ANY_HERE,
    AT_FIRST,
    SHORTER,
    LESS,
    ENDS,
    Clause::Wants(0, ((1, TO), (-1, Of::Was(LINE_END)), NO, NO)),
    Clause::Wants(0, ((1, END), (-1, FROM), NO, NO)),
    Clause::Wants(0, ((1, Of::Was(SIZE)), (1, FROM), (-1, TO), (-1, END))),
    Clause::Wants(-11, ((1, Of::Was(CODE_HERE)), NO, NO, NO)),
    Clause::Wants(13, ((-1, Of::Was(CODE_HERE)), NO, NO, NO)),
];

// Past its end: what is behind it follows.
const CUTS_PAST: [Clause; 8] = [
    ANY_HERE,
    AT_FIRST,
    SHORTER,
    LESS,
    ENDS,
    Clause::Wants(0, ((1, TO), (-1, Of::Was(LINE_END)), NO, NO)),
    Clause::Wants(0, ((1, END), (-1, FROM), NO, NO)),
    Clause::Wants(0, ((1, Of::Was(SIZE)), (1, FROM), (-1, TO), (-1, END))),
];

// Back from the pointer within the line: its start stays.
const CUTS_BACK: [Clause; 7] = [
    ANY_BEFORE,
    AT_SECOND,
    SHORTER_BACK,
    LESS_BACK,
    NEARER_BACK,
    Clause::Wants(-1, ((1, FROM), (-1, TO), NO, NO)),
    Clause::Wants(0, ((1, TO), (-1, Of::Was(LINE_START)), NO, NO)),
];

// Past its start: the line starts further back.
const CUTS_BACK_PAST: [Clause; 9] = [
    ANY_BEFORE,
    AT_SECOND,
    SHORTER_BACK,
    LESS_BACK,
    NEARER_BACK,
    STARTS,
    Clause::Wants(-1, ((1, Of::Was(LINE_START)), (-1, TO), NO, NO)),
    Clause::Wants(0, ((1, OTHER), NO, NO, NO)),
    Clause::Wants(0, ((1, TO), (-1, OTHER), NO, NO)),
];

// Anywhere, in the order of the places or not.
const PART: [Clause; 12] = [
    ANY_HERE,
    ANY_BEFORE,
    AT_FIRST,
    SHORTER,
    LESS,
    ENDS,
    STARTS,
    Clause::Wants(0, ((1, TO), (-1, FROM), NO, NO)),
    Clause::Wants(0, ((1, END), (-1, FROM), NO, NO)),
    Clause::Wants(0, ((1, Of::Was(SIZE)), (1, FROM), (-1, TO), (-1, END))),
    Clause::Wants(0, ((1, OTHER), NO, NO, NO)),
    Clause::Wants(0, ((1, FROM), (-1, OTHER), NO, NO)),
];

const PART_BACK: [Clause; 12] = [
    ANY_HERE,
    ANY_BEFORE,
    AT_SECOND,
    SHORTER_BACK,
    LESS_BACK,
    ENDS,
    STARTS,
    Clause::Wants(-1, ((1, FROM), (-1, TO), NO, NO)),
    Clause::Wants(0, ((1, END), (-1, TO), NO, NO)),
    Clause::Wants(0, ((1, Of::Was(SIZE)), (-1, FROM), (1, TO), (-1, END))),
    Clause::Wants(0, ((1, OTHER), NO, NO, NO)),
    Clause::Wants(0, ((1, TO), (-1, OTHER), NO, NO)),
];

// Lines ahead, from the pointer up to the end of its own at least.
const LINES: [Clause; 8] = [
    ANY_HERE,
    Clause::Sets(SIZE, 0, ((1, REST), NO, NO, NO)),
    Clause::Sets(
        HELD,
        0,
        ((1, Of::Was(HELD)), (-1, Of::Was(SIZE)), (1, REST), NO),
    ),
    ENDS,
    Clause::Wants(-1, ((1, COUNT), NO, NO, NO)),
    Clause::Wants(
        0,
        (
            (1, Of::Was(SIZE)),
            (1, Of::Was(POINTER)),
            (-1, Of::Was(LINE_END)),
            (-1, REST),
        ),
    ),
    Clause::Wants(0, ((1, END), (-1, Of::Was(POINTER)), NO, NO)),
    Clause::Wants(0, ((1, REST), (-1, END), NO, NO)),
];

// Lines back, from the pointer to the start of its own at least.
const LINES_BACK: [Clause; 9] = [
    ANY_BEFORE,
    Clause::Sets(POINTER, 0, ((1, OTHER), NO, NO, NO)),
    Clause::Sets(
        SIZE,
        0,
        ((1, Of::Was(SIZE)), (-1, Of::Was(POINTER)), (1, OTHER), NO),
    ),
    Clause::Sets(
        HELD,
        0,
        ((1, Of::Was(HELD)), (-1, Of::Was(POINTER)), (1, OTHER), NO),
    ),
    Clause::Sets(
        LINE_END,
        0,
        (
            (1, Of::Was(LINE_END)),
            (-1, Of::Was(POINTER)),
            (1, OTHER),
            NO,
        ),
    ),
    STARTS,
    Clause::Wants(0, ((-1, COUNT), NO, NO, NO)),
    Clause::Wants(0, ((1, OTHER), NO, NO, NO)),
    Clause::Wants(0, ((1, Of::Was(LINE_START)), (-1, OTHER), NO, NO)),
];

// The pointer's line to its end. At the end of the buffer there is none.
const KEEPS: [Clause; 1] = [Clause::Wants(0, ((1, Of::Was(POINTER)), (-1, Of::Was(SIZE)), NO, NO))];

const CUTS_LINE: [Clause; 7] = [
    ANY_HERE,
    Clause::Sets(
        SIZE,
        0,
        (
            (1, Of::Was(SIZE)),
            (1, Of::Was(POINTER)),
            (-1, Of::Was(LINE_END)),
            NO,
        ),
    ),
    Clause::Sets(
        HELD,
        0,
        (
            (1, Of::Was(HELD)),
            (1, Of::Was(POINTER)),
            (-1, Of::Was(LINE_END)),
            NO,
        ),
    ),
    ENDS,
    Clause::Wants(-1, ((1, Of::Was(LINE_END)), (-1, Of::Was(POINTER)), NO, NO)),
    Clause::Wants(0, ((1, END), (-1, Of::Was(POINTER)), NO, NO)),
    Clause::Wants(
        0,
        (
            (1, Of::Was(SIZE)),
            (1, Of::Was(POINTER)),
            (-1, Of::Was(LINE_END)),
            (-1, END),
        ),
    ),
];

// Lines back: in the first line to its start, and else up to where some line before starts.
const CUTS_TOP: [Clause; 6] = [
    ANY_BEFORE,
    Clause::Sets(POINTER, 0, (NO, NO, NO, NO)),
    Clause::Sets(
        SIZE,
        0,
        ((1, Of::Was(SIZE)), (-1, Of::Was(POINTER)), NO, NO),
    ),
    Clause::Sets(
        HELD,
        0,
        ((1, Of::Was(HELD)), (-1, Of::Was(POINTER)), NO, NO),
    ),
    Clause::Sets(
        LINE_END,
        0,
        ((1, Of::Was(LINE_END)), (-1, Of::Was(POINTER)), NO, NO),
    ),
    Clause::Wants(0, ((-1, Of::Was(LINE_START)), NO, NO, NO)),
];

const CUTS_UP: [Clause; 8] = [
    ANY_BEFORE,
    Clause::Sets(POINTER, 0, ((1, OTHER), NO, NO, NO)),
    Clause::Sets(
        SIZE,
        0,
        ((1, Of::Was(SIZE)), (-1, Of::Was(POINTER)), (1, OTHER), NO),
    ),
    Clause::Sets(
        HELD,
        0,
        ((1, Of::Was(HELD)), (-1, Of::Was(POINTER)), (1, OTHER), NO),
    ),
    Clause::Sets(
        LINE_END,
        0,
        (
            (1, Of::Was(LINE_END)),
            (-1, Of::Was(POINTER)),
            (1, OTHER),
            NO,
        ),
    ),
    STARTS,
    Clause::Wants(0, ((1, OTHER), NO, NO, NO)),
    Clause::Wants(-1, ((1, Of::Was(LINE_START)), (-1, OTHER), NO, NO)),
];

// The ways of one character ahead.
fn cut_next(
    case: &Case,
    place: Form,
    conditions: Vec<Form>,
    alloc: Global,
) -> Result<Outcomes, RowFault>
    ensures conditions { IfOk result (λ all. all.conditions.items ≡ conditions.items) }
    ensures cuts { IfOk result (λ all. CutsNext place case.now all) }
{
    let here = at_level(case)?;
    let pointer = single(case, Single::Pointer, alloc)?;
    let ways = [
        Way {
            answers: &[],
            does: &CUTS_END,
        },
        Way {
            answers: &[],
            does: &CUTS_LOW,
        },
        Way {
            answers: &[],
            does: &CUTS_HIGH,
        },
    ];
    let cases = commands(case, &ways, &[pointer, place], here, alloc)?;
    Ok(Outcomes {
        conditions,
        guarded: Vec::new(alloc),
        cases,
        away: Vec::new(alloc),
    })
}

// The ways of a part that begins or ends at the pointer, and the cases behind them.
fn cut_to(
    case: &Case,
    place: Form,
    conditions: Vec<Form>,
    alloc: Global,
) -> Result<Outcomes, RowFault>
    ensures conditions { IfOk result (λ all. all.conditions.items ≡ conditions.items) }
    ensures cuts { IfOk result (λ all. CutsTo place case.now all) }
{
    let here = at_level(case)?;
    let pointer = single(case, Single::Pointer, alloc)?;
    let ways = [
        Way {
            answers: &[],
            does: &CUTS,
        },
        Way {
            answers: &[],
            does: &CUTS_PAST,
        },
        Way {
            answers: &[],
            does: &CUTS_BACK,
        },
        Way {
            answers: &[],
            does: &CUTS_BACK_PAST,
        },
    ];
    let cases = commands(case, &ways, &[pointer, place], here, alloc)?;
    Ok(Outcomes {
        conditions,
        guarded: Vec::new(alloc),
        cases,
        away: Vec::new(alloc),
    })
}

// `D` deletes characters; too many are a code.
fn delete_characters(case: &Case, value: Option<Form>, alloc: Global) -> Result<Outcomes, RowFault>
    ensures { IfOk result (λ all. DeletesCharacters value case.now all) }
{
    let by = argument(value, 1, alloc)?;
    let pointer = single(case, Single::Pointer, alloc)?;
    let place = pointer.add(&by, alloc)?;
    let conditions = in_buffer(case, &place, alloc)?;
    if is_by(case, &place, 1, Single::CodeHere, alloc)? {
        let all = cut_next(case, place, conditions, alloc)?;
        return Ok(all);
    }
    let all = cut_to(case, place, conditions, alloc)?;
    Ok(all)
}

// As many lines as a form says.
fn cut_lines(case: &Case, by: Form, alloc: Global) -> Result<Outcomes, RowFault>
    ensures { IfOk result (λ all. CutsLines by case.now all) }
{
    let here = at_level(case)?;
    let ways = [
        Way {
            answers: &[],
            does: &LINES,
        },
        Way {
            answers: &[],
            does: &LINES_BACK,
        },
    ];
    let cases = commands(case, &ways, &[by], here, alloc)?;
    Ok(Outcomes {
        conditions: Vec::new(alloc),
        guarded: Vec::new(alloc),
        cases,
        away: Vec::new(alloc),
    })
}

// Up to the end of the line.
fn cut_line(case: &Case, alloc: Global) -> Result<Outcomes, RowFault>
    ensures { IfOk result (λ all. CutsBy (pos 1) case.now all) }
{
    let here = at_level(case)?;
    let ways = [
        Way {
            answers: &[],
            does: &KEEPS,
        },
        Way {
            answers: &[],
            does: &CUTS_LINE,
        },
    ];
    let cases = commands(case, &ways, &[], here, alloc)?;
    Ok(Outcomes {
        conditions: Vec::new(alloc),
        guarded: Vec::new(alloc),
        cases,
        away: Vec::new(alloc),
    })
}

// Any number of lines back.
fn cut_back(case: &Case, alloc: Global) -> Result<Outcomes, RowFault>
    ensures { IfOk result (λ all. (m : ℕ) → CutsBy (negsuc m) case.now all) }
{
    let here = at_level(case)?;
    let ways = [
        Way {
            answers: &[],
            does: &CUTS_TOP,
        },
        Way {
            answers: &[],
            does: &CUTS_UP,
        },
    ];
    let cases = commands(case, &ways, &[], here, alloc)?;
    Ok(Outcomes {
        conditions: Vec::new(alloc),
        guarded: Vec::new(alloc),
        cases,
        away: Vec::new(alloc),
    })
}

// `K` deletes up to the end of the line, `0K` back to its start, and `-K` lines before.
fn delete_lines(case: &Case, value: Option<Form>, alloc: Global) -> Result<Outcomes, RowFault>
    ensures { IfOk result (λ all. DeletesLines value case.now all) }
{
    let by = argument(value, 1, alloc)?;
    if is_number(&by, 1) {
        let all = cut_line(case, alloc)?;
        return Ok(all);
    }
    if is_negative(&by) {
        let all = cut_back(case, alloc)?;
        return Ok(all);
    }
    if is_number(&by, 0) {
        let start = single(case, Single::LineStart, alloc)?;
        let all = cut_to(case, start, Vec::new(alloc), alloc)?;
        return Ok(all);
    }
    let all = cut_lines(case, by, alloc)?;
    Ok(all)
}

// A part between any two places.
fn cut_between(case: &Case, first: Form, second: Form, alloc: Global) -> Result<Outcomes, RowFault>
    ensures { IfOk result (λ all. DeletesPart first second case.now all) }
{
    let here = at_level(case)?;
    let conditions = both_in_buffer(case, &first, &second, alloc)?;
    let ways = [
        Way {
            answers: &[],
            does: &PART,
        },
        Way {
            answers: &[],
            does: &PART_BACK,
        },
    ];
    let cases = commands(case, &ways, &[first, second], here, alloc)?;
    Ok(Outcomes {
        conditions,
        guarded: Vec::new(alloc),
        cases,
        away: Vec::new(alloc),
    })
}

// Whether a form is that of the pointer.
fn is_pointer(case: &Case, form: &Form, alloc: Global) -> Result<bool, RowFault>
    ensures { IfOk result (λ answer. answer ≡ true → (n : ℕ) (v : Valuation) (s : Point) → IsTrueOf n v case.now s
        → value form.now n v ≡ pos s.kept.pointer) }
{
    let pointer = single(case, Single::Pointer, alloc)?;
    let apart = form.sub(&pointer, alloc)?;
    Ok(is_number(&apart, 0))
}

// `m,nK` deletes a part; one end of it is mostly the pointer.
fn delete_part(case: &Case, first: Form, second: Form, alloc: Global) -> Result<Outcomes, RowFault>
    ensures { IfOk result (λ all. DeletesPart first second case.now all) }
{
    if is_pointer(case, &second, alloc)? {
        let conditions = in_buffer(case, &first, alloc)?;
        let all = cut_to(case, first, conditions, alloc)?;
        return Ok(all);
    }
    if is_pointer(case, &first, alloc)? {
        let conditions = in_buffer(case, &second, alloc)?;
        let all = cut_to(case, second, conditions, alloc)?;
        return Ok(all);
    }
    cut_between(case, first, second, alloc)
}

/// `D` deletes characters, and `K` lines; with two values either deletes the part between them.
pub fn delete(
    case: &Case,
    unit: Unit,
    taken: TakenForms,
    alloc: Global,
) -> Result<Outcomes, RowFault>
    ensures { IfOk result (λ all. Performs (deletion unit) taken case.now all) }
{
    let TakenForms { first, value } = taken;
    match first {
        Some(first) => match value {
            Some(second) => delete_part(case, first, second, alloc),
            None => Err(RowFault::Argument),
        },
        None => match unit {
            Unit::Characters => delete_characters(case, value, alloc),
            Unit::Lines => delete_lines(case, value, alloc),
        },
    }
}
