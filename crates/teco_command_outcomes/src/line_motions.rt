//! What comes of motions by lines.
ghost use Rattle.std.specs.Prelude.{◌≡◌, ◌≤ℤ◌, ℕ, IfOk, pos, negsuc, true};
ghost use Rattle.teco_linear.specs.Form.{Valuation, value};
ghost use Rattle.teco_model.specs.Element.{Element};
ghost use Rattle.teco_model.specs.Motion.{motion};
ghost use Rattle.teco_model.specs.declared.kind.Motion.TheVariants.{Lines};
ghost use Rattle.teco_rows.specs.Commands.{Performs};
ghost use Rattle.teco_command_outcomes.specs.LineMotions.{GoesBy, GoesLines};

use std::alloc::Global;
use teco_linear::Form;
use teco_motion_outcomes::motions::{ANY_BEFORE, ANY_HERE, LINE_END, LINE_START, POINTER, SIZE};
use teco_rows::case::Case;
use teco_rows::commands::{TakenForms, Way, argument, commands};
use teco_rows::fault::RowFault;
use teco_rows::forms::{is_number, known};
use teco_rows::levels::{NO, at_level};
use teco_rows::outcomes::Outcomes;
use teco_rows::row::{Clause, Of};

// What is not known: where the line ends, the place itself, and where the line starts.
const END: Of = Of::Unknown(0);

const PLACE: Of = Of::Unknown(1);

const START: Of = Of::Unknown(2);

// How many lines.
const BY: Of = Of::Given(0);

const ENDS: Clause = Clause::Sets(LINE_END, 0, ((1, END), NO, NO, NO));

// At the end of the buffer nothing moves.
const STAYS: [Clause; 1] = [Clause::Wants(0, ((1, Of::Was(POINTER)), (-1, Of::Was(SIZE)), NO, NO))];

// To the start of the next line.
const STEPS: [Clause; 8] = [
    ANY_HERE,
    ANY_BEFORE,
    Clause::Sets(POINTER, 0, ((1, Of::Was(LINE_END)), NO, NO, NO)),
    ENDS,
    Clause::Sets(LINE_START, 0, ((1, Of::Was(LINE_END)), NO, NO, NO)),
    Clause::Wants(-1, ((1, Of::Was(LINE_END)), (-1, Of::Was(POINTER)), NO, NO)),
    Clause::Wants(0, ((1, END), (-1, Of::Was(LINE_END)), NO, NO)),
    Clause::Wants(0, ((1, Of::Was(SIZE)), (-1, END), NO, NO)),
];

// To the end of the buffer, which ends no line.
const LAST: [Clause; 5] = [
    ANY_HERE,
    ANY_BEFORE,
    Clause::Sets(POINTER, 0, ((1, Of::Was(SIZE)), NO, NO, NO)),
    Clause::Wants(-1, ((1, Of::Was(SIZE)), (-1, Of::Was(POINTER)), NO, NO)),
    Clause::Wants(0, ((1, Of::Was(LINE_END)), (-1, Of::Was(SIZE)), NO, NO)),
];

// To the start of the line.
const STARTS: [Clause; 3] = [
    ANY_HERE,
    ANY_BEFORE,
    Clause::Sets(POINTER, 0, ((1, Of::Was(LINE_START)), NO, NO, NO)),
];

// To some line ahead, or back.
const AHEAD: [Clause; 11] = [
    ANY_HERE,
    ANY_BEFORE,
    Clause::Sets(POINTER, 0, ((1, PLACE), NO, NO, NO)),
    ENDS,
    Clause::Sets(LINE_START, 0, ((1, START), NO, NO, NO)),
    Clause::Wants(-1, ((1, BY), NO, NO, NO)),
    Clause::Wants(0, ((1, PLACE), (-1, Of::Was(LINE_END)), NO, NO)),
    Clause::Wants(0, ((1, END), (-1, PLACE), NO, NO)),
    Clause::Wants(0, ((1, Of::Was(SIZE)), (-1, END), NO, NO)),
    Clause::Wants(0, ((1, START), (-1, Of::Was(LINE_START)), NO, NO)),
    Clause::Wants(0, ((1, PLACE), (-1, START), NO, NO)),
];

const BACK: [Clause; 10] = [
    ANY_HERE,
    ANY_BEFORE,
    Clause::Sets(POINTER, 0, ((1, PLACE), NO, NO, NO)),
    ENDS,
    Clause::Sets(LINE_START, 0, ((1, PLACE), NO, NO, NO)),
    Clause::Wants(0, ((-1, BY), NO, NO, NO)),
    Clause::Wants(0, ((1, PLACE), NO, NO, NO)),
    Clause::Wants(0, ((1, Of::Was(LINE_START)), (-1, PLACE), NO, NO)),
    Clause::Wants(0, ((1, END), (-1, PLACE), NO, NO)),
    Clause::Wants(0, ((1, Of::Was(LINE_END)), (-1, END), NO, NO)),
];

// From the first line to its start.
const TOP: [Clause; 4] = [
    ANY_HERE,
    ANY_BEFORE,
    Clause::Sets(POINTER, 0, (NO, NO, NO, NO)),
    Clause::Wants(0, ((-1, Of::Was(LINE_START)), NO, NO, NO)),
];

// To the line before, which ends where this one starts.
const UP_ONE: [Clause; 7] = [
    ANY_HERE,
    ANY_BEFORE,
    Clause::Sets(POINTER, 0, ((1, PLACE), NO, NO, NO)),
    Clause::Sets(LINE_END, 0, ((1, Of::Was(LINE_START)), NO, NO, NO)),
    Clause::Sets(LINE_START, 0, ((1, PLACE), NO, NO, NO)),
    Clause::Wants(0, ((1, PLACE), NO, NO, NO)),
    Clause::Wants(-1, ((1, Of::Was(LINE_START)), (-1, PLACE), NO, NO)),
];

// To some line before.
const UP: [Clause; 9] = [
    ANY_HERE,
    ANY_BEFORE,
    Clause::Sets(POINTER, 0, ((1, PLACE), NO, NO, NO)),
    ENDS,
    Clause::Sets(LINE_START, 0, ((1, PLACE), NO, NO, NO)),
    Clause::Wants(0, ((1, PLACE), NO, NO, NO)),
    Clause::Wants(-1, ((1, Of::Was(LINE_START)), (-1, PLACE), NO, NO)),
    Clause::Wants(-1, ((1, END), (-1, PLACE), NO, NO)),
    Clause::Wants(0, ((1, Of::Was(LINE_START)), (-1, END), NO, NO)),
];

// To the next line.
fn next_line(case: &Case, alloc: Global) -> Result<Outcomes, RowFault>
    ensures { IfOk result (λ all. GoesBy (pos 1) case.now all) }
{
    let here = at_level(case)?;
    let ways = [
        Way {
            answers: &[],
            does: &STAYS,
        },
        Way {
            answers: &[],
            does: &STEPS,
        },
        Way {
            answers: &[],
            does: &LAST,
        },
    ];
    let cases = commands(case, &ways, &[], here, alloc)?;
    Ok(Outcomes {
        conditions: Vec::new(alloc),
        guarded: Vec::new(alloc),
        cases,
        away: Vec::new(alloc),
    })
}

// To the start of the line.
fn line_start(case: &Case, alloc: Global) -> Result<Outcomes, RowFault>
    ensures { IfOk result (λ all. GoesBy (pos 0) case.now all) }
{
    let here = at_level(case)?;
    let ways = [Way {
        answers: &[],
        does: &STARTS,
    }];
    let cases = commands(case, &ways, &[], here, alloc)?;
    Ok(Outcomes {
        conditions: Vec::new(alloc),
        guarded: Vec::new(alloc),
        cases,
        away: Vec::new(alloc),
    })
}

// To the line before.
fn line_before(case: &Case, alloc: Global) -> Result<Outcomes, RowFault>
    ensures { IfOk result (λ all. GoesBy (negsuc 0) case.now all) }
{
    let here = at_level(case)?;
    let ways = [
        Way {
            answers: &[],
            does: &TOP,
        },
        Way {
            answers: &[],
            does: &UP_ONE,
        },
    ];
    let cases = commands(case, &ways, &[], here, alloc)?;
    Ok(Outcomes {
        conditions: Vec::new(alloc),
        guarded: Vec::new(alloc),
        cases,
        away: Vec::new(alloc),
    })
}

// By any number of lines back.
fn lines_before(case: &Case, alloc: Global) -> Result<Outcomes, RowFault>
    ensures { IfOk result (λ all. (m : ℕ) → GoesBy (negsuc m) case.now all) }
{
    let here = at_level(case)?;
    let ways = [
        Way {
            answers: &[],
            does: &TOP,
        },
        Way {
            answers: &[],
            does: &UP,
        },
    ];
    let cases = commands(case, &ways, &[], here, alloc)?;
    Ok(Outcomes {
        conditions: Vec::new(alloc),
        guarded: Vec::new(alloc),
        cases,
        away: Vec::new(alloc),
    })
}

// By as many lines as a form says.
fn by_lines(case: &Case, by: Form, alloc: Global) -> Result<Outcomes, RowFault>
    ensures { IfOk result (λ all. GoesLines by case.now all) }
{
    let here = at_level(case)?;
    let ways = [
        Way {
            answers: &[],
            does: &AHEAD,
        },
        Way {
            answers: &[],
            does: &BACK,
        },
    ];
    let cases = commands(case, &ways, &[by], here, alloc)?;
    Ok(Outcomes {
        conditions: Vec::new(alloc),
        guarded: Vec::new(alloc),
        cases,
        away: Vec::new(alloc),
    })
}

/// Whether a form is always below 0, as far as that is plain.
pub fn is_negative(form: &Form) -> bool
    ensures { result ≡ true → (n : ℕ) (v : Valuation) → value form.now n v ≤ℤ negsuc 0 }
{
    match known(form) {
        Some(number) => number < 0,
        None => false,
    }
}

/// `L` goes by lines.
pub fn move_lines(case: &Case, taken: TakenForms, alloc: Global) -> Result<Outcomes, RowFault>
    ensures { IfOk result (λ all. (e : Element) → Performs (motion Lines e) taken case.now all) }
{
    let TakenForms {
        first: _first,
        value,
    } = taken;
    let by = argument(value, 1, alloc)?;
    if is_number(&by, 1) {
        return next_line(case, alloc);
    }
    if is_number(&by, 0) {
        return line_start(case, alloc);
    }
    if is_number(&by, -1) {
        return line_before(case, alloc);
    }
    if is_negative(&by) {
        return lines_before(case, alloc);
    }
    by_lines(case, by, alloc)
}
