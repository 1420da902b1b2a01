//! What comes of `nA`, the code of a character of the buffer.
ghost use Rattle.std.specs.Prelude.{◌≡◌, IfOk, pos, negsuc};
ghost use Rattle.teco_model.specs.Element as model;
ghost use Rattle.teco_model.specs.declared.kind.Kind.TheVariants as kinds;
ghost use Rattle.teco_query_outcomes.specs.Characters.{AnswersCode, GivesCharacter};
ghost use Rattle.teco_flow_outcomes.specs.Law.{Law};

use crate::ways::any_way;
use std::alloc::Global;
use teco_linear::Form;
use teco_model::kind::Page;
use teco_motion_outcomes::motions::{CODE_BEFORE, CODE_HERE, LINE_END, LINE_START, POINTER, SIZE};
use teco_rows::case::Case;
use teco_rows::commands::{TakenForms, Way, take_arguments};
use teco_rows::fault::RowFault;
use teco_rows::forms::is_number;
use teco_rows::levels::{NO, VALUE};
use teco_rows::outcomes::Outcomes;
use teco_rows::row::{Clause, Of};

// How far from the pointer the character is, and its code.
const BY: Of = Of::Given(0);

const CODE: Of = Of::Unknown(0);

// In the buffer there is a character.
const INSIDE: [Clause; 5] = [
    Clause::Sets(VALUE, 0, ((1, CODE), NO, NO, NO)),
    Clause::Wants(0, ((1, CODE), NO, NO, NO)),
    Clause::Wants(255, ((-1, CODE), NO, NO, NO)),
    Clause::Wants(0, ((1, Of::Was(POINTER)), (1, BY), NO, NO)),
    Clause::Wants(
        -1,
        ((1, Of::Was(SIZE)), (-1, Of::Was(POINTER)), (-1, BY), NO),
    ),
];

// Before it and behind it there is none.
const BEFORE: [Clause; 2] = [
    Clause::Sets(VALUE, -1, (NO, NO, NO, NO)),
    Clause::Wants(-1, ((-1, Of::Was(POINTER)), (-1, BY), NO, NO)),
];

const BEHIND: [Clause; 2] = [
    Clause::Sets(VALUE, -1, (NO, NO, NO, NO)),
    Clause::Wants(0, ((1, Of::Was(POINTER)), (1, BY), (-1, Of::Was(SIZE)), NO)),
];

// At the start of the buffer none is before the pointer, and at its end none is at it.
const AT_FIRST: [Clause; 3] = [
    Clause::Wants(0, ((-1, Of::Was(CODE_BEFORE)), NO, NO, NO)),
    Clause::Sets(VALUE, -1, (NO, NO, NO, NO)),
    Clause::Wants(0, ((-1, Of::Was(POINTER)), NO, NO, NO)),
];

const AT_LAST: [Clause; 3] = [
    Clause::Wants(0, ((-1, Of::Was(CODE_HERE)), NO, NO, NO)),
    Clause::Sets(VALUE, -1, (NO, NO, NO, NO)),
    Clause::Wants(0, ((1, Of::Was(POINTER)), (-1, Of::Was(SIZE)), NO, NO)),
];

// The code of the character at the pointer is that of a line end, or below those, or above them.
const GIVES_HERE: Clause = Clause::Sets(VALUE, -1, ((1, Of::Was(CODE_HERE)), NO, NO, NO));

const ENDS_FROM_HERE: Clause = Clause::Wants(-11, ((1, Of::Was(CODE_HERE)), NO, NO, NO));

const ENDS_TO_HERE: Clause = Clause::Wants(13, ((-1, Of::Was(CODE_HERE)), NO, NO, NO));

const LOW_FROM_HERE: Clause = Clause::Wants(-1, ((1, Of::Was(CODE_HERE)), NO, NO, NO));

const LOW_TO_HERE: Clause = Clause::Wants(10, ((-1, Of::Was(CODE_HERE)), NO, NO, NO));

const HIGH_FROM_HERE: Clause = Clause::Wants(-14, ((1, Of::Was(CODE_HERE)), NO, NO, NO));

const HIGH_TO_HERE: Clause = Clause::Wants(256, ((-1, Of::Was(CODE_HERE)), NO, NO, NO));

// The code of the character before the pointer, likewise.
const GIVES_THERE: Clause = Clause::Sets(VALUE, -1, ((1, Of::Was(CODE_BEFORE)), NO, NO, NO));

const ENDS_FROM_THERE: Clause = Clause::Wants(-11, ((1, Of::Was(CODE_BEFORE)), NO, NO, NO));

const ENDS_TO_THERE: Clause = Clause::Wants(13, ((-1, Of::Was(CODE_BEFORE)), NO, NO, NO));

const LOW_FROM_THERE: Clause = Clause::Wants(-1, ((1, Of::Was(CODE_BEFORE)), NO, NO, NO));

const LOW_TO_THERE: Clause = Clause::Wants(10, ((-1, Of::Was(CODE_BEFORE)), NO, NO, NO));

const HIGH_FROM_THERE: Clause = Clause::Wants(-14, ((1, Of::Was(CODE_BEFORE)), NO, NO, NO));

const HIGH_TO_THERE: Clause = Clause::Wants(256, ((-1, Of::Was(CODE_BEFORE)), NO, NO, NO));

// A character is at the pointer, so its line ends behind it.
const AHEAD: Clause = Clause::Wants(-1, ((1, Of::Was(LINE_END)), (-1, Of::Was(POINTER)), NO, NO));

// It ends its line, or it does not.
const ENDS_HERE: [Clause; 5] = [
    GIVES_HERE,
    ENDS_FROM_HERE,
    ENDS_TO_HERE,
    AHEAD,
    Clause::Wants(1, ((-1, Of::Was(LINE_END)), (1, Of::Was(POINTER)), NO, NO)),
];

const LOW_HERE: [Clause; 4] = [GIVES_HERE, LOW_FROM_HERE, LOW_TO_HERE, AHEAD];

const HIGH_HERE: [Clause; 4] = [GIVES_HERE, HIGH_FROM_HERE, HIGH_TO_HERE, AHEAD];

// The character before the pointer ends its line, and the pointer's starts; or the line goes on.
const ENDS_THERE: [Clause; 5] = [
    GIVES_THERE,
    ENDS_FROM_THERE,
    ENDS_TO_THERE,
    Clause::Wants(-1, ((1, Of::Was(POINTER)), NO, NO, NO)),
    Clause::Wants(
        0,
        ((1, Of::Was(LINE_START)), (-1, Of::Was(POINTER)), NO, NO),
    ),
];

const SAME_LINE: Clause = Clause::Wants(
    -1,
    ((1, Of::Was(POINTER)), (-1, Of::Was(LINE_START)), NO, NO),
);

const LOW_THERE: [Clause; 4] = [GIVES_THERE, LOW_FROM_THERE, LOW_TO_THERE, SAME_LINE];

const HIGH_THERE: [Clause; 4] = [GIVES_THERE, HIGH_FROM_THERE, HIGH_TO_THERE, SAME_LINE];

// The code of the character at the pointer is answered, or -1. A line end says where the line ends.
fn character_here(case: &Case, alloc: Global) -> Result<Outcomes, RowFault>
    ensures { IfOk result (λ all. AnswersCode (pos 0) case.now all) }
{
    let ways = [
        Way {
            answers: &ENDS_HERE,
            does: &[],
        },
        Way {
            answers: &LOW_HERE,
            does: &[],
        },
        Way {
            answers: &HIGH_HERE,
            does: &[],
        },
        Way {
            answers: &AT_LAST,
            does: &[],
        },
    ];
    any_way(case, &ways, &[], alloc)
}

// So is that of the one before it. It says whether the line starts at the pointer.
fn character_before(case: &Case, alloc: Global) -> Result<Outcomes, RowFault>
    ensures { IfOk result (λ all. AnswersCode (negsuc 0) case.now all) }
{
    let ways = [
        Way {
            answers: &ENDS_THERE,
            does: &[],
        },
        Way {
            answers: &LOW_THERE,
            does: &[],
        },
        Way {
            answers: &HIGH_THERE,
            does: &[],
        },
        Way {
            answers: &AT_FIRST,
            does: &[],
        },
    ];
    any_way(case, &ways, &[], alloc)
}

// The code of a character so far from the pointer is answered, or -1.
fn character_at(case: &Case, by: Form, alloc: Global) -> Result<Outcomes, RowFault>
    ensures { IfOk result (λ all. GivesCharacter by case.now all) }
{
    let ways = [
        Way {
            answers: &INSIDE,
            does: &[],
        },
        Way {
            answers: &BEFORE,
            does: &[],
        },
        Way {
            answers: &BEHIND,
            does: &[],
        },
    ];
    any_way(case, &ways, &[by], alloc)
}

// The code of a character is answered; of those at the pointer and before it more is known.
fn answer_code(case: &Case, by: Form, alloc: Global) -> Result<Outcomes, RowFault>
    ensures { IfOk result (λ all. GivesCharacter by case.now all) }
{
    if is_number(&by, 0) {
        return character_here(case, alloc);
    }
    if is_number(&by, -1) {
        return character_before(case, alloc);
    }
    character_at(case, by, alloc)
}

/// `nA` answers the code of a character. What becomes of pages is told elsewhere, under a premise
/// on the files that are open.
pub fn turn_page(case: &Case, page: Page, alloc: Global) -> Result<Outcomes, RowFault>
    ensures { IfOk result (λ all. (e : model.Element) → e.kind ≡ kinds.Page page → Law e case.now all) }
{
    let taken = take_arguments(case, alloc)?;
    let TakenForms {
        first: _first,
        value,
    } = taken;
    match page {
        Page::Append => match value {
            Some(by) => answer_code(case, by, alloc),
            None => Err(RowFault::NotTold),
        },
        _ => Err(RowFault::NotTold),
    }
}
