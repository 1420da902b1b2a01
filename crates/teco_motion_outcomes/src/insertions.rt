//! What comes of insertions of texts that are known.
ghost use Rattle.std.specs.Prelude.{◌≡◌, ℕ, ◌+◌, ◌<◌, ◌∷◌, IfOk, IfSome, pos, length as list_length};
ghost use Rattle.teco_base.specs.Arithmetic.{byte_of};
ghost use Rattle.teco_base.specs.Lines.{line_place};
ghost use Rattle.teco_base.specs.declared.bytes.TheConstants.{TAB};
ghost use Rattle.teco_linear.specs.Form.{Valuation, value};
ghost use Rattle.teco_model.specs.Element as model;
ghost use Rattle.teco_model.specs.Insertion.{insertion};
ghost use Rattle.teco_model.specs.Storage.{storage};
ghost use Rattle.teco_model.specs.declared.kind.Storage.TheVariants.{Get};
ghost use Rattle.teco_rows.specs.Commands.{Performs};
ghost use Rattle.teco_motion_outcomes.specs.Insertions.{HasRoom, Inserts, InsertsAny, InsertsByte, IsEndCode};

use crate::motions::{ANY_BEFORE, CODE_BEFORE, HELD, LINE_END, LINE_START, POINTER, SIZE};
use std::alloc::Global;
use teco_base::arithmetic::byte_of;
use teco_base::bytes::{TAB, is_line_end};
use teco_base::{LIMIT, Reg};
use teco_linear::Form;
use teco_model::kind::Insertion;
use teco_rows::case::Case;
use teco_rows::commands::{TakenForms, Way, commands};
use teco_rows::fault::RowFault;
use teco_rows::forms::{known, length, single};
use teco_rows::levels::{NO, at_level};
use teco_rows::measure::Single;
use teco_rows::outcomes::Outcomes;
use teco_rows::row::{Clause, Mark, Of};

// How long the new text is, and where its last line starts.
const LONG: Of = Of::Given(0);

const START: Of = Of::Given(1);

// One more than the code of its last character.
const END_CODE: Of = Of::Given(2);

const ENDS_WITH: Clause = Clause::Sets(CODE_BEFORE, 0, ((1, END_CODE), NO, NO, NO));

// Where the line starts behind it, if that is not known.
const BEGIN: Of = Of::Unknown(0);

const MOVES: Clause = Clause::Sets(POINTER, 0, ((1, Of::Was(POINTER)), (1, LONG), NO, NO));

const LONGER: Clause = Clause::Sets(SIZE, 0, ((1, Of::Was(SIZE)), (1, LONG), NO, NO));

const MORE: Clause = Clause::Sets(HELD, 0, ((1, Of::Was(HELD)), (1, LONG), NO, NO));

const FURTHER: Clause = Clause::Sets(LINE_END, 0, ((1, Of::Was(LINE_END)), (1, LONG), NO, NO));

const LAST: Clause = Clause::Sets(Mark::One(Single::LastLength), 0, ((1, LONG), NO, NO, NO));

// The text ends no line, and the line goes on.
const GOES_ON: [Clause; 7] = [
    ENDS_WITH,
    MOVES,
    LONGER,
    MORE,
    FURTHER,
    LAST,
    Clause::Wants(0, ((-1, START), NO, NO, NO)),
];

// The text ends a line, and its last line goes on.
const STARTS: [Clause; 8] = [
    ENDS_WITH,
    MOVES,
    LONGER,
    MORE,
    FURTHER,
    LAST,
    Clause::Sets(LINE_START, 0, ((1, Of::Was(POINTER)), (1, START), NO, NO)),
    Clause::Wants(-1, ((1, START), NO, NO, NO)),
];

// A text that is not known: its last line starts somewhere behind the start of the line.
const PUTS: [Clause; 9] = [
    ANY_BEFORE,
    MOVES,
    LONGER,
    MORE,
    FURTHER,
    LAST,
    Clause::Sets(LINE_START, 0, ((1, BEGIN), NO, NO, NO)),
    Clause::Wants(0, ((1, BEGIN), (-1, Of::Was(LINE_START)), NO, NO)),
    Clause::Wants(0, ((1, Of::Was(POINTER)), (1, LONG), (-1, BEGIN), NO)),
];

/// Where the last line of a text starts.
pub fn last_start(text: &[u8]) -> usize
    ensures { result ≡ line_place text.now (list_length text.now) (pos 0) }
{
    let mut start = 0;
    for place in 0..text.len() {
        start = start_behind(text, place, start);
    }
    start
}

// Where the line starts behind a character, before which it starts at a place.
fn start_behind(text: &[u8], place: usize, start: usize) -> usize
    requires inside { place < list_length text.now }
    requires start { start ≡ line_place text.now place (pos 0) }
    ensures { result ≡ line_place text.now (place + 1) (pos 0) }
{
    if is_line_end(text[place]) {
        place + 1
    } else {
        start
    }
}

/// The form of a number.
pub fn counted(number: usize, alloc: Global) -> Result<Form, RowFault>
    ensures { IfOk result (λ form. (n : ℕ) (v : Valuation) → value form n v ≡ pos number) }
{
    match u32::try_from(number) {
        Ok(number) => {
            let form = Form::constant(i128::from(number), alloc)?;
            Ok(form)
        }
        Err(_) => Err(RowFault::TooMany),
    }
}

// The condition that the buffer has room for so much.
fn room(case: &Case, long: &Form, alloc: Global) -> Result<Vec<Form>, RowFault>
    ensures { IfOk result (λ conditions. HasRoom long.now case.now conditions.items) }
{
    let size = single(case, Single::Size, alloc)?;
    let most = counted(LIMIT, alloc)?;
    let free = most.sub(&size, alloc)?;
    let left = free.sub(long, alloc)?;
    let mut conditions = Vec::new(alloc);
    conditions.push(left)?;
    Ok(conditions)
}

// One more than the code of the character before the pointer behind a text.
fn end_code(case: &Case, text: &[u8], alloc: Global) -> Result<Form, RowFault>
    ensures { IfOk result (λ form. IsEndCode text.now case.now form) }
{
    match text.last() {
        Some(code) => counted(usize::from(*code) + 1, alloc),
        None => single(case, Single::CodeBefore, alloc),
    }
}

// A text is inserted.
fn insert_text(case: &Case, text: &[u8], alloc: Global) -> Result<Outcomes, RowFault>
    ensures { IfOk result (λ all. Inserts text.now case.now all) }
{
    let here = at_level(case)?;
    let long = counted(text.len(), alloc)?;
    let start = counted(last_start(text), alloc)?;
    let end = end_code(case, text, alloc)?;
    let conditions = room(case, &long, alloc)?;
    let ways = [
        Way {
            answers: &[],
            does: &GOES_ON,
        },
        Way {
            answers: &[],
            does: &STARTS,
        },
    ];
    let cases = commands(case, &ways, &[long, start, end], here, alloc)?;
    Ok(Outcomes {
        conditions,
        guarded: Vec::new(alloc),
        cases,
        away: Vec::new(alloc),
    })
}

// TAB is inserted, and a text.
fn insert_tab(case: &Case, text: &[u8], alloc: Global) -> Result<Outcomes, RowFault>
    ensures { IfOk result (λ all. Inserts (TAB ∷ text.now) case.now all) }
{
    let mut new = Vec::new(alloc);
    new.push(TAB)?;
    new.extend_from_slice(text)?;
    insert_text(case, &new, alloc)
}

// The byte of a number, if that is plain.
fn known_byte(number: &Form) -> Option<u8>
    ensures { IfSome result (λ byte. (n : ℕ) (v : Valuation) → byte_of (value number.now n v) ≡ byte) }
{
    match i32::try_from(known(number)?) {
        Ok(number) => Some(byte_of(number)),
        Err(_) => None,
    }
}

// Some character is inserted.
fn insert_any(case: &Case, alloc: Global) -> Result<Outcomes, RowFault>
    ensures { IfOk result (λ all. InsertsAny case.now all) }
{
    let here = at_level(case)?;
    let long = counted(1, alloc)?;
    let conditions = room(case, &long, alloc)?;
    let ways = [Way {
        answers: &[],
        does: &PUTS,
    }];
    let cases = commands(case, &ways, &[long], here, alloc)?;
    Ok(Outcomes {
        conditions,
        guarded: Vec::new(alloc),
        cases,
        away: Vec::new(alloc),
    })
}

// The byte of a number is inserted.
fn insert_byte(case: &Case, number: &Form, alloc: Global) -> Result<Outcomes, RowFault>
    ensures { IfOk result (λ all. InsertsByte number.now case.now all) }
{
    match known_byte(number) {
        Some(byte) => insert_text(case, &[byte], alloc),
        None => insert_any(case, alloc),
    }
}

/// `I` and TAB insert a text, and `nI` without one the byte of a number.
pub fn insert(
    case: &Case,
    kind: Insertion,
    text: &[u8],
    taken: TakenForms,
    alloc: Global,
) -> Result<Outcomes, RowFault>
    ensures { IfOk result (λ all. (e : model.Element) → e.text ≡ text.now
        → Performs (insertion kind e) taken case.now all) }
{
    let TakenForms {
        first: _first,
        value,
    } = taken;
    match value {
        Some(number) => match kind {
            Insertion::Text => {
                if !text.is_empty() {
                    return Err(RowFault::Argument);
                }
                insert_byte(case, &number, alloc)
            }
            Insertion::Tab => Err(RowFault::Argument),
        },
        None => match kind {
            Insertion::Text => insert_text(case, text, alloc),
            Insertion::Tab => insert_tab(case, text, alloc),
        },
    }
}

/// `G` inserts the text of a register. `:G` is not told.
pub fn get(
    case: &Case,
    register: Reg,
    colons: u8,
    taken: TakenForms,
    alloc: Global,
) -> Result<Outcomes, RowFault>
    ensures { IfOk result (λ all. (e : model.Element) → e.colons ≡ colons
        → Performs (storage (Get register) e) taken case.now all) }
{
    let _taken = taken;
    if colons != 0 {
        return Err(RowFault::NotTold);
    }
    let here = at_level(case)?;
    let long = length(case, register, alloc)?;
    let conditions = room(case, &long, alloc)?;
    let ways = [Way {
        answers: &[],
        does: &PUTS,
    }];
    let cases = commands(case, &ways, &[long], here, alloc)?;
    Ok(Outcomes {
        conditions,
        guarded: Vec::new(alloc),
        cases,
        away: Vec::new(alloc),
    })
}
