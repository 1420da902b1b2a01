//! What comes of commands that store the text of a register.
ghost use Rattle.std.specs.Prelude.{◌≡◌, ℕ, IfOk, OnOk, pos};
ghost use Rattle.std.specs.List.{All};
ghost use Rattle.teco_linear.specs.Form.{Valuation, value};
ghost use Rattle.teco_linear.specs.Implied.{Holds};
ghost use Rattle.teco_model.specs.Element as model;
ghost use Rattle.teco_model.specs.Storage.{storage};
ghost use Rattle.teco_model.specs.declared.kind.Storage.TheVariants.{Copy, SetText};
ghost use Rattle.teco_command_outcomes.specs.Texts.{Copies, CopiesCount, CopiesCounted, CopiesLines, CopiesPart};
ghost use Rattle.teco_command_outcomes.specs.Texts.{Fits, HasRoomFor, IsRest};
ghost use Rattle.teco_rows.specs.Commands.{Performs};

use crate::storages::at_register;
use std::alloc::Global;
use teco_base::{LIMIT, Reg};
use teco_linear::Form;
use teco_model::Element;
use teco_motion_outcomes::insertions::counted;
use teco_motion_outcomes::motions::{LINE_END, LINE_START, POINTER, SIZE, both_in_buffer};
use teco_rows::case::Case;
use teco_rows::commands::{TakenForms, Way, argument, command, commands};
use teco_rows::fault::RowFault;
use teco_rows::forms::{is_number, length, single};
use teco_rows::levels::{NO, one};
use teco_rows::measure::{Family, Single};
use teco_rows::outcomes::Outcomes;
use teco_rows::row::{Clause, Mark, Of};

const LENGTH: Mark = Mark::Here(Family::Length);

// How much of the text stays, and the two ends of the part that comes behind it.
const REST: Of = Of::Given(0);

const FROM: Of = Of::Given(1);

const TO: Of = Of::Given(2);

// The other end where the pointer is one, by a number of lines.
const COUNT: Of = Of::Given(1);

const OTHER: Of = Of::Unknown(0);

// Two places.
#[derive(Drop)]
struct PlaceRange {
    first: Form,
    second: Form,
}

// The text is as long as is given.
const STORES: [Clause; 1] = [Clause::Sets(LENGTH, 0, ((1, REST), NO, NO, NO))];

// A part is copied, whose ends are in order, or are not.
const COPIES: [Clause; 2] = [
    Clause::Sets(LENGTH, 0, ((1, REST), (1, TO), (-1, FROM), NO)),
    Clause::Wants(0, ((1, TO), (-1, FROM), NO, NO)),
];

const COPIES_BACK: [Clause; 2] = [
    Clause::Sets(LENGTH, 0, ((1, REST), (1, FROM), (-1, TO), NO)),
    Clause::Wants(-1, ((1, FROM), (-1, TO), NO, NO)),
];

// Lines are copied, from the pointer on, or up to it.
const LINES: [Clause; 4] = [
    Clause::Sets(
        LENGTH,
        0,
        ((1, REST), (1, OTHER), (-1, Of::Was(POINTER)), NO),
    ),
    Clause::Wants(-1, ((1, COUNT), NO, NO, NO)),
    Clause::Wants(0, ((1, OTHER), (-1, Of::Was(LINE_END)), NO, NO)),
    Clause::Wants(0, ((1, Of::Was(SIZE)), (-1, OTHER), NO, NO)),
];

const LINES_BACK: [Clause; 4] = [
    Clause::Sets(
        LENGTH,
        0,
        ((1, REST), (1, Of::Was(POINTER)), (-1, OTHER), NO),
    ),
    Clause::Wants(0, ((-1, COUNT), NO, NO, NO)),
    Clause::Wants(0, ((1, OTHER), NO, NO, NO)),
    Clause::Wants(0, ((1, Of::Was(LINE_START)), (-1, OTHER), NO, NO)),
];

// How much of the text stays: all where the new text is appended, as with a colon, and else nothing.
fn rest(case: &Case, register: Reg, colons: u8, alloc: Global) -> Result<Form, RowFault>
    ensures { IfOk result (λ form. IsRest register colons case.now form) }
{
    if colons == 0 {
        return Ok(Form::zero(alloc));
    }
    length(case, register, alloc)
}

// The condition that a length is not above the limit.
fn fits(long: &Form, alloc: Global) -> Result<Form, RowFault>
    ensures { IfOk result (λ condition. (n : ℕ) (v : Valuation) → Holds n v condition → Fits (value long.now n v)) }
{
    let most = counted(LIMIT, alloc)?;
    let left = most.sub(long, alloc)?;
    Ok(left)
}

/// `^U` stores its text, or appends it with a colon.
pub fn set_text(
    case: &Case,
    register: Reg,
    element: &Element,
    taken: TakenForms,
    alloc: Global,
) -> Result<Outcomes, RowFault>
    ensures { IfOk result (λ all. Performs (storage (SetText register) (model.seen element.now)) taken case.now all) }
{
    let here = at_register(case, register)?;
    let TakenForms {
        first: _first,
        value,
    } = taken;
    if value.is_some() {
        return Err(RowFault::Argument);
    }
    let rest = rest(case, register, element.colons, alloc)?;
    let more = counted(element.text.len(), alloc)?;
    let long = rest.add(&more, alloc)?;
    let mut conditions = Vec::new(alloc);
    let condition = fits(&long, alloc)?;
    conditions.push(condition)?;
    let stores = Way {
        answers: &[],
        does: &STORES,
    };
    let after = command(case, &stores, &[long], here, alloc)?;
    one(after, conditions, alloc)
}

// The text is replaced by what stays of it and a part, which begins and ends at two places.
fn copy_between(
    case: &Case,
    register: Reg,
    given: &[Form],
    conditions: Vec<Form>,
    alloc: Global,
) -> Result<Outcomes, RowFault>
    ensures conditions { IfOk result (λ all. all.conditions.items ≡ conditions.items) }
    ensures copies { IfOk result (λ all. Copies register given.now case.now all) }
{
    let here = at_register(case, register)?;
    let ways = [
        Way {
            answers: &[],
            does: &COPIES,
        },
        Way {
            answers: &[],
            does: &COPIES_BACK,
        },
    ];
    let cases = commands(case, &ways, given, here, alloc)?;
    Ok(Outcomes {
        conditions,
        guarded: Vec::new(alloc),
        cases,
        away: Vec::new(alloc),
    })
}

// The part is as many lines as a number says.
fn copy_lines(
    case: &Case,
    register: Reg,
    given: &[Form],
    conditions: Vec<Form>,
    alloc: Global,
) -> Result<Outcomes, RowFault>
    ensures conditions { IfOk result (λ all. all.conditions.items ≡ conditions.items) }
    ensures copies { IfOk result (λ all. CopiesLines register given.now case.now all) }
{
    let here = at_register(case, register)?;
    let ways = [
        Way {
            answers: &[],
            does: &LINES,
        },
        Way {
            answers: &[],
            does: &LINES_BACK,
        },
    ];
    let cases = commands(case, &ways, given, here, alloc)?;
    Ok(Outcomes {
        conditions,
        guarded: Vec::new(alloc),
        cases,
        away: Vec::new(alloc),
    })
}

// Adds the conditions that what stays and a part between two places are not above the limit.
fn add_room(
    conditions: &mut Vec<Form>,
    rest: &Form,
    first: &Form,
    second: &Form,
    alloc: Global,
) -> Result<(), RowFault>
    ensures { OnOk result ((n : ℕ) (v : Valuation) → All (Holds n v) conditions.new.items
        → All (Holds n v) conditions.old.items
        × HasRoomFor (value rest.now n v) (value first.now n v) (value second.now n v)) }
{
    let apart = second.sub(first, alloc)?;
    let longer = rest.add(&apart, alloc)?;
    let shorter = rest.sub(&apart, alloc)?;
    let most = fits(&longer, alloc)?;
    let least = fits(&shorter, alloc)?;
    conditions.push(most)?;
    conditions.push(least)?;
    Ok(())
}

// `m,nX` copies the part between two places.
fn copy_part(
    case: &Case,
    register: Reg,
    colons: u8,
    taken: PlaceRange,
    alloc: Global,
) -> Result<Outcomes, RowFault>
    ensures { IfOk result (λ all. CopiesPart register colons taken.first taken.second case.now all) }
{
    let PlaceRange { first, second } = taken;
    let rest = rest(case, register, colons, alloc)?;
    let mut conditions = both_in_buffer(case, &first, &second, alloc)?;
    add_room(&mut conditions, &rest, &first, &second, alloc)?;
    let all = copy_between(case, register, &[rest, first, second], conditions, alloc)?;
    Ok(all)
}

// `X` copies up to the end of the line.
fn copy_line(case: &Case, register: Reg, colons: u8, alloc: Global) -> Result<Outcomes, RowFault>
    ensures { IfOk result (λ all. CopiesCount register colons (pos 1) case.now all) }
{
    let pointer = single(case, Single::Pointer, alloc)?;
    let end = single(case, Single::LineEnd, alloc)?;
    let rest = rest(case, register, colons, alloc)?;
    let mut conditions = Vec::new(alloc);
    add_room(&mut conditions, &rest, &pointer, &end, alloc)?;
    let all = copy_between(case, register, &[rest, pointer, end], conditions, alloc)?;
    Ok(all)
}

// `0X` copies back to its start.
fn copy_back(case: &Case, register: Reg, colons: u8, alloc: Global) -> Result<Outcomes, RowFault>
    ensures { IfOk result (λ all. CopiesCount register colons (pos 0) case.now all) }
{
    let pointer = single(case, Single::Pointer, alloc)?;
    let start = single(case, Single::LineStart, alloc)?;
    let rest = rest(case, register, colons, alloc)?;
    let mut conditions = Vec::new(alloc);
    add_room(&mut conditions, &rest, &pointer, &start, alloc)?;
    let all = copy_between(case, register, &[rest, pointer, start], conditions, alloc)?;
    Ok(all)
}

// `nX` copies lines.
fn copy_many(
    case: &Case,
    register: Reg,
    colons: u8,
    by: Form,
    alloc: Global,
) -> Result<Outcomes, RowFault>
    ensures { IfOk result (λ all. CopiesCounted register colons by case.now all) }
{
    let size = single(case, Single::Size, alloc)?;
    let rest = rest(case, register, colons, alloc)?;
    let most = rest.add(&size, alloc)?;
    let mut conditions = Vec::new(alloc);
    let condition = fits(&most, alloc)?;
    conditions.push(condition)?;
    let all = copy_lines(case, register, &[rest, by], conditions, alloc)?;
    Ok(all)
}

// So many lines are copied, by the end or the start of the line where it is one of them.
fn copy_counted(
    case: &Case,
    register: Reg,
    colons: u8,
    by: Form,
    alloc: Global,
) -> Result<Outcomes, RowFault>
    ensures { IfOk result (λ all. CopiesCounted register colons by case.now all) }
{
    if is_number(&by, 1) {
        return copy_line(case, register, colons, alloc);
    }
    if is_number(&by, 0) {
        return copy_back(case, register, colons, alloc);
    }
    copy_many(case, register, colons, by, alloc)
}

/// `X` copies lines or a part of the buffer, and `:X` appends them.
pub fn copy(
    case: &Case,
    register: Reg,
    colons: u8,
    taken: TakenForms,
    alloc: Global,
) -> Result<Outcomes, RowFault>
    ensures { IfOk result (λ all. (e : model.Element) → e.colons ≡ colons
        → Performs (storage (Copy register) e) taken case.now all) }
{
    let TakenForms { first, value } = taken;
    match first {
        Some(first) => match value {
            Some(second) => copy_part(case, register, colons, PlaceRange { first, second }, alloc),
            None => Err(RowFault::Argument),
        },
        None => {
            let by = argument(value, 1, alloc)?;
            copy_counted(case, register, colons, by, alloc)
        }
    }
}
