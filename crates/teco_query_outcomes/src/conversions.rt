//! What comes of `\`, which reads a number at the pointer, or writes one.
ghost use Rattle.std.specs.Prelude.{[], ℕ, IfOk, OnOk, slice_index_or};
ghost use Rattle.std.specs.List.{All};
ghost use Rattle.teco_query_outcomes.specs.Conversions.{AddsChanged, AddsGiven, AreBehindNumber, AreWithin, GivesAmong};
ghost use Rattle.teco_query_outcomes.specs.Conversions.{HasRoomFor, HasRoomWithin, IsBehindNumber, IsLeftBehind};
ghost use Rattle.teco_query_outcomes.specs.Conversions.{IsStanding};
ghost use Rattle.teco_query_outcomes.specs.Conversions.{IsWritten, IsWrittenAmong, ReadsNumber, WritesNumber};
ghost use Rattle.teco_query_outcomes.specs.Queries.{Asks};
ghost use Rattle.teco_rows.specs.Commands.{IsAtLevel};

use std::alloc::Global;
use teco_base::LIMIT;
use teco_linear::Form;
use teco_model::kind::Query;
use teco_motion_outcomes::changes::changed;
use teco_motion_outcomes::insertions::counted;
use teco_motion_outcomes::motions::{
    ANY_BEFORE, ANY_HERE, CODE_HERE, HELD, LINE_END, POINTER, SIZE, is_known,
};
use teco_rows::applied::copied_constraints;
use teco_rows::case::Case;
use teco_rows::commands::{Way, command};
use teco_rows::fault::RowFault;
use teco_rows::forms::{single, within_32_bits};
use teco_rows::levels::{NO, at_level, give_any, pending, waiting};
use teco_rows::measure::{Family, Single};
use teco_rows::outcomes::{Guarded, Outcomes};
use teco_rows::row::{Clause, Mark, Of, Places};

// Where the number ends.
const PLACE: Of = Of::Unknown(0);

// The number that is written, and how many characters it has.
const NUMBER: Of = Of::Given(0);

const LONG: Of = Of::Unknown(0);

// A number has no line end in it.
const READS: [Clause; 5] = [
    ANY_HERE,
    ANY_BEFORE,
    Clause::Sets(POINTER, 0, ((1, PLACE), NO, NO, NO)),
    Clause::Wants(0, ((1, PLACE), (-1, Of::Was(POINTER)), NO, NO)),
    Clause::Wants(0, ((1, Of::Was(LINE_END)), (-1, PLACE), NO, NO)),
];

// A number has a character at least where a digit is at the pointer.
const READS_DIGIT: [Clause; 7] = [
    ANY_HERE,
    ANY_BEFORE,
    Clause::Sets(POINTER, 0, ((1, PLACE), NO, NO, NO)),
    Clause::Wants(-1, ((1, PLACE), (-1, Of::Was(POINTER)), NO, NO)),
    Clause::Wants(0, ((1, Of::Was(LINE_END)), (-1, PLACE), NO, NO)),
    Clause::Wants(-49, ((1, Of::Was(CODE_HERE)), NO, NO, NO)),
    Clause::Wants(58, ((-1, Of::Was(CODE_HERE)), NO, NO, NO)),
];

// Where a character below the digits is there, or one above them.
const READS_LOW: [Clause; 6] = [
    ANY_HERE,
    ANY_BEFORE,
    Clause::Sets(POINTER, 0, ((1, PLACE), NO, NO, NO)),
    Clause::Wants(0, ((1, PLACE), (-1, Of::Was(POINTER)), NO, NO)),
    Clause::Wants(0, ((1, Of::Was(LINE_END)), (-1, PLACE), NO, NO)),
    Clause::Wants(48, ((-1, Of::Was(CODE_HERE)), NO, NO, NO)),
];

const READS_HIGH: [Clause; 6] = [
    ANY_HERE,
    ANY_BEFORE,
    Clause::Sets(POINTER, 0, ((1, PLACE), NO, NO, NO)),
    Clause::Wants(0, ((1, PLACE), (-1, Of::Was(POINTER)), NO, NO)),
    Clause::Wants(0, ((1, Of::Was(LINE_END)), (-1, PLACE), NO, NO)),
    Clause::Wants(-59, ((1, Of::Was(CODE_HERE)), NO, NO, NO)),
];

const MOVES: Clause = Clause::Sets(POINTER, 0, ((1, Of::Was(POINTER)), (1, LONG), NO, NO));

const LONGER: Clause = Clause::Sets(SIZE, 0, ((1, Of::Was(SIZE)), (1, LONG), NO, NO));

const MORE: Clause = Clause::Sets(HELD, 0, ((1, Of::Was(HELD)), (1, LONG), NO, NO));

const FURTHER: Clause = Clause::Sets(LINE_END, 0, ((1, Of::Was(LINE_END)), (1, LONG), NO, NO));

const LAST: Clause = Clause::Sets(Mark::One(Single::LastLength), 0, ((1, LONG), NO, NO, NO));

// The bounds of a number, and the most characters that one within them has.
#[derive(Clone, Copy)]
struct NumberSpan {
    least: i32,
    most: i32,
    long: u8,
}

const ONE: NumberSpan = NumberSpan {
    least: 0,
    most: 9,
    long: 1,
};

const FEW: NumberSpan = NumberSpan {
    least: 10,
    most: 999,
    long: 3,
};

const MANY: NumberSpan = NumberSpan {
    least: 1_000,
    most: 999_999_999,
    long: 9,
};

const MOST: NumberSpan = NumberSpan {
    least: 1_000_000_000,
    most: 2_147_483_647,
    long: 10,
};

const BELOW: NumberSpan = NumberSpan {
    least: -2_147_483_648,
    most: -1,
    long: 11,
};

// Each number of 32 bits is within the bounds of one of these.
const SPANS: [NumberSpan; 5] = [ONE, FEW, MANY, MOST, BELOW];

// The value that stands, if one does.
fn standing(case: &Case, alloc: Global) -> Result<Option<Form>, RowFault>
    ensures { IfOk result (λ form. IsStanding case.now form) }
{
    match waiting(case) {
        None => pending(case, Family::Value, alloc),
        Some(_) => Ok(None),
    }
}

// The case where the pointer is behind the number that it is at.
fn behind_number(case: &Case, alloc: Global) -> Result<Case, RowFault>
    ensures { IfOk result (λ made. IsBehindNumber case.now made) }
{
    changed(case, &READS, &[], alloc)
}

// Adds the case behind a row.
fn add_changed(
    case: &Case,
    row: &[Clause],
    cases: &mut Vec<Case>,
    alloc: Global,
) -> Result<(), RowFault>
    ensures { OnOk result (AddsChanged case.now row.now cases.old.items cases.new.items) }
{
    let made = changed(case, row, &[], alloc)?;
    cases.push(made)?;
    Ok(())
}

// The cases behind the number at the pointer: with a digit there, and below the digits and above.
fn behind_known(case: &Case, alloc: Global) -> Result<Vec<Case>, RowFault>
    ensures { IfOk result (λ cases. AreBehindNumber case.now cases.items) }
{
    let mut cases = Vec::new(alloc);
    add_changed(case, &READS_DIGIT, &mut cases, alloc)?;
    add_changed(case, &READS_LOW, &mut cases, alloc)?;
    add_changed(case, &READS_HIGH, &mut cases, alloc)?;
    Ok(cases)
}

// Adds the cases where some number is given.
fn add_given(case: &Case, cases: &mut Vec<Case>, alloc: Global) -> Result<(), RowFault>
    ensures { OnOk result (AddsGiven case.now cases.old.items cases.new.items) }
{
    let mut given = give_any(case, alloc)?;
    cases.append(&mut given.cases)?;
    Ok(())
}

// What comes of any of some cases where some number is given.
fn give_each(behind: &[Case], alloc: Global) -> Result<Outcomes, RowFault>
    ensures { IfOk result (λ all. All (GivesAmong all.cases.items) behind.now) }
{
    let mut cases = Vec::new(alloc);
    for case in behind {
        add_given(case, &mut cases, alloc)?;
    }
    Ok(Outcomes {
        conditions: Vec::new(alloc),
        guarded: Vec::new(alloc),
        cases,
        away: Vec::new(alloc),
    })
}

// The number at the pointer is given, where something is known of the character there.
fn read_known(case: &Case, alloc: Global) -> Result<Outcomes, RowFault>
    ensures { IfOk result (λ all. ReadsNumber case.now all) }
{
    let behind = behind_known(case, alloc)?;
    give_each(&behind, alloc)
}

// The number at the pointer, which is not known, is given.
fn read_number(case: &Case, alloc: Global) -> Result<Outcomes, RowFault>
    ensures { IfOk result (λ all. ReadsNumber case.now all) }
{
    if is_known(case, Single::CodeHere) {
        return read_known(case, alloc);
    }
    let behind = behind_number(case, alloc)?;
    give_any(&behind, alloc)
}

// The constraints of a case, and those that a number is within bounds.
fn bounded(
    case: &Case,
    number: &Form,
    span: NumberSpan,
    alloc: Global,
) -> Result<Vec<Form>, RowFault>
    ensures { IfOk result (λ constraints. AreWithin case.now number.now span constraints.items) }
{
    let least = Form::constant(i128::from(span.least), alloc)?;
    let most = Form::constant(i128::from(span.most), alloc)?;
    let above = number.sub(&least, alloc)?;
    let below = most.sub(number, alloc)?;
    let mut constraints = copied_constraints(&case.constraints, alloc)?;
    constraints.push(above)?;
    constraints.push(below)?;
    Ok(constraints)
}

// How many characters the buffer has room for when it has so many more.
fn left_behind(case: &Case, long: u8, alloc: Global) -> Result<Form, RowFault>
    ensures { IfOk result (λ left. IsLeftBehind case.now long left) }
{
    let size = single(case, Single::Size, alloc)?;
    let limit = counted(LIMIT, alloc)?;
    let more = counted(usize::from(long), alloc)?;
    let free = limit.sub(&size, alloc)?;
    let left = free.sub(&more, alloc)?;
    Ok(left)
}

// The condition that the buffer has room for a number, asked where that is within bounds.
fn room(case: &Case, number: &Form, span: NumberSpan, alloc: Global) -> Result<Guarded, RowFault>
    ensures { IfOk result (λ guarded. HasRoomFor case.now number.now span guarded) }
{
    let constraints = bounded(case, number, span, alloc)?;
    let wanted = left_behind(case, span.long, alloc)?;
    Ok(Guarded {
        symbols: case.symbols,
        constraints,
        wanted,
    })
}

// The conditions that it has, whatever the number.
fn rooms(case: &Case, number: &Form, alloc: Global) -> Result<Vec<Guarded>, RowFault>
    ensures { IfOk result (λ asked. All (HasRoomWithin case.now number.now asked.items) SPANS) }
{
    let mut asked = Vec::new(alloc);
    for span in &SPANS {
        asked.push(room(case, number, *span, alloc)?)?;
    }
    Ok(asked)
}

// The case behind a number within bounds that is inserted.
fn written(
    case: &Case,
    number: &[Form],
    span: NumberSpan,
    here: Places,
    alloc: Global,
) -> Result<Case, RowFault>
    requires level { IsAtLevel here case.now }
    ensures { IfOk result (λ after. IsWritten case.now (slice_index_or number.now 0 []) span after) }
{
    let row = [
        ANY_BEFORE,
        MOVES,
        LONGER,
        MORE,
        FURTHER,
        LAST,
        Clause::Wants(-i64::from(span.least), ((1, NUMBER), NO, NO, NO)),
        Clause::Wants(i64::from(span.most), ((-1, NUMBER), NO, NO, NO)),
        Clause::Wants(-1, ((1, LONG), NO, NO, NO)),
        Clause::Wants(i64::from(span.long), ((-1, LONG), NO, NO, NO)),
    ];
    let inserts = Way {
        answers: &[],
        does: &row,
    };
    command(case, &inserts, number, here, alloc)
}

// The cases behind it, by its bounds.
fn all_written(
    case: &Case,
    number: &[Form],
    here: Places,
    alloc: Global,
) -> Result<Vec<Case>, RowFault>
    requires level { IsAtLevel here case.now }
    ensures { IfOk result (λ cases. All (IsWrittenAmong case.now (slice_index_or number.now 0 []) cases.items) SPANS) }
{
    let mut cases = Vec::new(alloc);
    for span in &SPANS {
        cases.push(written(case, number, *span, here, alloc)?)?;
    }
    Ok(cases)
}

// A number is inserted in decimal, where it is one of 32 bits.
fn write_number(case: &Case, number: Form, alloc: Global) -> Result<Outcomes, RowFault>
    ensures { IfOk result (λ all. WritesNumber number case.now all) }
{
    let here = at_level(case)?;
    let conditions = within_32_bits(&number, alloc)?;
    let guarded = rooms(case, &number, alloc)?;
    let cases = all_written(case, &[number], here, alloc)?;
    Ok(Outcomes {
        conditions,
        guarded,
        cases,
        away: Vec::new(alloc),
    })
}

/// `\` gives the number at the pointer and goes behind it, or inserts the value that stands.
pub fn convert(case: &Case, alloc: Global) -> Result<Outcomes, RowFault>
    ensures { IfOk result (λ all. (colons : ℕ) → Asks Query.Conversion colons case.now all) }
{
    let value = standing(case, alloc)?;
    match value {
        Some(number) => write_number(case, number, alloc),
        None => read_number(case, alloc),
    }
}
