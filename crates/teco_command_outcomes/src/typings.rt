//! What comes of commands that type: so many bytes more are typed.
ghost use Rattle.std.specs.Prelude.{◌≡◌, IfOk};
ghost use Rattle.teco_model.specs.Element as model;
ghost use Rattle.teco_model.specs.Storage.{storage};
ghost use Rattle.teco_model.specs.Typing.{typing};
ghost use Rattle.teco_model.specs.declared.kind.Storage.TheVariants.{Get};
ghost use Rattle.teco_command_outcomes.specs.Typings.{IsLong, CountsLines, CountsView, Types, TypesByte, TypesLines};
ghost use Rattle.teco_command_outcomes.specs.Typings.{TypesNumber, TypesPart, TypesText, TypesView};
ghost use Rattle.teco_rows.specs.Commands.{Performs};

use std::alloc::Global;
use teco_base::Reg;
use teco_linear::Form;
use teco_model::Element;
use teco_model::kind::{Radix, Typing};
use teco_motion_outcomes::insertions::counted;
use teco_motion_outcomes::motions::both_in_buffer;
use teco_rows::case::Case;
use teco_rows::commands::{TakenForms, Way, argument, command, commands};
use teco_rows::fault::RowFault;
use teco_rows::forms::{is_number, length, single, within_32_bits};
use teco_rows::levels::{NO, at_level, one};
use teco_rows::measure::Single;
use teco_rows::outcomes::Outcomes;
use teco_rows::row::{Clause, Mark, Of};

/// How many bytes are typed: what a form is, or at most that.
#[derive(Drop)]
pub enum TypedCount {
    /// As many as the form is.
    Exactly(Form),
    /// At most as many.
    AtMost(Form),
}

const TYPED: Mark = Mark::One(Single::Typed);

// How many bytes, or how many at most, and how many there are then.
const COUNT: Of = Of::Given(0);

const SOME: Of = Of::Unknown(0);

// The two ends of a part.
const FROM: Of = Of::Given(0);

const TO: Of = Of::Given(1);

// So many bytes are typed.
const TYPES: [Clause; 1] = [Clause::Sets(TYPED, 0, ((1, Of::Was(TYPED)), (1, COUNT), NO, NO))];

// At most so many are.
const TYPES_SOME: [Clause; 3] = [
    Clause::Sets(TYPED, 0, ((1, Of::Was(TYPED)), (1, SOME), NO, NO)),
    Clause::Wants(0, ((1, SOME), NO, NO, NO)),
    Clause::Wants(0, ((1, COUNT), (-1, SOME), NO, NO)),
];

// A part is typed, whose ends are in order, or are not.
const TYPES_PART: [Clause; 2] = [
    Clause::Sets(TYPED, 0, ((1, Of::Was(TYPED)), (1, TO), (-1, FROM), NO)),
    Clause::Wants(0, ((1, TO), (-1, FROM), NO, NO)),
];

const TYPES_BACK: [Clause; 2] = [
    Clause::Sets(TYPED, 0, ((1, Of::Was(TYPED)), (1, FROM), (-1, TO), NO)),
    Clause::Wants(-1, ((1, FROM), (-1, TO), NO, NO)),
];

// The case a step later, where the arguments are taken and so many bytes are typed.
fn typed(
    case: &Case,
    count: TypedCount,
    conditions: Vec<Form>,
    alloc: Global,
) -> Result<Outcomes, RowFault>
    ensures conditions { IfOk result (λ all. all.conditions.items ≡ conditions.items) }
    ensures types { IfOk result (λ all. Types count case.now all) }
{
    let here = at_level(case)?;
    match count {
        TypedCount::Exactly(form) => {
            let types = Way {
                answers: &[],
                does: &TYPES,
            };
            let after = command(case, &types, &[form], here, alloc)?;
            one(after, conditions, alloc)
        }
        TypedCount::AtMost(form) => {
            let types = Way {
                answers: &[],
                does: &TYPES_SOME,
            };
            let after = command(case, &types, &[form], here, alloc)?;
            one(after, conditions, alloc)
        }
    }
}

// `m,nT` types the part between two places.
fn type_part(case: &Case, first: Form, second: Form, alloc: Global) -> Result<Outcomes, RowFault>
    ensures { IfOk result (λ all. TypesPart first second case.now all) }
{
    let here = at_level(case)?;
    let conditions = both_in_buffer(case, &first, &second, alloc)?;
    let ways = [
        Way {
            answers: &[],
            does: &TYPES_PART,
        },
        Way {
            answers: &[],
            does: &TYPES_BACK,
        },
    ];
    let cases = commands(case, &ways, &[first, second], here, alloc)?;
    Ok(Outcomes {
        conditions,
        guarded: Vec::new(alloc),
        cases,
        away: Vec::new(alloc),
    })
}

// How many characters so many lines have: one of them ends with the line, none begins with it, and
// others are in the buffer.
fn count_lines(case: &Case, by: &Form, alloc: Global) -> Result<TypedCount, RowFault>
    ensures { IfOk result (λ count. CountsLines by.now case.now count) }
{
    let pointer = single(case, Single::Pointer, alloc)?;
    if is_number(by, 1) {
        let end = single(case, Single::LineEnd, alloc)?;
        let form = end.sub(&pointer, alloc)?;
        return Ok(TypedCount::Exactly(form));
    }
    if is_number(by, 0) {
        let start = single(case, Single::LineStart, alloc)?;
        let form = pointer.sub(&start, alloc)?;
        return Ok(TypedCount::Exactly(form));
    }
    let size = single(case, Single::Size, alloc)?;
    Ok(TypedCount::AtMost(size))
}

// How many they have that are in view: those of the pointer's line, or of more lines.
fn count_view(case: &Case, by: &Form, alloc: Global) -> Result<TypedCount, RowFault>
    ensures { IfOk result (λ count. CountsView by.now case.now count) }
{
    if is_number(by, 1) {
        let start = single(case, Single::LineStart, alloc)?;
        let end = single(case, Single::LineEnd, alloc)?;
        let form = end.sub(&start, alloc)?;
        return Ok(TypedCount::Exactly(form));
    }
    let size = single(case, Single::Size, alloc)?;
    Ok(TypedCount::AtMost(size))
}

// `nT` types lines.
fn type_lines(case: &Case, by: &Form, alloc: Global) -> Result<Outcomes, RowFault>
    ensures { IfOk result (λ all. TypesLines by.now case.now all) }
{
    let count = count_lines(case, by, alloc)?;
    let all = typed(case, count, Vec::new(alloc), alloc)?;
    Ok(all)
}

// `nV` types those before the pointer too.
fn type_view(case: &Case, by: &Form, alloc: Global) -> Result<Outcomes, RowFault>
    ensures { IfOk result (λ all. TypesView by.now case.now all) }
{
    let count = count_view(case, by, alloc)?;
    let all = typed(case, count, Vec::new(alloc), alloc)?;
    Ok(all)
}

// `^A` types its text.
fn type_message(case: &Case, text: &[u8], alloc: Global) -> Result<Outcomes, RowFault>
    ensures { IfOk result (λ all. TypesText text.now case.now all) }
{
    let form = counted(text.len(), alloc)?;
    let all = typed(case, TypedCount::Exactly(form), Vec::new(alloc), alloc)?;
    Ok(all)
}

// `^T` types a byte, whose number has to be there.
fn type_byte(case: &Case, value: &Option<Form>, alloc: Global) -> Result<Outcomes, RowFault>
    ensures { IfOk result (λ all. TypesByte value.now case.now all) }
{
    if value.is_none() {
        return Err(RowFault::Argument);
    }
    let form = counted(1, alloc)?;
    let all = typed(case, TypedCount::Exactly(form), Vec::new(alloc), alloc)?;
    Ok(all)
}

// How many characters the text of a number of 32 bits has at most, with its line end.
fn most_characters(radix: Radix, colons: u8) -> usize
    ensures { IsLong radix colons result }
{
    let line_end = if colons == 0 { 2 } else { 0 };
    match radix {
        Radix::Decimal | Radix::Octal => 11 + line_end,
        Radix::Hexadecimal => 8 + line_end,
    }
}

// `=` types a number, which has to be there and to fit 32 bits.
fn type_number(
    case: &Case,
    value: &Option<Form>,
    radix: Radix,
    colons: u8,
    alloc: Global,
) -> Result<Outcomes, RowFault>
    ensures { IfOk result (λ all. TypesNumber value.now radix colons case.now all) }
{
    let Some(number) = value else {
        return Err(RowFault::Argument);
    };
    let form = counted(most_characters(radix, colons), alloc)?;
    let conditions = within_32_bits(number, alloc)?;
    let all = typed(case, TypedCount::AtMost(form), conditions, alloc)?;
    Ok(all)
}

/// `T` types lines or a range, which is to be in the buffer; `V`, `^A`, `^T` and `=` type too.
pub fn type_text(
    case: &Case,
    kind: Typing,
    element: &Element,
    taken: TakenForms,
    alloc: Global,
) -> Result<Outcomes, RowFault>
    ensures { IfOk result (λ all. Performs (typing kind (model.seen element.now)) taken case.now all) }
{
    let TakenForms { first, value } = taken;
    match kind {
        Typing::Part => match first {
            Some(first) => match value {
                Some(second) => type_part(case, first, second, alloc),
                None => Err(RowFault::Argument),
            },
            None => {
                let by = argument(value, 1, alloc)?;
                type_lines(case, &by, alloc)
            }
        },
        Typing::View => {
            let by = argument(value, 1, alloc)?;
            type_view(case, &by, alloc)
        }
        Typing::Message => type_message(case, element.text, alloc),
        Typing::Byte => type_byte(case, &value, alloc),
        Typing::Number(radix) => type_number(case, &value, radix, element.colons, alloc),
    }
}

/// `:G` types the text of a register.
pub fn type_register(
    case: &Case,
    register: Reg,
    colons: u8,
    taken: TakenForms,
    alloc: Global,
) -> Result<Outcomes, RowFault>
    ensures { IfOk result (λ all. (e : model.Element) → e.colons ≡ colons
        → Performs (storage (Get register) e) taken case.now all) }
{
    let _taken = taken;
    if colons == 0 {
        return Err(RowFault::NotTold);
    }
    let form = length(case, register, alloc)?;
    let all = typed(case, TypedCount::Exactly(form), Vec::new(alloc), alloc)?;
    Ok(all)
}
