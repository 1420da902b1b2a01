//! What comes of `P` and `PW`, where an output is open, and of `A` and `Y`, where an input is.
ghost use Rattle.std.specs.Prelude.{◌≡◌, ℕ, ◌+◌, ◌≤◌, IfOk, if◌then◌else◌, length};
ghost use Rattle.teco_base.specs.declared.TheConstants.{LIMIT};
ghost use Rattle.teco_linear.specs.Form.{Valuation};
ghost use Rattle.teco_linear.specs.Implied.{Holds};
ghost use Rattle.teco_model.specs.Element as model;
ghost use Rattle.teco_model.specs.declared.kind.Kind.TheVariants as kinds;
ghost use Rattle.teco_model.specs.Paging.{append, page_turned, page_written, yank};
ghost use Rattle.teco_search_outcomes.specs.Pages.{AreTold, IsOnce, PageLaw, Reads, TurnsPage};
ghost use Rattle.teco_search_outcomes.specs.Pages.{Writes, WritesRange};
ghost use Rattle.teco_rows.specs.declared.commands.TakenForms.{TakenForms};
ghost use Rattle.teco_rows.specs.States.{Point, IsTrueOf};

use std::alloc::Global;
use teco_base::LIMIT;
use teco_linear::Form;
use teco_model::kind::Page;
use teco_motion_outcomes::changes::{changed, told};
use teco_motion_outcomes::insertions::counted;
use teco_motion_outcomes::motions::{
    ANY_BEFORE, ANY_HERE, HELD, LINE_END, LINE_START, POINTER, SIZE, both_in_buffer,
};
use teco_rows::case::Case;
use teco_rows::commands::{TakenForms, argument, take_arguments};
use teco_rows::fault::RowFault;
use teco_rows::forms::{is_number, single};
use teco_rows::levels::{NO, one};
use teco_rows::measure::Single;
use teco_rows::outcomes::Outcomes;
use teco_rows::row::{Clause, Of};

// How long the page is, what is unread behind it, and where its first line ends.
const PAGE: Of = Of::Unknown(0);

const REST: Of = Of::Unknown(1);

const END: Of = Of::Unknown(2);

const AT_START: Clause = Clause::Sets(POINTER, 0, (NO, NO, NO, NO));

const STARTS: Clause = Clause::Sets(LINE_START, 0, (NO, NO, NO, NO));

// Something is unread; of that, with or without a form feed behind it, a page and a rest.
const UNREAD: Clause = Clause::Wants(-1, ((1, Of::Was(HELD)), (-1, Of::Was(SIZE)), NO, NO));

const PAGE_THERE: Clause = Clause::Wants(0, ((1, PAGE), NO, NO, NO));

const REST_THERE: Clause = Clause::Wants(0, ((1, REST), NO, NO, NO));

const REST_LESS: Clause = Clause::Wants(
    -1,
    ((1, Of::Was(HELD)), (-1, Of::Was(SIZE)), (-1, REST), NO),
);

const WITHIN: Clause = Clause::Wants(
    0,
    (
        (1, Of::Was(HELD)),
        (-1, Of::Was(SIZE)),
        (-1, PAGE),
        (-1, REST),
    ),
);

const BUT_ONE: Clause = Clause::Wants(
    1,
    (
        (-1, Of::Was(HELD)),
        (1, Of::Was(SIZE)),
        (1, PAGE),
        (1, REST),
    ),
);

const ALL_READ: Clause = Clause::Wants(0, ((1, Of::Was(SIZE)), (-1, Of::Was(HELD)), NO, NO));

const ENDS: Clause = Clause::Sets(LINE_END, 0, ((1, END), NO, NO, NO));

// Nothing is unread, and the buffer is empty then.
const EMPTIED: [Clause; 8] = [
    ANY_HERE,
    ANY_BEFORE,
    AT_START,
    STARTS,
    Clause::Sets(SIZE, 0, (NO, NO, NO, NO)),
    Clause::Sets(HELD, 0, (NO, NO, NO, NO)),
    Clause::Sets(LINE_END, 0, (NO, NO, NO, NO)),
    ALL_READ,
];

// A page is in the place of the buffer.
const TURNED: [Clause; 15] = [
    ANY_HERE,
    ANY_BEFORE,
    AT_START,
    STARTS,
    Clause::Sets(SIZE, 0, ((1, PAGE), NO, NO, NO)),
    Clause::Sets(HELD, 0, ((1, PAGE), (1, REST), NO, NO)),
    ENDS,
    UNREAD,
    PAGE_THERE,
    REST_THERE,
    REST_LESS,
    WITHIN,
    BUT_ONE,
    Clause::Wants(0, ((1, END), NO, NO, NO)),
    Clause::Wants(0, ((1, PAGE), (-1, END), NO, NO)),
];

// A page is behind the buffer, and the line of the pointer may go on in it.
const APPENDED: [Clause; 12] = [
    ANY_HERE,
    Clause::Sets(SIZE, 0, ((1, Of::Was(SIZE)), (1, PAGE), NO, NO)),
    Clause::Sets(HELD, 0, ((1, Of::Was(SIZE)), (1, PAGE), (1, REST), NO)),
    ENDS,
    UNREAD,
    PAGE_THERE,
    REST_THERE,
    REST_LESS,
    WITHIN,
    BUT_ONE,
    Clause::Wants(0, ((1, END), (-1, Of::Was(LINE_END)), NO, NO)),
    Clause::Wants(0, ((1, Of::Was(SIZE)), (1, PAGE), (-1, END), NO)),
];

const STAYS: [Clause; 1] = [ALL_READ];

// The cases behind two, where nothing is answered.
fn told_both(one: &Case, other: &Case, alloc: Global) -> Result<Vec<Case>, RowFault>
    ensures { IfOk result (λ cases. AreTold one.now other.now cases.items) }
{
    let first = told(one, &[], alloc)?;
    let second = told(other, &[], alloc)?;
    let mut cases = Vec::new(alloc);
    cases.push(first)?;
    cases.push(second)?;
    Ok(cases)
}

// The cases where the next page is in the place of the buffer.
fn next_page(case: &Case, alloc: Global) -> Result<Vec<Case>, RowFault>
    ensures { IfOk result (λ cases. TurnsPage case.now cases.items) }
{
    let emptied = changed(case, &EMPTIED, &[], alloc)?;
    let turned = changed(case, &TURNED, &[], alloc)?;
    told_both(&emptied, &turned, alloc)
}

/// The condition that the next page is no longer than a buffer may be.
pub fn room(case: &Case, alloc: Global) -> Result<Form, RowFault>
    ensures { IfOk result (λ condition. (n : ℕ) (v : Valuation) (s : Point) → IsTrueOf n v case.now s
        → Holds n v condition → s.unread ≤ LIMIT) }
{
    let size = single(case, Single::Size, alloc)?;
    let held = single(case, Single::Held, alloc)?;
    let most = counted(LIMIT, alloc)?;
    let unread = held.sub(&size, alloc)?;
    let left = most.sub(&unread, alloc)?;
    Ok(left)
}

// `P` writes the buffer, and the next page is in its place, if it has room.
fn turn_one(case: &Case, alloc: Global) -> Result<Outcomes, RowFault>
    ensures { IfOk result (λ all. (taken : TakenForms) → IsOnce taken → Writes page_turned taken case.now all) }
{
    let left = room(case, alloc)?;
    let mut conditions = Vec::new(alloc);
    conditions.push(left)?;
    let cases = next_page(case, alloc)?;
    Ok(Outcomes {
        conditions,
        guarded: Vec::new(alloc),
        cases,
        away: Vec::new(alloc),
    })
}

// `PW` writes the buffer, and nothing else becomes of it.
fn write_one(case: &Case, alloc: Global) -> Result<Outcomes, RowFault>
    ensures { IfOk result (λ all. (taken : TakenForms) → IsOnce taken → Writes page_written taken case.now all) }
{
    let after = told(case, &[], alloc)?;
    one(after, Vec::new(alloc), alloc)
}

// With two values either writes the part between them.
fn write_range(
    case: &Case,
    first: &Form,
    second: &Form,
    alloc: Global,
) -> Result<Outcomes, RowFault>
    ensures { IfOk result (λ all. WritesRange first.now second.now case.now all) }
{
    let conditions = both_in_buffer(case, first, second, alloc)?;
    let after = told(case, &[], alloc)?;
    one(after, conditions, alloc)
}

// What is done page by page, where that is once.
fn by_page(case: &Case, turns: bool, taken: TakenForms, alloc: Global) -> Result<Outcomes, RowFault>
    ensures { IfOk result (λ all. Writes (if turns then page_turned else page_written) taken case.now all) }
{
    let TakenForms { first, value } = taken;
    match first {
        Some(first) => match value {
            Some(second) => write_range(case, &first, &second, alloc),
            None => Err(RowFault::Argument),
        },
        None => {
            let count = argument(value, 1, alloc)?;
            if !is_number(&count, 1) {
                return Err(RowFault::NotTold);
            }
            if turns {
                turn_one(case, alloc)
            } else {
                write_one(case, alloc)
            }
        }
    }
}

/// What comes of `P` and `PW`, where an output is open. How many pages there are is to be 1.
pub fn write_pages(case: &Case, page: Page, alloc: Global) -> Result<Outcomes, RowFault>
    ensures { IfOk result (λ all. (e : model.Element) → e.kind ≡ kinds.Page page → PageLaw page e case.now all) }
{
    let taken = take_arguments(case, alloc)?;
    match page {
        Page::Next => by_page(case, true, taken, alloc),
        Page::Write => by_page(case, false, taken, alloc),
        _ => Err(RowFault::NotTold),
    }
}

// The condition that the buffer has room for all that is unread.
fn room_behind(case: &Case, alloc: Global) -> Result<Form, RowFault>
    ensures { IfOk result (λ condition. (n : ℕ) (v : Valuation) (s : Point) → IsTrueOf n v case.now s
        → Holds n v condition → length s.kept.text + s.unread ≤ LIMIT) }
{
    let held = single(case, Single::Held, alloc)?;
    let most = counted(LIMIT, alloc)?;
    let left = most.sub(&held, alloc)?;
    Ok(left)
}

// `A` puts the next page behind the buffer, if that has room; where nothing is unread it stays.
fn append_page(case: &Case, alloc: Global) -> Result<Outcomes, RowFault>
    ensures { IfOk result (λ all. Reads append case.now all) }
{
    let left = room_behind(case, alloc)?;
    let mut conditions = Vec::new(alloc);
    conditions.push(left)?;
    let stays = changed(case, &STAYS, &[], alloc)?;
    let longer = changed(case, &APPENDED, &[], alloc)?;
    let cases = told_both(&stays, &longer, alloc)?;
    Ok(Outcomes {
        conditions,
        guarded: Vec::new(alloc),
        cases,
        away: Vec::new(alloc),
    })
}

// The condition that the buffer is empty.
fn is_empty(case: &Case, alloc: Global) -> Result<Form, RowFault>
    ensures { IfOk result (λ condition. (n : ℕ) (v : Valuation) (s : Point) → IsTrueOf n v case.now s
        → Holds n v condition → length s.kept.text ≤ 0) }
{
    let size = single(case, Single::Size, alloc)?;
    let none = Form::zero(alloc);
    let left = none.sub(&size, alloc)?;
    Ok(left)
}

// `Y` reads the next page into the buffer, which is to be empty: it is not lost then.
fn yank_page(case: &Case, alloc: Global) -> Result<Outcomes, RowFault>
    ensures { IfOk result (λ all. Reads yank case.now all) }
{
    let empty = is_empty(case, alloc)?;
    let left = room(case, alloc)?;
    let mut conditions = Vec::new(alloc);
    conditions.push(empty)?;
    conditions.push(left)?;
    let cases = next_page(case, alloc)?;
    Ok(Outcomes {
        conditions,
        guarded: Vec::new(alloc),
        cases,
        away: Vec::new(alloc),
    })
}

/// What comes of `A` alone and of `Y`, where an input is open.
pub fn read_pages(case: &Case, page: Page, alloc: Global) -> Result<Outcomes, RowFault>
    ensures { IfOk result (λ all. (e : model.Element) → e.kind ≡ kinds.Page page → PageLaw page e case.now all) }
{
    let taken = take_arguments(case, alloc)?;
    let TakenForms {
        first: _first,
        value,
    } = taken;
    match page {
        Page::Append => match value {
            Some(_) => Err(RowFault::NotTold),
            None => append_page(case, alloc),
        },
        Page::Yank => yank_page(case, alloc),
        _ => Err(RowFault::NotTold),
    }
}
