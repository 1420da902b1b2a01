//! Bounds as constraints, and what always holds.
use crate::bounds::{Bounds, NONE};
use crate::forms::shifted;
use crate::measures::{
    HELD, LAST_LENGTH, LENGTH, LINE_END, LINE_START, NUMBER, POINTER, PUSHED_LENGTH, PUSHED_NUMBER,
    SIZE, TURNS, family_of,
};
use crate::numbers::plus;
use crate::workspace::Workspace;
use teco_base::LIMIT;
use teco_linear::Form;

// The greatest number of 32 bits.
const MOST_NUMBER: i64 = 2_147_483_647;

// The symbol of a row.
pub fn symbol_of(bounds: &Bounds, row: usize) -> Option<u32> {
    bounds.symbols().get(row.checked_sub(1)?).copied()
}

// That the bound between two rows holds.
pub fn bound_form(bounds: &Bounds, row: usize, column: usize, space: &mut Workspace) -> Form {
    let right = shifted(symbol_of(bounds, column), bounds.at(row, column), space);
    match symbol_of(bounds, row) {
        Some(symbol) => {
            let left = space.symbol(symbol);
            space.difference(&right, &left)
        }
        None => right,
    }
}

// Whether a bound follows from two others.
fn follows(bounds: &Bounds, row: usize, column: usize) -> bool {
    let most = bounds.at(row, column);
    for (other, ahead) in bounds.row(row).iter().enumerate() {
        if *ahead == NONE || other == row || other == column {
            continue;
        }
        if plus(*ahead, bounds.at(other, column)) <= most {
            return true;
        }
    }
    false
}

// The bounds that do not follow from two others, as constraints. None of the bounds are equations.
pub fn least_forms(bounds: &Bounds, space: &mut Workspace) -> Vec<Form> {
    let mut forms = Vec::new(space.alloc);
    for row in 0..bounds.size() {
        for column in 0..bounds.size() {
            let is_bound = row != column && bounds.at(row, column) != NONE;
            if is_bound && !follows(bounds, row, column) {
                let form = bound_form(bounds, row, column, space);
                space.push(&mut forms, form);
            }
        }
    }
    forms
}

// That a row is another one, which is before it, and so much more; and the symbol of the row.
#[derive(Clone, Copy)]
pub struct EqualRow {
    pub row: usize,
    pub symbol: u32,
    pub other: usize,
    pub more: i64,
}

// The rows of bounds that are equal to others but for a number, and the symbols of the others.
#[derive(Drop)]
pub struct EqualRows {
    pub equal: Vec<EqualRow>,
    pub own: Vec<u32>,
}

// How much more a row is than another, where it is equal to it but for a number.
fn excess(bounds: &Bounds, row: usize, other: usize) -> Option<i64> {
    let (more, back) = (bounds.at(row, other), bounds.at(other, row));
    let is_equal = more != NONE && back != NONE && more.saturating_add(back) == 0;
    if is_equal { Some(more) } else { None }
}

// Which row the row of a symbol is equal to but for a number, where that is known: one of those before it, or that
// of 0.
fn equal_row(bounds: &Bounds, symbol: u32, is_own: &[bool]) -> Option<EqualRow> {
    let row = is_own.len();
    for (other, is_own) in is_own.iter().enumerate() {
        match excess(bounds, row, other) {
            Some(more) if *is_own => {
                return Some(EqualRow {
                    row,
                    symbol,
                    other,
                    more,
                });
            }
            _ => {}
        }
    }
    None
}

// Which rows are equal to others.
pub fn equal_rows(bounds: &Bounds, space: &mut Workspace) -> EqualRows {
    let mut is_own = space.repeated(true, 1);
    let mut rows = EqualRows {
        equal: Vec::new(space.alloc),
        own: Vec::new(space.alloc),
    };
    for symbol in bounds.symbols() {
        let found = equal_row(bounds, *symbol, &is_own);
        space.push(&mut is_own, found.is_none());
        match found {
            Some(equal) => space.push(&mut rows.equal, equal),
            None => space.push(&mut rows.own, *symbol),
        }
    }
    rows
}

// Adds that rows are equal as constraints.
fn add_equations(
    forms: &mut Vec<Form>,
    bounds: &Bounds,
    equal: &[EqualRow],
    space: &mut Workspace,
) {
    for each in equal {
        let ahead = bound_form(bounds, each.row, each.other, space);
        let back = bound_form(bounds, each.other, each.row, space);
        space.push(forms, ahead);
        space.push(forms, back);
    }
}

// All bounds as constraints: the least of those that are no equations, and the equations.
pub fn all_forms(bounds: &Bounds, space: &mut Workspace) -> Vec<Form> {
    let rows = equal_rows(bounds, space);
    let own = bounds.of_symbols(&rows.own, space);
    let mut forms = least_forms(&own, space);
    add_equations(&mut forms, bounds, &rows.equal, space);
    forms
}

// Lowers the bound between two symbols.
pub fn lower(bounds: &mut Bounds, left: Option<u32>, right: Option<u32>, most: i64) {
    if let (Some(row), Some(column)) = (bounds.place(left), bounds.place(right)) {
        bounds.lower(row, column, most);
    }
}

// Lowers by what always holds of a place.
fn add_ends(bounds: &mut Bounds, place: u32) {
    let (least, most) = match family_of(place) {
        Some(NUMBER | PUSHED_NUMBER) => (MOST_NUMBER + 1, MOST_NUMBER),
        Some(LENGTH | PUSHED_LENGTH) => (0, LIMIT as i64),
        Some(TURNS) => (0, NONE),
        _ => return,
    };
    lower(bounds, None, Some(place), least);
    if most != NONE {
        lower(bounds, Some(place), None, most);
    }
}

// What always holds of these measures.
pub fn add_always(bounds: &mut Bounds, told: &[u32]) {
    let limit = LIMIT as i64;
    lower(bounds, None, Some(LINE_START), 0);
    lower(bounds, Some(LINE_START), Some(POINTER), 0);
    lower(bounds, Some(POINTER), Some(LINE_END), 0);
    lower(bounds, Some(LINE_END), Some(SIZE), 0);
    lower(bounds, Some(SIZE), Some(HELD), 0);
    lower(bounds, Some(HELD), None, limit);
    lower(bounds, None, Some(LAST_LENGTH), 0);
    lower(bounds, Some(LAST_LENGTH), None, limit);
    for place in told {
        add_ends(bounds, *place);
    }
}
