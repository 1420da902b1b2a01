//! Where paths are cut: a node with the shape of a state, and what tells its states apart.
use crate::trail::Trail;
use teco_base::LIMIT;
use teco_bounds::bounds::{Bounds, NONE};
use teco_bounds::constraints::{EqualRow, add_always, equal_rows, least_forms, lower, symbol_of};
use teco_bounds::forms::{form_in, shifted};
use teco_bounds::keys::{Flag, Key, Keys};
use teco_bounds::measures::{POINTER, SIZE, is_count};
use teco_bounds::workspace::Workspace;
use teco_linear::Form;
use teco_paths::cut::is_same_shape;
use teco_rows::case::{Case, Shape};

// Bounds from here on are limits: on one measure they are kept up to the greatest length, and on two
// they are none.
const LARGE: i64 = 1 << 24;

// Whether two keys are the same.
fn is_same(one: &Key, other: &Key) -> bool {
    one.number == other.number
        && one.at_end == other.at_end
        && one.flags.as_slice() == other.flags.as_slice()
        && one.present.as_slice() == other.present.as_slice()
        && is_same_shape(&one.shape, &other.shape)
}

// The place of a key among some.
pub fn place_in(keys: &Keys, key: &Key) -> Option<usize> {
    for (place, known) in keys.keys.iter().enumerate() {
        if is_same(known, key) {
            return Some(place);
        }
    }
    None
}

// Which measures of a case bounds are kept of.
fn told_of(present: &[bool], spoken: &[bool], space: &mut Workspace) -> Vec<u32> {
    let mut told = Vec::new(space.alloc);
    for (place, is_present) in present.iter().enumerate() {
        if *is_present && spoken.get(place) != Some(&false) {
            space.push(&mut told, u32::try_from(place).unwrap_or(0));
        }
    }
    told
}

// Whether the pointer is at the buffer's end.
fn at_end(trail: &Trail, space: &mut Workspace) -> Option<bool> {
    let pointer = form_in(&trail.case.forms, POINTER)?;
    let size = form_in(&trail.case.forms, SIZE)?;
    let ahead = space.difference(size, pointer);
    if trail.bounds.most(&ahead).is_some_and(|most| most <= 0) {
        Some(true)
    } else if trail.bounds.least(&ahead).is_some_and(|least| least >= 1) {
        Some(false)
    } else {
        None
    }
}

// The least power of 2 that is no less than a number, or 0; none beyond 32 bits.
fn top_of(most: i64) -> Option<i64> {
    if most <= 0 {
        return Some(0);
    }
    let mut top = 1i64;
    for _ in 0..32 {
        if most <= top {
            return Some(top);
        }
        top = top.saturating_mul(2);
    }
    None
}

// Raises what is known of quotients to what their key tells, so that it stays.
pub fn raise_quotients(facts: &mut Bounds, key: &Key, flags: &[Flag]) {
    for (flag, number) in flags.iter().zip(key.flags.iter()) {
        if let (Some(top), Some(row)) = (number, facts.place(Some(flag.place))) {
            if flag.numbers.is_empty() {
                facts.set(row, 0, *top);
            }
        }
    }
}

// The number of a flag, if it is one of its numbers.
fn flag_at(trail: &Trail, flag: &Flag) -> Option<i64> {
    let number = form_in(&trail.case.forms, flag.place)?;
    let most = trail.bounds.most(number)?;
    if flag.numbers.is_empty() {
        return top_of(most);
    }
    let is_known = trail.bounds.least(number) == Some(most) && flag.numbers.contains(&most);
    if is_known { Some(most) } else { None }
}

// The numbers of flags.
fn flags_at(trail: &Trail, flags: &[Flag], space: &mut Workspace) -> Vec<Option<i64>> {
    let mut numbers = Vec::new(space.alloc);
    for flag in flags {
        space.push(&mut numbers, flag_at(trail, flag));
    }
    numbers
}

// Which measures a case has, up to the last one.
fn present_in(case: &Case, space: &mut Workspace) -> Vec<bool> {
    let mut present = Vec::new(space.alloc);
    let mut count = 0usize;
    for form in &case.forms {
        space.push(&mut present, form.is_some());
        if form.is_some() {
            count = present.len();
        }
    }
    present.truncate(count);
    present
}

// A shape, copied.
pub fn copied_shape(shape: &Shape, space: &mut Workspace) -> Shape {
    Shape {
        operators: space.listed(&shape.operators),
        iterations: shape.iterations,
        pushes: shape.pushes,
    }
}

// The key of a trail.
pub fn key_of(trail: &Trail, flags: &[Flag], spoken: &[bool], space: &mut Workspace) -> Key {
    let at_end = at_end(trail, space);
    let present = present_in(&trail.case, space);
    Key {
        number: trail.number,
        at_end,
        told: told_of(&present, spoken, space),
        present,
        flags: flags_at(trail, flags, space),
        shape: copied_shape(&trail.case.shape, space),
    }
}

// A form that is a symbol and a number, or a number alone.
fn simple(form: &Form) -> Option<(Option<u32>, i64)> {
    let mut symbol = None;
    let mut number = 0i64;
    for term in form.terms() {
        if term.power > 0 {
            return None;
        }
        match term.symbol {
            None => number = i64::try_from(term.coefficient).ok()?,
            Some(found) if term.coefficient == 1 && symbol.is_none() => symbol = Some(found),
            Some(_) => return None,
        }
    }
    Some((symbol, number))
}

// The form of a measure, and, where it is a symbol and a number, or a number alone, these, and the row of
// the symbol, or that of 0, if there is one.
#[derive(Clone, Copy)]
struct ToldForm<'a> {
    form: &'a Form,
    simple: Option<(Option<u32>, i64)>,
    row: Option<usize>,
}

impl<'a> ToldForm<'a> {
    fn of(form: &'a Form, bounds: &Bounds) -> ToldForm<'a> {
        let simple = simple(form);
        let row = match simple {
            Some((symbol, _)) => bounds.place(symbol),
            None => None,
        };
        ToldForm { form, simple, row }
    }
}

// What one measure is above another at most, where each is a symbol and a number, or a number alone.
fn simply_between(trail: &Trail, one: &ToldForm<'_>, other: &ToldForm<'_>) -> Option<i64> {
    let (left, more) = one.simple?;
    let (right, less) = other.simple?;
    if left == right {
        return Some(more.checked_sub(less).unwrap_or(NONE));
    }
    let most = match (one.row, other.row) {
        (Some(row), Some(column)) => trail.bounds.at(row, column),
        _ => NONE,
    };
    if most == NONE {
        return Some(NONE);
    }
    Some(most.saturating_add(more).saturating_sub(less))
}

// What one measure is above another at most.
fn between(trail: &Trail, one: &ToldForm<'_>, other: &ToldForm<'_>, space: &mut Workspace) -> i64 {
    match simply_between(trail, one, other) {
        Some(most) => most,
        None => {
            let difference = space.difference(one.form, other.form);
            trail.bounds.most(&difference).unwrap_or(NONE)
        }
    }
}

// A bound, if it is none of those that are let go.
fn near(most: i64, is_alone: bool) -> i64 {
    let far = if is_alone { LIMIT as i64 } else { LARGE };
    if -far <= most && most <= far {
        most
    } else {
        NONE
    }
}

// The forms of these measures behind that of 0, which stands for those that have none.
fn told_forms<'a>(
    trail: &'a Trail,
    told: &[u32],
    zero: &'a Form,
    space: &mut Workspace,
) -> Vec<ToldForm<'a>> {
    let mut forms = Vec::new(space.alloc);
    space.push(&mut forms, ToldForm::of(zero, &trail.bounds));
    for place in told {
        let form = form_in(&trail.case.forms, *place).unwrap_or(zero);
        space.push(&mut forms, ToldForm::of(form, &trail.bounds));
    }
    forms
}

// What a trail says of the differences of the measures of a key.
pub fn projected(trail: &Trail, told: &[u32], space: &mut Workspace) -> Bounds {
    let zero = Form::zero(space.alloc);
    let forms = told_forms(trail, told, &zero, space);
    let mut facts = Bounds::none(space).of_symbols(told, space);
    for (row, one) in forms.iter().enumerate() {
        for (column, other) in forms.iter().enumerate() {
            if row != column {
                let most = between(trail, one, other, space);
                facts.set(row, column, near(most, row == 0 || column == 0));
            }
        }
    }
    facts
}

// Takes it that the numbers in these places are no further from 0 than the greatest length.
fn add_tame(bounds: &mut Bounds, tame: &[u32]) {
    for place in tame {
        lower(bounds, None, Some(*place), LIMIT as i64);
        lower(bounds, Some(*place), None, LIMIT as i64);
    }
}

// The form of each measure of a key: its own symbol, or none of what is counted.
fn own_forms(key: &Key, space: &mut Workspace) -> Vec<Option<Form>> {
    let mut forms = Vec::new(space.alloc);
    for (place, is_present) in key.present.iter().enumerate() {
        let symbol = u32::try_from(place).unwrap_or(0);
        let form = if !*is_present {
            None
        } else if is_count(symbol) {
            Some(Form::zero(space.alloc))
        } else {
            Some(space.symbol(symbol))
        };
        space.push(&mut forms, form);
    }
    forms
}

// The form of each measure: its own symbol, or that of an equal row and a number.
fn give_forms(
    key: &Key,
    bounds: &Bounds,
    equal: &[EqualRow],
    space: &mut Workspace,
) -> Vec<Option<Form>> {
    let mut forms = own_forms(key, space);
    for each in equal {
        let form = shifted(symbol_of(bounds, each.other), each.more, space);
        if let Some(slot) = forms.get_mut(each.symbol as usize) {
            *slot = Some(form);
        }
    }
    forms
}

// What is known where paths begin at a key by facts, where some numbers are taken to be tame.
fn begun_bounds(key: &Key, facts: &Bounds, tame: &[u32], space: &mut Workspace) -> Bounds {
    let mut all = facts.copied(space);
    all.close();
    add_always(&mut all, &key.told);
    add_tame(&mut all, tame);
    all
}

// Where paths begin at a key by facts, where some numbers are taken to be tame. All symbols that are bounded
// are measures' own.
pub fn begun(key: &Key, facts: &Bounds, tame: &[u32], space: &mut Workspace) -> Trail {
    let all = begun_bounds(key, facts, tame, space);
    let rows = equal_rows(&all, space);
    let bounds = all.of_symbols(&rows.own, space);
    let case = Case {
        symbols: u32::try_from(key.present.len()).unwrap_or(0),
        forms: give_forms(key, &all, &rows.equal, space),
        constraints: least_forms(&bounds, space),
        shape: copied_shape(&key.shape, space),
    };
    Trail {
        number: key.number,
        case,
        bounds,
        peak: None,
        passed: None,
        is_lean: false,
    }
}
