//! What was found as claims of a certificate.
use teco_base::Reg;
use teco_bounds::bounds::{Bounds, NONE};
use teco_bounds::constraints::{add_always, bound_form, symbol_of};
use teco_bounds::keys::{Key, Keys};
use teco_bounds::measures::{
    ENTRY_HELD, HELD, LAST_LENGTH, LENGTH, LINE_END, LINE_START, NUMBER, POINTER, PUSHED_LENGTH,
    PUSHED_NUMBER, SINGLES, SIZE, STEPS, TURNS, TYPED, family_of, index_of,
};
use teco_bounds::numbers::plus;
use teco_bounds::workspace::{Stop, Workspace};
use teco_claims::{Claim, ClaimMeasure, ClaimSingle, ClaimTerm, Claims, Cut, Fraction};
use teco_linear::{Form, Term};
use teco_poly::Poly;
use teco_potentials::known_claims::KnownClaims;
use teco_potentials::promises::Promises;
use teco_trails::fault::{SearchRefusal, SearchStop};
use teco_trails::search::PathSearch;

// Bounds from here on are limits. They are claimed of measures alone, and only where a register, a turn or
// a pair has one: it may rest on those of other measures.
const LARGE: i64 = 1 << 24;

// The names of registers, by their places.
const NAMES: &[u8; 36] = b"ABCDEFGHIJKLMNOPQRSTUVWXYZ0123456789";

// The polynomial of some coefficients.
fn polynomial(coefficients: &[u64]) -> Option<Poly> {
    let mut sum = Poly::number(0);
    let mut power = Poly::number(1);
    for coefficient in coefficients {
        sum = sum.add(&Poly::number(*coefficient).mul(&power)?)?;
        power = power.mul(&Poly::variable()).unwrap_or(power);
    }
    Some(sum)
}

fn polynomial_if(coefficients: &Option<Vec<u64>>) -> Option<Poly> {
    match coefficients {
        Some(coefficients) => polynomial(coefficients),
        None => None,
    }
}

// The codes of characters have no name.
fn single_of(place: u32) -> Option<ClaimSingle> {
    match place {
        STEPS => Some(ClaimSingle::Steps),
        POINTER => Some(ClaimSingle::Pointer),
        SIZE => Some(ClaimSingle::Size),
        HELD => Some(ClaimSingle::Held),
        LINE_END => Some(ClaimSingle::LineEnd),
        LINE_START => Some(ClaimSingle::LineStart),
        LAST_LENGTH => Some(ClaimSingle::LastLength),
        TYPED => Some(ClaimSingle::Typed),
        ENTRY_HELD => Some(ClaimSingle::EntryHeld),
        _ => None,
    }
}

fn register_of(index: u32) -> Option<Reg> {
    Reg::of(*NAMES.get(index as usize)?)
}

// The element that an iteration begins at, by how many are open round it.
fn begin_of(search: &PathSearch<'_>, number: usize, index: u32) -> Option<u32> {
    if number == 0 || number > search.course.nodes.len() {
        return None;
    }
    let open = search.course.nodes.open(number);
    let at = open.checked_sub(1)?.checked_sub(index as usize)?;
    u32::try_from(search.course.nodes.iteration(number, at)?).ok()
}

// The measure of a place at a node.
fn measure_of(search: &PathSearch<'_>, number: usize, place: u32) -> Option<ClaimMeasure> {
    let Some(index) = index_of(place) else {
        return Some(ClaimMeasure::One(single_of(place)?));
    };
    match family_of(place)? {
        NUMBER => Some(ClaimMeasure::Number(register_of(index)?)),
        LENGTH => Some(ClaimMeasure::Length(register_of(index)?)),
        TURNS => Some(ClaimMeasure::Turns(begin_of(search, number, index)?)),
        PUSHED_NUMBER => Some(ClaimMeasure::PushedNumber(index)),
        PUSHED_LENGTH => Some(ClaimMeasure::PushedLength(index)),
        _ => None,
    }
}

// Adds the term of a claim that a term over the places of measures is; says whether its measure has a
// name.
fn add_term(
    search: &PathSearch<'_>,
    number: usize,
    term: &Term,
    terms: &mut Vec<ClaimTerm>,
    space: &mut Workspace,
) -> bool {
    let measure = match term.symbol {
        Some(place) => match measure_of(search, number, place) {
            Some(measure) => Some(measure),
            None => return false,
        },
        None => None,
    };
    let claimed = ClaimTerm {
        is_negative: term.coefficient < 0,
        coefficient: Fraction {
            numerator: term.coefficient.unsigned_abs(),
            divisor: 1,
        },
        power: term.power,
        measure,
    };
    space.push(terms, claimed);
    true
}

// A form over the places of measures as a claim; none where it speaks of what has no name.
pub fn claim_of(
    search: &PathSearch<'_>,
    number: usize,
    form: &Form,
    space: &mut Workspace,
) -> Option<Claim> {
    let mut terms = Vec::new(space.alloc);
    for term in form.terms() {
        if !add_term(search, number, term, &mut terms, space) {
            return None;
        }
    }
    if terms.sort_by_key(|term| order(term)).is_err() {
        space.stop(Stop::Memory);
    }
    Some(Claim { terms })
}

// What always holds at a key.
fn always(key: &Key, space: &mut Workspace) -> Bounds {
    let mut always = Bounds::none(space).of_symbols(&key.told, space);
    add_always(&mut always, &key.told);
    always
}

// Whether a register, a turn or a pair has a limit that does not always hold.
fn is_limited(always: &Bounds, facts: &Bounds) -> bool {
    for row in 1..facts.size() {
        let is_among_them = symbol_of(facts, row).is_some_and(|place| place >= SINGLES);
        if is_among_them && has_limit(always, facts, row) {
            return true;
        }
    }
    false
}

// Whether limits are claimed: a register, a turn or a pair has one.
fn has_limits(keys: &Keys, space: &mut Workspace) -> bool {
    for (key, facts) in keys.keys.iter().zip(keys.facts.iter()) {
        if is_limited(&always(key, space), facts) {
            return true;
        }
    }
    false
}

// Leaves out what need not be claimed of facts, with limits or without.
fn leave_out(facts: &mut Bounds, always: &Bounds, with_limits: bool) {
    for row in 0..facts.size() {
        for column in 0..facts.size() {
            let is_left_out = !with_limits && is_limit(facts, row, column);
            if is_left_out || is_known(always, facts, row, column) {
                facts.set(row, column, NONE);
            }
        }
    }
}

// Takes the forms of bounds that no chain of the others implies; the others are taken out.
fn take_unchained(left: &mut Bounds, always: &Bounds, space: &mut Workspace) -> Vec<Form> {
    let mut forms = Vec::new(space.alloc);
    for row in 0..left.size() {
        for column in 0..left.size() {
            if row == column || left.at(row, column) == NONE {
                continue;
            }
            if is_chained(left, always, row, column) {
                left.set(row, column, NONE);
            } else {
                let form = bound_form(left, row, column, space);
                space.push(&mut forms, form);
            }
        }
    }
    forms
}

// The facts of a key that are claimed, with limits or without.
fn claimed_facts(key: &Key, facts: &Bounds, with_limits: bool, space: &mut Workspace) -> Vec<Form> {
    let always = always(key, space);
    let mut left = facts.copied(space);
    leave_out(&mut left, &always, with_limits);
    take_unchained(&mut left, &always, space)
}

// The facts of a key as claims, with limits or without.
pub fn fact_claims(
    search: &PathSearch<'_>,
    key: &Key,
    facts: &Bounds,
    with_limits: bool,
    space: &mut Workspace,
) -> Vec<Claim> {
    let mut claims = Vec::new(space.alloc);
    for form in &claimed_facts(key, facts, with_limits, space) {
        if let Some(claim) = claim_of(search, key.number, form, space) {
            space.push(&mut claims, claim);
        }
    }
    claims
}

// What is known besides at a key, which stands at a node, as claims.
fn other_claims(
    search: &PathSearch<'_>,
    known: &KnownClaims,
    place: usize,
    number: usize,
    space: &mut Workspace,
) -> Vec<Claim> {
    let mut claims = Vec::new(space.alloc);
    for (at, form) in &known.claims {
        if *at != place {
            continue;
        }
        match claim_of(search, number, form, space) {
            Some(claim) => space.push(&mut claims, claim),
            None => space.stop(Stop::TooMuch),
        }
    }
    claims
}

// The cut points of the keys, in order.
fn cuts_of(
    search: &PathSearch<'_>,
    keys: &Keys,
    known: &KnownClaims,
    space: &mut Workspace,
) -> Vec<Cut> {
    let with_limits = has_limits(keys, space);
    let mut cuts = Vec::new(space.alloc);
    for (place, (key, facts)) in keys.keys.iter().zip(keys.facts.iter()).enumerate() {
        if place == 0 {
            continue;
        }
        let mut claims = fact_claims(search, key, facts, with_limits, space);
        let mut others = other_claims(search, known, place, key.number, space);
        space.append(&mut claims, &mut others);
        let point = key.number;
        space.push(&mut cuts, Cut { point, claims });
    }
    if cuts.sort_by_key(|cut| cut.point).is_err() {
        space.stop(Stop::Memory);
    }
    cuts
}

// The claims.
pub fn claims_of(
    search: &PathSearch<'_>,
    keys: &Keys,
    known: &KnownClaims,
    promises: &Promises,
) -> Result<Claims, SearchStop> {
    let (Some(commands), Some(size)) = (polynomial(&promises.commands), polynomial(&promises.size))
    else {
        return Err(SearchStop::Refused(SearchRefusal::TooMuch(None)));
    };
    let grows = polynomial_if(&promises.grows);
    let types = polynomial_if(&promises.types);
    let mut space = Workspace::new(search.alloc);
    let cuts = cuts_of(search, keys, known, &mut space);
    space.finish()?;
    Ok(Claims {
        commands,
        size,
        grows,
        types,
        cuts,
    })
}

// Whether a bound is a limit.
fn is_large(facts: &Bounds, row: usize, column: usize) -> bool {
    let most = facts.at(row, column);
    most <= -LARGE || most >= LARGE
}

// Whether it is the limit of a measure alone.
fn is_limit(facts: &Bounds, row: usize, column: usize) -> bool {
    (row == 0 || column == 0) && is_large(facts, row, column)
}

// Whether a bound need not be claimed: it always holds, or is a limit of a difference.
fn is_known(always: &Bounds, facts: &Bounds, row: usize, column: usize) -> bool {
    let is_alone = row == 0 || column == 0;
    row == column
        || always.at(row, column) <= facts.at(row, column)
        || !is_alone && is_large(facts, row, column)
}

// Whether a measure has a limit below or above that does not always hold.
fn has_limit(always: &Bounds, facts: &Bounds, row: usize) -> bool {
    let is_above = is_limit(facts, row, 0) && !is_known(always, facts, row, 0);
    is_above || is_limit(facts, 0, row) && !is_known(always, facts, 0, row)
}

// Whether a bound follows from two others.
fn is_chained(facts: &Bounds, always: &Bounds, row: usize, column: usize) -> bool {
    let most = facts.at(row, column);
    for other in 0..facts.size() {
        if other == row || other == column {
            continue;
        }
        let first = facts.at(row, other).min(always.at(row, other));
        let second = facts.at(other, column).min(always.at(other, column));
        if plus(first, second) <= most {
            return true;
        }
    }
    false
}

// The place of a register among the others.
fn rank_of_register(register: Reg) -> u64 {
    register.index() as u64
}

// Of which kind a measure is, in the order of kinds.
fn kind_of(measure: &ClaimMeasure) -> u64 {
    match measure {
        ClaimMeasure::One(ClaimSingle::Steps) => 1,
        ClaimMeasure::One(ClaimSingle::LineEnd) => 2,
        ClaimMeasure::One(ClaimSingle::Held) => 3,
        ClaimMeasure::One(ClaimSingle::EntryHeld) => 4,
        ClaimMeasure::PushedNumber(_) | ClaimMeasure::PushedLength(_) => 5,
        ClaimMeasure::One(ClaimSingle::LastLength) => 6,
        ClaimMeasure::One(ClaimSingle::Typed) => 7,
        ClaimMeasure::One(ClaimSingle::Pointer) => 8,
        ClaimMeasure::Number(_) => 9,
        ClaimMeasure::Turns(_) => 10,
        ClaimMeasure::One(ClaimSingle::LineStart) => 11,
        ClaimMeasure::Length(_) => 12,
        ClaimMeasure::One(ClaimSingle::Size) => 13,
    }
}

// Where it stands among those of its kind.
fn rank_of(measure: &ClaimMeasure) -> u64 {
    match measure {
        ClaimMeasure::PushedNumber(pair) => u64::from(*pair).saturating_mul(2),
        ClaimMeasure::PushedLength(pair) => u64::from(*pair).saturating_mul(2).saturating_add(1),
        ClaimMeasure::Turns(begin) => u64::from(*begin),
        ClaimMeasure::Number(register) => rank_of_register(*register),
        _ => length_rank(measure),
    }
}

// Where a length stands among the lengths.
fn length_rank(measure: &ClaimMeasure) -> u64 {
    match measure {
        ClaimMeasure::Length(register) => rank_of_register(*register),
        _ => 0,
    }
}

// The order of terms: by measure, and then by power.
fn order(term: &ClaimTerm) -> u128 {
    let (kind, index) = match &term.measure {
        None => (0, 0),
        Some(measure) => (kind_of(measure), rank_of(measure)),
    };
    let power = u128::from(term.power);
    u128::from(kind)
        .saturating_mul(1 << 80)
        .saturating_add(u128::from(index).saturating_mul(1 << 40))
        .saturating_add(power)
}
