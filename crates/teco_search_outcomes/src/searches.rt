//! What comes of searches in the buffer.
ghost use Rattle.std.specs.Prelude.{◌≡◌, ◌≢◌, ◌≤◌, ◌≤ℤ◌, ◌+ℤ◌, ℕ, pos, true, IfOk, OnOk, if◌then◌else◌, [], ◌++◌};
ghost use Rattle.std.specs.Prelude.{length};
ghost use Rattle.std.specs.List.{All};
ghost use Rattle.teco_linear.specs.Form.{Valuation, value};
ghost use Rattle.teco_linear.specs.Implied.{Holds};
ghost use Rattle.teco_model.specs.Element.{seen};
ghost use Rattle.teco_model.specs.declared.kind.Kind.TheVariants as kinds;
ghost use Rattle.teco_model.specs.declared.pattern.Span.{Span};
ghost use Rattle.teco_search_outcomes.specs.Patterns.{IsIn};
ghost use Rattle.teco_search_outcomes.specs.Searches.{Aims, Answers, BeginsLater, Ends, IsFoundBy, IsKnown};
ghost use Rattle.teco_search_outcomes.specs.Searches.{IsMissed, IsWarned};
ghost use Rattle.teco_search_outcomes.specs.Searches.{HasRoom, IsBegun, IsReplacedBy, Leaves, LiesTo, SearchLaw};
ghost use Rattle.teco_search_outcomes.specs.Searches.{TakesNumber, aimed, direction_clauses, extra_clauses};

use crate::patterns::{
    Codes, are_single, end_line, first_codes, last_codes, least, parts, stay_in_line,
};
use std::alloc::Global;
use teco_base::LIMIT;
use teco_flow_outcomes::flow::left;
use teco_flow_outcomes::ranges::NumberRange;
use teco_linear::Form;
use teco_model::Element;
use teco_model::kind::Search;
use teco_model::pattern::Part;
use teco_motion_outcomes::changes::{changed, told};
use teco_motion_outcomes::insertions::{counted, last_start};
use teco_motion_outcomes::motions::{
    ANY_BEFORE, ANY_HERE, CODE_BEFORE, HELD, LINE_END, LINE_START, POINTER, SIZE, THERE,
};
use teco_rows::applied::copied_constraints;
use teco_rows::case::Case;
use teco_rows::commands::{TakenForms, take_arguments};
use teco_rows::fault::RowFault;
use teco_rows::forms::{known, single};
use teco_rows::levels::{NO, VALUE};
use teco_rows::measure::Single;
use teco_rows::outcomes::{Guarded, Outcomes};
use teco_rows::row::{Clause, Mark, Of};

/// Where a search looks: ahead of the pointer, back from it, or at it.
#[derive(Clone, Copy)]
pub enum Direction {
    Ahead,
    Back,
    Here,
}

/// Where a search looks, and under which conditions it does.
#[derive(Drop)]
pub struct Aim {
    pub direction: Direction,
    pub conditions: Vec<Form>,
}

/// What a search in the buffer begins with: the parts that it looks for, where, and the case where
/// it finds nothing.
#[derive(Drop)]
struct BegunSearch {
    parts: Vec<Part>,
    aim: Aim,
    start: Case,
}

/// What is asked where a search begins.
#[derive(Drop)]
pub struct AskedSearch {
    pub conditions: Vec<Form>,
    pub guarded: Vec<Guarded>,
}

/// What is known of a match: where it lies, whether it is as long as its parts say and no longer,
/// whether it ends with a line end, and whether it has none.
#[derive(Clone, Copy)]
pub struct KnownMatch {
    pub direction: Direction,
    pub is_exact: bool,
    pub ends_line: bool,
    pub stays_in_line: bool,
}

// Where the match starts and ends, and the end and start of the line behind it.
const START: Of = Of::Unknown(0);

const PLACE: Of = Of::Unknown(1);

const END: Of = Of::Unknown(2);

const BEGIN: Of = Of::Unknown(3);

// How long the match is at least; how long the text is that is put in its stead, and where the
// last line of that starts.
const LEAST: Of = Of::Given(0);

const LONG: Of = Of::Given(1);

const LAST_START: Of = Of::Given(2);

const LAST: Mark = Mark::One(Single::LastLength);

const TYPED: Mark = Mark::One(Single::Typed);

// The match is in the buffer and has a character, and its last line goes on behind it.
const LIES: [Clause; 6] = [
    Clause::Wants(-1, ((1, PLACE), (-1, START), NO, NO)),
    Clause::Wants(0, ((1, PLACE), (-1, START), (-1, LEAST), NO)),
    Clause::Wants(0, ((1, END), (-1, PLACE), NO, NO)),
    Clause::Wants(0, ((1, Of::Was(SIZE)), (-1, END), NO, NO)),
    Clause::Wants(0, ((1, START), NO, NO, NO)),
    Clause::Wants(0, ((1, BEGIN), NO, NO, NO)),
];

// The pointer is behind it.
const FOUND: [Clause; 7] = [
    ANY_HERE,
    ANY_BEFORE,
    Clause::Sets(POINTER, 0, ((1, PLACE), NO, NO, NO)),
    Clause::Sets(LINE_END, 0, ((1, END), NO, NO, NO)),
    Clause::Sets(LINE_START, 0, ((1, BEGIN), NO, NO, NO)),
    Clause::Sets(LAST, 0, ((1, PLACE), (-1, START), NO, NO)),
    Clause::Wants(0, ((1, PLACE), (-1, BEGIN), NO, NO)),
];

// Another text is in its stead, and the pointer behind that.
const REPLACED: [Clause; 9] = [
    ANY_HERE,
    ANY_BEFORE,
    Clause::Sets(POINTER, 0, ((1, START), (1, LONG), NO, NO)),
    Clause::Sets(
        SIZE,
        0,
        ((1, Of::Was(SIZE)), (-1, PLACE), (1, START), (1, LONG)),
    ),
    Clause::Sets(
        HELD,
        0,
        ((1, Of::Was(HELD)), (-1, PLACE), (1, START), (1, LONG)),
    ),
    Clause::Sets(LINE_END, 0, ((1, END), (-1, PLACE), (1, START), (1, LONG))),
    Clause::Sets(LINE_START, 0, ((1, BEGIN), NO, NO, NO)),
    Clause::Sets(LAST, 0, ((1, LONG), NO, NO, NO)),
    Clause::Wants(0, ((1, START), (1, LONG), (-1, BEGIN), NO)),
];

// Where nothing is found the pointer goes to the start of the buffer.
const STARTED: [Clause; 7] = [
    ANY_HERE,
    ANY_BEFORE,
    Clause::Sets(POINTER, 0, (NO, NO, NO, NO)),
    Clause::Sets(LINE_START, 0, (NO, NO, NO, NO)),
    Clause::Sets(LINE_END, 0, ((1, START), NO, NO, NO)),
    Clause::Wants(0, ((1, START), NO, NO, NO)),
    Clause::Wants(0, ((1, Of::Was(SIZE)), (-1, START), NO, NO)),
];

// The match ends with a character whose code is from one to another, or which is just one.
const ENDS_IN: [Clause; 2] = [
    Clause::Wants(0, ((1, THERE), (-1, Of::Given(1)), NO, NO)),
    Clause::Wants(0, ((-1, THERE), (1, Of::Given(2)), NO, NO)),
];

const ENDS_WITH: [Clause; 1] = [Clause::Sets(CODE_BEFORE, 0, ((1, Of::Given(1)), NO, NO, NO))];

// The match begins behind the pointer: another character is there than it begins with.
const LATER: [Clause; 1] = [Clause::Wants(-1, ((1, START), (-1, Of::Was(POINTER)), NO, NO))];

/// What is answered where it is found.
pub const YES: [Clause; 1] = [Clause::Sets(VALUE, -1, (NO, NO, NO, NO))];

// The message of a failed search is typed: %SRH and a line end.
const WARNS: [Clause; 1] = [Clause::Sets(TYPED, 6, ((1, Of::Was(TYPED)), NO, NO, NO))];

// What is answered where nothing is.
const MISS: [Clause; 1] = [Clause::Sets(VALUE, 0, (NO, NO, NO, NO))];

// From the pointer on the lines only go on.
const AHEAD: [Clause; 3] = [
    Clause::Wants(0, ((1, START), (-1, Of::Was(POINTER)), NO, NO)),
    Clause::Wants(0, ((1, END), (-1, Of::Was(LINE_END)), NO, NO)),
    Clause::Wants(0, ((1, BEGIN), (-1, Of::Was(LINE_START)), NO, NO)),
];

const HERE: [Clause; 4] = [
    Clause::Wants(0, ((1, START), (-1, Of::Was(POINTER)), NO, NO)),
    Clause::Wants(0, ((1, END), (-1, Of::Was(LINE_END)), NO, NO)),
    Clause::Wants(0, ((1, BEGIN), (-1, Of::Was(LINE_START)), NO, NO)),
    Clause::Wants(0, ((-1, START), (1, Of::Was(POINTER)), NO, NO)),
];

const BACK: [Clause; 1] = [Clause::Wants(-1, ((-1, START), (1, Of::Was(POINTER)), NO, NO))];

// The match is no longer than its parts say.
const EXACT: [Clause; 1] = [Clause::Wants(0, ((-1, PLACE), (1, START), (1, LEAST), NO))];

// A line starts behind it, or the line goes on in which it starts.
const NEW_LINE: [Clause; 1] = [Clause::Wants(0, ((1, BEGIN), (-1, PLACE), NO, NO))];

const SAME_LINE: [Clause; 1] = [Clause::Wants(0, ((1, START), (-1, BEGIN), NO, NO))];

// The last line of the other text starts in it, where it ends a line.
const OTHER_LINE: [Clause; 2] = [
    Clause::Wants(0, ((1, BEGIN), (-1, START), (-1, LAST_START), NO)),
    Clause::Wants(0, ((-1, BEGIN), (1, START), (1, LAST_START), NO)),
];

// A constraint of a number alone has no more terms than this: it and a constant.
const MOST_TERMS: usize = 2;

// Adds the clauses of where a search looks.
fn add_direction(row: &mut Vec<Clause>, direction: Direction) -> Result<(), RowFault>
    ensures { OnOk result (row.new.items ≡ row.old.items ++ direction_clauses direction) }
{
    match direction {
        Direction::Ahead => row.extend_from_slice(&AHEAD)?,
        Direction::Back => row.extend_from_slice(&BACK)?,
        Direction::Here => row.extend_from_slice(&HERE)?,
    }
    Ok(())
}

// Adds clauses where something is so.
fn add_if(row: &mut Vec<Clause>, is_so: bool, clauses: &[Clause]) -> Result<(), RowFault>
    ensures { OnOk result (row.new.items ≡ row.old.items ++ (if is_so then clauses.now else [])) }
{
    if is_so {
        row.extend_from_slice(clauses)?;
    } else {
        row.extend_from_slice(&[])?;
    }
    Ok(())
}

// What is wanted of a match besides lying in the buffer.
fn extras(known: KnownMatch, alloc: Global) -> Result<Vec<Clause>, RowFault>
    ensures { IfOk result (λ row. row.items ≡ extra_clauses known) }
{
    let mut row = Vec::new(alloc);
    row.extend_from_slice(&LIES)?;
    add_direction(&mut row, known.direction)?;
    add_if(&mut row, known.is_exact, &EXACT)?;
    add_if(&mut row, known.ends_line, &NEW_LINE)?;
    add_if(&mut row, known.stays_in_line, &SAME_LINE)?;
    Ok(row)
}

// What is known of a match of parts.
fn known_of(parts: &[Part], direction: Direction) -> KnownMatch
    ensures { IsKnown parts.now direction result }
{
    KnownMatch {
        direction,
        is_exact: are_single(parts),
        ends_line: end_line(parts),
        stays_in_line: stay_in_line(parts),
    }
}

// Whether matches that a search looks for begin at the pointer or behind it.
fn looks_ahead(direction: Direction) -> bool
    ensures { result ≡ true → (p : ℕ) (span : Span) → LiesTo direction p span → p ≤ span.start }
{
    !matches!(direction, Direction::Back)
}

// Whether a number plainly is of no character with some codes.
fn is_outside(number: &Form, codes: Codes) -> bool
    ensures { result ≡ true → (n : ℕ) (v : Valuation) (code : ℕ)
        → IsIn codes code → value number.now n v ≢ pos code }
{
    match known(number) {
        Some(code) => code < i128::from(codes.least) || code > i128::from(codes.most),
        None => false,
    }
}

// Whether a constraint plainly keeps a number below a code.
fn is_kept_below(
    number: &Form,
    constraint: &Form,
    code: u32,
    alloc: Global,
) -> Result<bool, RowFault>
    ensures { IfOk result (λ is_so. is_so ≡ true → (n : ℕ) (v : Valuation)
        → Holds n v constraint.now → (value number.now n v +ℤ pos 1) ≤ℤ pos code) }
{
    let sum = number.add(constraint, alloc)?;
    match known(&sum) {
        Some(most) => Ok(most < i128::from(code)),
        None => Ok(false),
    }
}

// Whether it plainly keeps it above one.
fn is_kept_above(
    number: &Form,
    constraint: &Form,
    code: u32,
    alloc: Global,
) -> Result<bool, RowFault>
    ensures { IfOk result (λ is_so. is_so ≡ true → (n : ℕ) (v : Valuation)
        → Holds n v constraint.now → (pos code +ℤ pos 1) ≤ℤ value number.now n v) }
{
    let difference = number.sub(constraint, alloc)?;
    match known(&difference) {
        Some(least) => Ok(least > i128::from(code)),
        None => Ok(false),
    }
}

// Whether a constraint plainly keeps it outside some codes.
fn is_kept_outside(
    number: &Form,
    constraint: &Form,
    codes: Codes,
    alloc: Global,
) -> Result<bool, RowFault>
    ensures { IfOk result (λ is_so. is_so ≡ true → (n : ℕ) (v : Valuation) (code : ℕ)
        → Holds n v constraint.now → IsIn codes code → value number.now n v ≢ pos code) }
{
    if is_kept_below(number, constraint, codes.least, alloc)? {
        return Ok(true);
    }
    is_kept_above(number, constraint, codes.most, alloc)
}

// Whether it plainly is outside them by the constraints of a case.
fn is_never_in(case: &Case, number: &Form, codes: Codes, alloc: Global) -> Result<bool, RowFault>
    ensures { IfOk result (λ is_so. is_so ≡ true → (n : ℕ) (v : Valuation) (code : ℕ)
        → All (Holds n v) case.now.constraints.items → IsIn codes code
        → value number.now n v ≢ pos code) }
{
    if is_outside(number, codes) {
        return Ok(true);
    }
    for constraint in &case.constraints {
        if constraint.terms().len() > MOST_TERMS {
            continue;
        }
        if is_kept_outside(number, constraint, codes, alloc)? {
            return Ok(true);
        }
    }
    Ok(false)
}

// Whether a match plainly begins with another character than that at the pointer.
fn begins_later(
    case: &Case,
    parts: &[Part],
    direction: Direction,
    alloc: Global,
) -> Result<bool, RowFault>
    ensures { IfOk result (λ is_so. is_so ≡ true → BeginsLater parts.now direction case.now) }
{
    if !looks_ahead(direction) {
        return Ok(false);
    }
    let here = single(case, Single::CodeHere, alloc)?;
    let is_other = is_never_in(case, &here, first_codes(parts), alloc)?;
    Ok(is_other)
}

/// The case where the pointer is behind a match.
pub fn find(
    case: &Case,
    parts: &[Part],
    direction: Direction,
    alloc: Global,
) -> Result<Case, RowFault>
    ensures { IfOk result (λ made. IsFoundBy parts.now direction case.now made) }
{
    let least = least(case, parts, alloc)?;
    let more = extras(known_of(parts, direction), alloc)?;
    let mut row = Vec::new(alloc);
    row.extend_from_slice(&FOUND)?;
    row.extend_from_slice(&more)?;
    let is_later = begins_later(case, parts, direction, alloc)?;
    let codes = last_codes(parts);
    add_if(&mut row, codes.least == codes.most, &ENDS_WITH)?;
    row.extend_from_slice(&ENDS_IN)?;
    add_if(&mut row, is_later, &LATER)?;
    let from = counted(codes.least as usize, alloc)?;
    let to = counted(codes.most as usize, alloc)?;
    changed(case, &row, &[least, from, to], alloc)
}

/// The case where a text is put in the stead of a match.
pub fn replace(
    case: &Case,
    parts: &[Part],
    direction: Direction,
    text: &[u8],
    alloc: Global,
) -> Result<Case, RowFault>
    ensures { IfOk result (λ made. IsReplacedBy parts.now direction text.now case.now made) }
{
    let start = last_start(text);
    let known = KnownMatch {
        ends_line: false,
        stays_in_line: start == 0,
        ..known_of(parts, direction)
    };
    let more = extras(known, alloc)?;
    let mut row = Vec::new(alloc);
    row.extend_from_slice(&REPLACED)?;
    row.extend_from_slice(&more)?;
    add_if(&mut row, start > 0, &OTHER_LINE)?;
    let least = least(case, parts, alloc)?;
    let long = counted(text.len(), alloc)?;
    let last = counted(start, alloc)?;
    changed(case, &row, &[least, long, last], alloc)
}

/// The condition that the buffer of a case that is made of another is not too long.
pub fn fitted(case: &Case, made: &Case, alloc: Global) -> Result<Guarded, RowFault>
    ensures { IfOk result (λ guarded. HasRoom case.now made.now guarded) }
{
    let size = single(made, Single::Size, alloc)?;
    let most = counted(LIMIT, alloc)?;
    let wanted = most.sub(&size, alloc)?;
    let constraints = copied_constraints(&made.constraints, alloc)?;
    Ok(Guarded {
        symbols: case.symbols,
        constraints,
        wanted,
    })
}

// The case where nothing is found: with two colons the pointer stays.
fn missed(case: &Case, colons: u8, alloc: Global) -> Result<Case, RowFault>
    ensures { IfOk result (λ made. IsMissed colons case.now made) }
{
    if colons >= 2 {
        changed(case, &[], &[], alloc)
    } else {
        changed(case, &STARTED, &[], alloc)
    }
}

// A search that answers goes on behind itself.
fn answering(
    found: &Case,
    missed: &Case,
    asked: AskedSearch,
    alloc: Global,
) -> Result<Outcomes, RowFault>
    ensures conditions { IfOk result (λ all. all.conditions.items ≡ asked.conditions.items) }
    ensures guarded { IfOk result (λ all. all.guarded.items ≡ asked.guarded.items) }
    ensures answers { IfOk result (λ all. Answers found.now missed.now all) }
{
    let AskedSearch {
        conditions,
        guarded,
    } = asked;
    let yes = told(found, &YES, alloc)?;
    let no = told(missed, &MISS, alloc)?;
    let mut cases = Vec::new(alloc);
    cases.push(yes)?;
    cases.push(no)?;
    Ok(Outcomes {
        conditions,
        guarded,
        cases,
        away: Vec::new(alloc),
    })
}

// The case where the message is typed besides.
fn warned(missed: &Case, alloc: Global) -> Result<Case, RowFault>
    ensures { IfOk result (λ made. IsWarned missed.now made) }
{
    changed(missed, &WARNS, &[], alloc)
}

// Where one that does not answer finds nothing, it leaves its iteration, with a message.
fn leaving(
    found: &Case,
    missed: &Case,
    asked: AskedSearch,
    alloc: Global,
) -> Result<Outcomes, RowFault>
    ensures conditions { IfOk result (λ all. all.conditions.items ≡ asked.conditions.items) }
    ensures guarded { IfOk result (λ all. all.guarded.items ≡ asked.guarded.items) }
    ensures leaves { IfOk result (λ all. Leaves found.now missed.now all) }
{
    let AskedSearch {
        conditions,
        guarded,
    } = asked;
    let behind = told(found, &[], alloc)?;
    let late = warned(missed, alloc)?;
    let gone = left(&late, NumberRange::Any, &[], alloc)?;
    let mut cases = Vec::new(alloc);
    cases.push(behind)?;
    let mut away = Vec::new(alloc);
    away.push(gone)?;
    Ok(Outcomes {
        conditions,
        guarded,
        cases,
        away,
    })
}

// The direction of a search back or ahead; with two colons it looks at the pointer alone.
fn directed(is_back: bool, colons: u8) -> Direction
    ensures { result ≡ aimed is_back colons }
{
    if colons >= 2 {
        Direction::Here
    } else if is_back {
        Direction::Back
    } else {
        Direction::Ahead
    }
}

// Where a search looks for so many matches. A number that is not known is to be positive.
fn sought(number: &Option<Form>, colons: u8, alloc: Global) -> Result<Aim, RowFault>
    ensures { IfOk result (λ aim. Aims number.now colons aim) }
{
    let mut conditions = Vec::new(alloc);
    let Some(form) = number else {
        let direction = directed(false, colons);
        return Ok(Aim {
            direction,
            conditions,
        });
    };
    match known(form) {
        Some(0) => Err(RowFault::Argument),
        Some(number) => {
            let direction = directed(number < 0, colons);
            Ok(Aim {
                direction,
                conditions,
            })
        }
        None => {
            let least = Form::constant(1, alloc)?;
            conditions.push(form.sub(&least, alloc)?)?;
            let direction = directed(false, colons);
            Ok(Aim {
                direction,
                conditions,
            })
        }
    }
}

/// The outcomes of what is found and what is missed.
pub fn ended(
    found: &Case,
    missed: &Case,
    asked: AskedSearch,
    answers: bool,
    alloc: Global,
) -> Result<Outcomes, RowFault>
    ensures conditions { IfOk result (λ all. all.conditions.items ≡ asked.conditions.items) }
    ensures guarded { IfOk result (λ all. all.guarded.items ≡ asked.guarded.items) }
    ensures ends { IfOk result (λ all. Ends answers found.now missed.now all) }
{
    if answers {
        answering(found, missed, asked, alloc)
    } else {
        leaving(found, missed, asked, alloc)
    }
}

/// How many matches are sought, if that is said. A search takes no pair of arguments, and has a text.
pub(crate) fn number_sought(
    case: &Case,
    element: &Element,
    alloc: Global,
) -> Result<Option<Form>, RowFault>
    ensures takes { IfOk result (λ number. TakesNumber case.now number) }
    ensures some { OnOk result (1 ≤ length (seen element.now).text) }
{
    let taken = take_arguments(case, alloc)?;
    let TakenForms { first, value } = taken;
    if first.is_some() {
        return Err(RowFault::Argument);
    }
    if element.text.is_empty() {
        return Err(RowFault::NotTold);
    }
    Ok(value)
}

// What a search in the buffer begins with.
fn begun_search(case: &Case, element: &Element, alloc: Global) -> Result<BegunSearch, RowFault>
    ensures { IfOk result (λ begun. IsBegun (seen element.now) case.now begun) }
{
    let number = number_sought(case, element, alloc)?;
    let parts = parts(element.text, alloc)?;
    let aim = sought(&number, element.colons, alloc)?;
    let start = missed(case, element.colons, alloc)?;
    Ok(BegunSearch { parts, aim, start })
}

// The outcomes of a search that finds this, where so much is asked of that.
fn ended_search(
    begun: BegunSearch,
    found: &Case,
    guarded: Vec<Guarded>,
    answers: bool,
    alloc: Global,
) -> Result<Outcomes, RowFault>
    ensures conditions { IfOk result (λ all. all.conditions.items ≡ begun.aim.conditions.items) }
    ensures guarded { IfOk result (λ all. all.guarded.items ≡ guarded.items) }
    ensures ends { IfOk result (λ all. Ends answers found.now begun.start all) }
{
    let BegunSearch {
        parts: _parts,
        aim,
        start,
    } = begun;
    let Aim {
        direction: _direction,
        conditions,
    } = aim;
    let asked = AskedSearch {
        conditions,
        guarded,
    };
    ended(found, &start, asked, answers, alloc)
}

/// What comes of `S` and `FS`, where they answer, as with a colon or before `;`, or do not.
pub fn search(
    case: &Case,
    kind: Search,
    element: &Element,
    answers: bool,
    alloc: Global,
) -> Result<Outcomes, RowFault>
    ensures { IfOk result (λ all. element.now.kind ≡ kinds.Search kind
        → SearchLaw answers (seen element.now) case.now all) }
{
    let begun = begun_search(case, element, alloc)?;
    match kind {
        Search::Find => {
            let behind = find(case, &begun.parts, begun.aim.direction, alloc)?;
            ended_search(begun, &behind, Vec::new(alloc), answers, alloc)
        }
        Search::Replace => {
            let behind = replace(
                case,
                &begun.parts,
                begun.aim.direction,
                element.second,
                alloc,
            )?;
            let mut guarded = Vec::new(alloc);
            guarded.push(fitted(case, &behind, alloc)?)?;
            ended_search(begun, &behind, guarded, answers, alloc)
        }
        _ => Err(RowFault::NotTold),
    }
}
