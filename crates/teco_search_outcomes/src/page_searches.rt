//! What comes of searches over pages, where an output is open. Such a search takes a step for each
//! page that it turns.
ghost use Rattle.std.specs.Prelude.{◌≡◌, ◌≤◌, ◌∷◌, [], IfOk};
ghost use Rattle.teco_model.specs.Element.{seen};
ghost use Rattle.teco_model.specs.declared.kind.Kind.TheVariants as kinds;
ghost use Rattle.teco_motion_outcomes.specs.Changes.{IsTold};
ghost use Rattle.teco_search_outcomes.specs.PageSearches.{EndsInPages, HasMore, HasPageRoom, IsBegunInPages};
ghost use Rattle.teco_search_outcomes.specs.PageSearches.{IsLaterPage, IsPositive, IsThrough, LongLaw, answer_of};
ghost use Rattle.teco_search_outcomes.specs.Searches.{HaveRoom, IsFoundBy, IsReplacedBy};
ghost use Rattle.teco_search_outcomes.specs.declared.searches.Direction.TheVariants.{Ahead};

use crate::pages::room;
use crate::patterns::parts;
use crate::searches::{AskedSearch, Direction, YES, ended, find, fitted, number_sought, replace};
use std::alloc::Global;
use teco_linear::Form;
use teco_model::Element;
use teco_model::kind::Search;
use teco_model::pattern::Part;
use teco_motion_outcomes::changes::{changed, told};
use teco_motion_outcomes::motions::{
    ANY_BEFORE, ANY_HERE, HELD, LINE_END, LINE_START, POINTER, SIZE,
};
use teco_rows::case::Case;
use teco_rows::commands::argument;
use teco_rows::fault::RowFault;
use teco_rows::levels::NO;
use teco_rows::measure::Single;
use teco_rows::outcomes::{Guarded, Outcomes};
use teco_rows::row::{Clause, Mark, Of};

// How long the page is, what is unread behind it, where its first line ends, and how many pages were
// turned.
const PAGE: Of = Of::Unknown(0);

const REST: Of = Of::Unknown(1);

const END: Of = Of::Unknown(2);

const PAGES: Of = Of::Unknown(3);

const STEPS: Mark = Mark::One(Single::Steps);

const LATER: Clause = Clause::Sets(STEPS, 0, ((1, Of::Was(STEPS)), (1, PAGES), NO, NO));

const AT_START: Clause = Clause::Sets(POINTER, 0, (NO, NO, NO, NO));

const STARTS: Clause = Clause::Sets(LINE_START, 0, (NO, NO, NO, NO));

// What a search over pages begins with: the parts that it looks for, its conditions, and the cases
// where a later page is in the place of the buffer and where none is left.
#[derive(Drop)]
struct BegunInPages {
    parts: Vec<Part>,
    conditions: Vec<Form>,
    on: Case,
    gone: Case,
}

// The cases behind a match in the buffer and on a later page, and what is asked of them.
#[derive(Drop)]
struct PageMatches {
    here: Case,
    later: Case,
    guarded: Vec<Guarded>,
}

// Some pages later one is in the place of the buffer. Each of them takes a character of what is
// unread at least.
const LATER_PAGE: [Clause; 15] = [
    ANY_HERE,
    ANY_BEFORE,
    LATER,
    AT_START,
    STARTS,
    Clause::Sets(SIZE, 0, ((1, PAGE), NO, NO, NO)),
    Clause::Sets(HELD, 0, ((1, PAGE), (1, REST), NO, NO)),
    Clause::Sets(LINE_END, 0, ((1, END), NO, NO, NO)),
    Clause::Wants(-1, ((1, PAGES), NO, NO, NO)),
    Clause::Wants(
        0,
        (
            (1, Of::Was(HELD)),
            (-1, Of::Was(SIZE)),
            (-1, REST),
            (-1, PAGES),
        ),
    ),
    Clause::Wants(
        0,
        (
            (1, Of::Was(HELD)),
            (-1, Of::Was(SIZE)),
            (-1, PAGE),
            (-1, REST),
        ),
    ),
    Clause::Wants(0, ((1, PAGE), NO, NO, NO)),
    Clause::Wants(0, ((1, REST), NO, NO, NO)),
    Clause::Wants(0, ((1, END), NO, NO, NO)),
    Clause::Wants(0, ((1, PAGE), (-1, END), NO, NO)),
];

// None is left, and the buffer is empty.
const THROUGH: [Clause; 10] = [
    ANY_HERE,
    ANY_BEFORE,
    LATER,
    AT_START,
    STARTS,
    Clause::Sets(SIZE, 0, (NO, NO, NO, NO)),
    Clause::Sets(HELD, 0, (NO, NO, NO, NO)),
    Clause::Sets(LINE_END, 0, (NO, NO, NO, NO)),
    Clause::Wants(0, ((1, PAGES), NO, NO, NO)),
    Clause::Wants(
        0,
        ((1, Of::Was(HELD)), (-1, Of::Was(SIZE)), (-1, PAGES), NO),
    ),
];

// The case where a later page is in the place of the buffer.
fn later_page(case: &Case, alloc: Global) -> Result<Case, RowFault>
    ensures later { IfOk result (λ made. IsLaterPage case.now made) }
    ensures symbols { IfOk result (λ made. case.now.symbols ≤ made.symbols) }
{
    let on = changed(case, &LATER_PAGE, &[], alloc)?;
    if on.symbols < case.symbols {
        return Err(RowFault::TooMany);
    }
    Ok(on)
}

// The case where no page is left.
fn through(case: &Case, alloc: Global) -> Result<Case, RowFault>
    ensures { IfOk result (λ made. IsThrough case.now made) }
{
    changed(case, &THROUGH, &[], alloc)
}

// The condition that one match is wanted at least.
fn positive(number: Option<Form>, alloc: Global) -> Result<Form, RowFault>
    ensures { IfOk result (λ condition. IsPositive number (condition ∷ [])) }
{
    let count = argument(number, 1, alloc)?;
    let least = Form::constant(1, alloc)?;
    let more = count.sub(&least, alloc)?;
    Ok(more)
}

// That condition, and that what is unread has room.
fn conditions(case: &Case, number: Option<Form>, alloc: Global) -> Result<Vec<Form>, RowFault>
    ensures positive { IfOk result (λ conditions. IsPositive number conditions.items) }
    ensures room { IfOk result (λ conditions. HasPageRoom case.now conditions.items) }
{
    let mut conditions = Vec::new(alloc);
    conditions.push(positive(number, alloc)?)?;
    conditions.push(room(case, alloc)?)?;
    Ok(conditions)
}

// What a search over pages begins with.
fn begun_in_pages(case: &Case, element: &Element, alloc: Global) -> Result<BegunInPages, RowFault>
    ensures { IfOk result (λ begun. IsBegunInPages (seen element.now) case.now begun) }
{
    let number = number_sought(case, element, alloc)?;
    let parts = parts(element.text, alloc)?;
    let conditions = conditions(case, number, alloc)?;
    let on = later_page(case, alloc)?;
    let gone = through(case, alloc)?;
    Ok(BegunInPages {
        parts,
        conditions,
        on,
        gone,
    })
}

// The cases behind a match.
fn found_matches(case: &Case, begun: &BegunInPages, alloc: Global) -> Result<PageMatches, RowFault>
    ensures here { IfOk result (λ found. IsFoundBy begun.now.parts.items Ahead case.now found.here) }
    ensures later { IfOk result (λ found.
        IsFoundBy begun.now.parts.items Ahead begun.now.on found.later) }
{
    let here = find(case, &begun.parts, Direction::Ahead, alloc)?;
    let later = find(&begun.on, &begun.parts, Direction::Ahead, alloc)?;
    Ok(PageMatches {
        here,
        later,
        guarded: Vec::new(alloc),
    })
}

// The conditions that the buffers of two cases that are made of another are not too long.
fn both_fitted(
    case: &Case,
    one: &Case,
    other: &Case,
    alloc: Global,
) -> Result<Vec<Guarded>, RowFault>
    ensures one { IfOk result (λ guarded. HaveRoom case.now one.now guarded.items) }
    ensures other { IfOk result (λ guarded. HaveRoom case.now other.now guarded.items) }
{
    let mut guarded = Vec::new(alloc);
    guarded.push(fitted(case, one, alloc)?)?;
    guarded.push(fitted(case, other, alloc)?)?;
    Ok(guarded)
}

// The cases behind a text that is put in the stead of a match.
fn replaced_matches(
    case: &Case,
    text: &[u8],
    begun: &BegunInPages,
    alloc: Global,
) -> Result<PageMatches, RowFault>
    ensures here { IfOk result (λ found.
        IsReplacedBy begun.now.parts.items Ahead text.now case.now found.here) }
    ensures later { IfOk result (λ found.
        IsReplacedBy begun.now.parts.items Ahead text.now begun.now.on found.later) }
    ensures room { IfOk result (λ found. HaveRoom case.now found.here found.guarded.items) }
    ensures later_room { IfOk result (λ found. HaveRoom case.now found.later found.guarded.items) }
{
    let here = replace(case, &begun.parts, Direction::Ahead, text, alloc)?;
    let later = replace(&begun.on, &begun.parts, Direction::Ahead, text, alloc)?;
    let guarded = both_fitted(case, &here, &later, alloc)?;
    Ok(PageMatches {
        here,
        later,
        guarded,
    })
}

// The case behind a match, which is answered or not.
fn met(found: &Case, answers: bool, alloc: Global) -> Result<Case, RowFault>
    ensures { IfOk result (λ made. IsTold found.now (answer_of answers) made) }
{
    if answers {
        told(found, &YES, alloc)
    } else {
        told(found, &[], alloc)
    }
}

// Outcomes with one case more, that of a match on a later page.
fn with_later(
    all: Outcomes,
    later: &Case,
    answers: bool,
    alloc: Global,
) -> Result<Outcomes, RowFault>
    ensures { IfOk result (λ more. HasMore answers later.now all more) }
{
    let made = met(later, answers, alloc)?;
    let Outcomes {
        conditions,
        guarded,
        mut cases,
        away,
    } = all;
    cases.push(made)?;
    Ok(Outcomes {
        conditions,
        guarded,
        cases,
        away,
    })
}

// The outcomes of a search over pages that finds these matches.
fn page_outcomes(
    begun: BegunInPages,
    found: PageMatches,
    answers: bool,
    alloc: Global,
) -> Result<Outcomes, RowFault>
    ensures { IfOk result (λ all. EndsInPages answers begun found all) }
{
    let BegunInPages {
        parts: _parts,
        conditions,
        on: _on,
        gone,
    } = begun;
    let PageMatches {
        here,
        later,
        guarded,
    } = found;
    let asked = AskedSearch {
        conditions,
        guarded,
    };
    let all = ended(&here, &gone, asked, answers, alloc)?;
    with_later(all, &later, answers, alloc)
}

/// What comes of `N` and `FN`, where an output is open, and they answer or do not. How many matches
/// are wanted is to be 1 at least.
pub fn search_pages(
    case: &Case,
    kind: Search,
    element: &Element,
    answers: bool,
    alloc: Global,
) -> Result<Outcomes, RowFault>
    ensures { IfOk result (λ all. element.now.kind ≡ kinds.Search kind
        → LongLaw answers (seen element.now) case.now all) }
{
    let begun = begun_in_pages(case, element, alloc)?;
    match kind {
        Search::FindInPages => {
            let found = found_matches(case, &begun, alloc)?;
            page_outcomes(begun, found, answers, alloc)
        }
        Search::ReplaceInPages => {
            let found = replaced_matches(case, element.second, &begun, alloc)?;
            page_outcomes(begun, found, answers, alloc)
        }
        _ => Err(RowFault::NotTold),
    }
}
