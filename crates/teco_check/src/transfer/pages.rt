//! A, P, PW and Y.
ghost use Rattle.std.specs.Prelude.{◌≡◌, None, Some, if◌then◌else◌};
ghost use Rattle.teco_verifier.specs.facts.Pages as pages;
ghost use Rattle.teco_facts.specs.Numbers.{AreSmall};

use crate::transfer::query::character;
use crate::transfer::{Numbers, count_of, part_named};
use teco_facts::{Facts, Foreseen, Margins, Number, Range, Shift, TakenFacts};
use teco_model::kind::Page;
use teco_verifier::RefusalReason;

// A count of pages is at least 1.
fn some_pages(n: Range) -> Result<(), RefusalReason>
    ensures { result ≡ pages.some_pages n }
{
    if Numbers::NotPositive.may_take(n) {
        Err(RefusalReason::Argument)
    } else {
        Ok(())
    }
}

// A part is written, which leaves all as it is.
fn part_written(m: Number, n: Number, facts: Facts) -> Result<Foreseen, RefusalReason>
    ensures { result ≡ pages.writing (Some m) (Some n) facts }
{
    let (first, value) = (Some(m), Some(n));
    part_named(TakenFacts { first, value }, facts.margins())?;
    Ok(Foreseen::silent(facts))
}

// Pages are written, which leaves all as it is.
fn pages_written(n: Option<Number>, facts: Facts) -> Result<Foreseen, RefusalReason>
    ensures { result ≡ pages.writing None n facts }
{
    some_pages(count_of(n, facts.margins()))?;
    Ok(Foreseen::silent(facts))
}

// To the begin of another page, where nothing is saved.
fn pages_turned(n: Option<Number>, facts: Facts) -> Result<Foreseen, RefusalReason>
    requires { AreSmall facts.position.falls }
    ensures { result ≡ pages.turning None n facts }
{
    some_pages(count_of(n, facts.margins()))?;
    Foreseen::behind(&Shift::moving(0, 0, Some(0)).ending(), facts)
}

// To the begin of another page, or pages are written, or a part.
fn turning(goes_on: bool, taken: TakenFacts, facts: Facts) -> Result<Foreseen, RefusalReason>
    requires { AreSmall facts.position.falls }
    ensures { result ≡ (if goes_on then pages.turning taken.first taken.value facts else
        pages.writing taken.first taken.value facts) }
{
    match (taken.first, taken.value) {
        (Some(m), Some(n)) => part_written(m, n, facts),
        (_, n) if goes_on => pages_turned(n, facts),
        (_, n) => pages_written(n, facts),
    }
}

/// What is done with pages: A gives the code of a character, or adds a page behind the buffer.
pub fn page(page: Page, taken: TakenFacts, facts: Facts) -> Result<Foreseen, RefusalReason>
    requires { AreSmall facts.position.falls }
    ensures { result ≡ pages.pages page taken facts }
{
    match page {
        Page::Append => match taken.value {
            Some(_) => Ok(Foreseen::giving(character(), facts)),
            None => {
                let Margins { back, fore } = facts.margins();
                Foreseen::behind(&Shift::moving(back, fore, Some(0)), facts)
            }
        },
        Page::Next => turning(true, taken, facts),
        Page::Write => turning(false, taken, facts),
        Page::Yank => Err(RefusalReason::Unverified),
    }
}
