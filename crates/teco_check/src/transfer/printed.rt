//! What is printed of an element: how many steps it takes at most, and which files it needs.
ghost use Rattle.std.specs.Prelude.{◌≡◌};
ghost use Rattle.teco_verifier.specs.facts.Printed as printed;

use crate::transfer::flow::bound_of;
use crate::transfer::motion::or_one;
use teco_facts::{Facts, sum_of};
use teco_model::kind::{Page, Search};
use teco_model::{Kind, Needs};
use teco_poly::Poly;
use teco_verifier::RefusalReason;

/// The most steps that an element takes: a command of pages one for each page, or one for a part.
/// N and FN take one for each page that is ahead, and one more.
pub fn steps(kind: Kind, facts: &Facts) -> Result<Poly, RefusalReason>
    ensures { result ≡ printed.steps kind facts.now }
{
    match kind {
        Kind::Page(page) => {
            let taken = facts.level().taken()?;
            match (page, taken.first, taken.value) {
                (Page::Append | Page::Yank, _, _) | (_, Some(_), Some(_)) => Ok(Poly::number(1)),
                (_, _, value) => bound_of(or_one(value), facts),
            }
        }
        Kind::Search(Search::FindInPages | Search::ReplaceInPages) => {
            sum_of(&facts.ahead(), &Poly::number(1))
        }
        _ => Ok(Poly::number(1)),
    }
}

/// The files that an element needs: A without n reads the input, and the other commands of pages,
/// N and FN write to the output.
pub fn needs_of(kind: Kind, facts: &Facts) -> Result<Needs, RefusalReason>
    ensures { result ≡ printed.needs kind facts.now }
{
    let (input, output) = match kind {
        Kind::Page(page) => {
            let value = facts.level().taken()?.value;
            match page {
                Page::Append => (value.is_none(), false),
                _ => (false, true),
            }
        }
        Kind::Search(Search::FindInPages | Search::ReplaceInPages) => (false, true),
        _ => (false, false),
    };
    Ok(Needs { input, output })
}
