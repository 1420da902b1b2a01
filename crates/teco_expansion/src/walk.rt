//! The walk through the texts, from the call of the entry on.
ghost use Rattle.std.specs.Prelude.{◌≡◌, All, IfOk};
ghost use Rattle.teco_verifier.specs.expansion.Expansion as model;
ghost use Rattle.teco_expansion.specs.Room.{HasRoom};
ghost use Rattle.teco_expansion.specs.Texts.{library_of};
ghost use Rattle.teco_expansion.specs.Walks.{walk_seen};

use crate::refusal::{ExpandReason, PlacedReason};
use crate::steps::{MOST_ELEMENTS, first_visit, next_visit, refusal_at};
use crate::texts::Texts;
use crate::visit::Visit;
use std::alloc::{AllocError, Global};

/// The visits in their order, and why there is none behind them, if they were refused.
#[derive(Drop)]
pub struct Walk {
    pub visits: Vec<Visit>,
    pub refusal: Option<PlacedReason>,
}

/// The walk up to the return of the entry or to a refusal.
pub fn whole_walk(alloc: Global, texts: &Texts<'_>) -> Result<Walk, AllocError>
    ensures walk { IfOk result (λ walk. walk_seen texts.now walk
        ≡ model.whole_walk_of (library_of texts.now) texts.now.entry) }
    ensures room { IfOk result (λ walk. All HasRoom walk.visits.items) }
{
    let mut visits = Vec::new(alloc);
    let mut visit = first_visit(texts);
    for number in 1..MOST_ELEMENTS + 2 {
        visits.push(visit)?;
        match next_visit(texts, number, &visit) {
            Err(reason) => {
                let refusal = Some(refusal_at(texts, &visit, reason));
                return Ok(Walk { visits, refusal });
            }
            Ok(next) => {
                if next.registers.len() == 0 {
                    return Ok(Walk {
                        visits,
                        refusal: None,
                    });
                }
                visit = next;
            }
        }
    }
    visits.push(visit)?;
    let refusal = Some(refusal_at(texts, &visit, ExpandReason::TooLarge));
    Ok(Walk { visits, refusal })
}
