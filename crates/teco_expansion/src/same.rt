//! Whether two stands are the same.
ghost use Rattle.std.specs.Prelude.{◌≡◌, map, bytes_eq};
ghost use Rattle.teco_verifier.specs.expansion.Expansion as model;
ghost use Rattle.teco_expansion.specs.Few.{listed};
ghost use Rattle.teco_expansion.specs.Same.{same_waiting};
ghost use Rattle.teco_expansion.specs.Seen.{spot_seen, position_seen, stand_seen};
ghost use Rattle.teco_expansion.specs.Texts.{text_of};

use crate::few::{OpenList, ROOM};
use crate::spot::{Spot, Stand, TextPosition};
use crate::texts::Texts;

// Do both lists have the same numbers in the same order?
#[tactic(auto, using(crate::proofs::Comparing::reversed))]
fn same_numbers(first: &OpenList<usize>, second: &OpenList<usize>) -> bool
    ensures { result ≡ bytes_eq (listed first.now) (listed second.now) }
{
    first.as_slice() == second.as_slice()
}

// Are the texts equal? That of a register is not compared with itself.
#[tactic(auto, using(crate::proofs::Comparing::with_itself))]
fn same_text(texts: &Texts<'_>, first: Option<usize>, second: Option<usize>) -> bool
    ensures { result ≡ bytes_eq (text_of texts.now first) (text_of texts.now second) }
{
    if first == second {
        return true;
    }
    texts.text(first) == texts.text(second)
}

// Are place, text and open iterations equal? Texts are compared last.
#[tactic(auto, using(crate::proofs::Comparing::text_last))]
fn same_spot(texts: &Texts<'_>, first: &Spot, second: &Spot) -> bool
    ensures { result ≡ model.same_spot (spot_seen texts.now first.now)
        (spot_seen texts.now second.now) }
{
    first.place == second.place
        && same_numbers(&first.starts, &second.starts)
        && same_text(texts, first.register, second.register)
}

// Does the same text wait, if any does?
fn same_caller(texts: &Texts<'_>, first: Option<Spot>, second: Option<Spot>) -> bool
    ensures { result ≡ same_waiting texts.now first second }
{
    match (first, second) {
        (None, None) => true,
        (Some(one), Some(other)) => same_spot(texts, &one, &other),
        _ => false,
    }
}

// Do the same texts wait, as they stand?
fn same_callers(texts: &Texts<'_>, first: &OpenList<Spot>, second: &OpenList<Spot>) -> bool
    ensures { result ≡ model.same_spots (map (spot_seen texts.now) (listed first.now))
        (map (spot_seen texts.now) (listed second.now)) }
{
    for at in 0..ROOM {
        if !same_caller(texts, first.get(at), second.get(at)) {
            return false;
        }
    }
    true
}

/// Do both stand at the same place in the texts, with the same iterations open?
#[tactic(auto, using(crate::proofs::Comparing::callers_last))]
pub fn same_stand(texts: &Texts<'_>, first: &Stand, second: &Stand) -> bool
    ensures { result ≡ model.same_stand (stand_seen texts.now first.now)
        (stand_seen texts.now second.now) }
{
    same_spot(texts, &first.position.running, &second.position.running)
        && same_numbers(&first.iterations, &second.iterations)
        && same_callers(texts, &first.position.callers, &second.position.callers)
}

/// Do both stand at the same place in the texts, whichever iterations are open there?
#[tactic(auto, using(crate::proofs::Comparing::place_first))]
pub fn same_place(texts: &Texts<'_>, first: &TextPosition, second: &TextPosition) -> bool
    ensures { result ≡ model.same_place (position_seen texts.now first.now)
        (position_seen texts.now second.now) }
{
    first.running.place == second.running.place
        && same_callers(texts, &first.callers, &second.callers)
        && same_text(texts, first.running.register, second.running.register)
}
