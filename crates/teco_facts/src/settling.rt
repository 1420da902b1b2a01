//! What becomes of the levels outside the innermost, which is worked out as they are looked at.
ghost use Rattle.std.specs.Prelude.{◌≡◌, ◌||◌};
ghost use Rattle.teco_facts.specs.Settled.{SettlesAgain, SettlesBoth, levels_since, settled_by};
ghost use Rattle.teco_verifier.specs.facts.Covers as covers;

use crate::{LevelFacts, Margins};
use teco_stack::Chain;

/// Where the pointer was when levels settled first, and whether all that was saved has ended since.
#[derive(Clone, Copy)]
pub struct Settling {
    pub margins: Margins,
    pub ends: bool,
}

/// A level behind which a parenthesis opened, and what had become by then of those outside it.
#[derive(Clone, Copy)]
pub struct Opened {
    pub level: LevelFacts,
    pub below: Option<Settling>,
}

/// A level as it is by now.
pub fn settled(settling: Option<Settling>, level: LevelFacts) -> LevelFacts
    ensures { result ≡ settled_by settling level }
{
    match settling {
        None => level,
        Some(settling) => level.settled(settling.margins, settling.ends),
    }
}

// Whether one or the other holds.
fn either(one: bool, two: bool) -> bool
    ensures { result ≡ (one || two) }
{
    one || two
}

/// What settles levels once more.
pub fn settled_again(settling: Option<Settling>, margins: Margins, ends: bool) -> Settling
    ensures { SettlesAgain settling margins ends result }
{
    match settling {
        None => Settling { margins, ends },
        Some(earlier) => Settling {
            margins: earlier.margins,
            ends: either(earlier.ends, ends),
        },
    }
}

/// What settles levels by one settling, and then by another.
pub fn both(earlier: Option<Settling>, later: Option<Settling>) -> Option<Settling>
    ensures { SettlesBoth earlier later result }
{
    match later {
        None => earlier,
        Some(later) => Some(settled_again(earlier, later.margins, later.ends)),
    }
}

// Whether a level as it is by now covers another. Where both are empty nothing has to be settled.
#[tactic(auto, using(crate::proofs::Settles::empty_settled))]
fn covers_since(
    one: &Opened,
    one_since: &Option<Settling>,
    edge: &Opened,
    edge_since: &Option<Settling>,
    margins: Margins,
) -> bool
    ensures { result ≡ covers.covers_level margins (settled_by one_since.now one.now.level)
        (settled_by edge_since.now edge.now.level) }
{
    if one.level.is_empty() && edge.level.is_empty() {
        return true;
    }
    let there = settled(*one_since, one.level);
    there.covers(settled(*edge_since, edge.level), margins)
}

/// Whether each level as it is by now is covered, of as many.
pub fn covers_levels(
    mut one: &Chain<Opened>,
    mut one_since: Option<Settling>,
    mut edge: &Chain<Opened>,
    mut edge_since: Option<Settling>,
    margins: Margins,
) -> bool
    ensures { result ≡ covers.each_covers (covers.covers_level margins) (levels_since one_since
        one.now) (levels_since edge_since edge.now) }
{
    loop {
        let Some((level, one_below)) = one.parts() else {
            return edge.parts().is_none();
        };
        let Some((arriving, edge_below)) = edge.parts() else {
            return false;
        };
        if !covers_since(level, &one_since, arriving, &edge_since, margins) {
            return false;
        }
        one_since = both(level.below, one_since);
        edge_since = both(arriving.below, edge_since);
        one = one_below;
        edge = edge_below;
    }
}
