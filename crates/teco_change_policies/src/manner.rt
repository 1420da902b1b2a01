//! What each change of a list may be like.
ghost use Rattle.std.specs.Prelude.{All, IsTrue};
ghost use Rattle.teco_change_policies.specs.Manners.{Is};

use crate::single::{
    keeps_line_ends, puts_nothing, puts_only, seeks, swaps_within_line, takes_nothing, takes_only,
};
use crate::sought::seeks_one;
use teco_changes::{Change, Text};

/// What a change may be like.
#[derive(Clone, Copy)]
pub enum Manner<'a> {
    /// It takes nothing.
    TakesNothing,
    /// It puts nothing.
    PutsNothing,
    /// It takes only these characters.
    TakesOnly(&'a [u8]),
    /// It puts only these characters.
    PutsOnly(&'a [u8]),
    /// It neither takes nor puts a line end.
    KeepsLineEnds,
    /// It puts some characters in the stead of some others, and none is a line end.
    SwapsWithinLine,
    /// It does so, in the stead of a match of this search text.
    SwapsMatches(&'a [u8]),
    /// It takes matches of one of these search texts, and neither takes nor puts a line end.
    TakesMatches(&'a [Text]),
}

// Is a change like that?
fn is_so(manner: Manner<'_>, change: &Change) -> bool
    ensures { IsTrue result → Is manner.entry change.now }
{
    match manner {
        Manner::TakesNothing => takes_nothing(change),
        Manner::PutsNothing => puts_nothing(change),
        Manner::TakesOnly(characters) => takes_only(characters, change),
        Manner::PutsOnly(characters) => puts_only(characters, change),
        Manner::KeepsLineEnds => keeps_line_ends(change),
        Manner::SwapsWithinLine => swaps_within_line(change),
        Manner::SwapsMatches(wanted) => swaps_within_line(change) && seeks(wanted, change),
        Manner::TakesMatches(wanted) => keeps_line_ends(change) && seeks_one(wanted, change),
    }
}

/// Is each change of a list like that? `false` where it is not known.
pub fn is_each(manner: Manner<'_>, changes: &[Change]) -> bool
    ensures { IsTrue result → All (Is manner.entry) changes.now }
{
    for change in changes {
        if !is_so(manner, change) {
            return false;
        }
    }
    true
}
