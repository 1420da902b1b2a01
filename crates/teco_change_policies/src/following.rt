//! Which policies follow.
ghost use Rattle.std.specs.Prelude.{◌≡◌, IsTrue};
ghost use Rattle.teco_change_policies.specs.Laws.{AlwaysKeep, LeaveOthers, ends_within_line, others};

use crate::laws::{
    nothing_is_added, only_these_are_added, only_these_are_taken, others_are_left,
    swaps_keep_lines, swaps_keep_others, text_is_kept,
};
use crate::manner::{Manner, is_each};
use crate::modes::is_in_either_case;
use crate::simple::is_simple;
use crate::sought::are_simple;
use teco_base::bytes::is_line_end;
use teco_changes::{Change, Text};
use teco_policy::Policy;

/// Do such changes keep a policy in every text? `false` where it is not known: of a size and of a
/// number of lines nothing is told.
pub fn always_keep(changes: &[Change], policy: &Policy) -> bool
    ensures { IsTrue result → AlwaysKeep changes.now policy.now }
{
    text_is_kept();
    nothing_is_added();
    only_these_are_added();
    only_these_are_taken();
    swaps_keep_lines();
    match policy {
        Policy::KeepText => is_each(Manner::TakesNothing, changes),
        Policy::KeepLines => is_each(Manner::SwapsWithinLine, changes),
        Policy::KeepOthers(search) => {
            is_in_either_case(search) && keeps_others(changes, search.text())
        }
        Policy::AddNothing => is_each(Manner::PutsNothing, changes),
        Policy::AddOnly(characters) => is_each(Manner::PutsOnly(characters.as_slice()), changes),
        Policy::TakeOnly(characters) => is_each(Manner::TakesOnly(characters.as_slice()), changes),
        Policy::KeepSize | Policy::Most(_) | Policy::MostPercent(_) => false,
    }
}

/// Do lines without a match of a search text, in either case, stay as they are in every text? `false`
/// where it is not known.
pub fn keeps_others(changes: &[Change], wanted: &[u8]) -> bool
    ensures { IsTrue result → AlwaysKeep changes.now (others wanted.now) }
{
    swaps_keep_others();
    is_simple(wanted) && is_each(Manner::SwapsMatches(wanted), changes)
}

/// Do lines without a match of one of these search texts, in either case, stay as they are in every text,
/// though a last line without a line end may come or go? `false` where it is not known.
pub fn leaves_others(changes: &[Change], wanted: &[Text]) -> bool
    ensures { IsTrue result → LeaveOthers changes.now wanted.now }
{
    others_are_left();
    are_simple(wanted) && is_each(Manner::TakesMatches(wanted), changes)
}

/// Does a text end within a line, with a character that is no line end?
#[tactic(auto, using(crate::proofs::LineEnds::last_ends))]
pub fn ends_within_line(text: &[u8]) -> bool
    ensures { result ≡ ends_within_line text.now }
{
    !text.is_empty() && !is_line_end(text[text.len() - 1])
}
