//! Policies, and whether an edit keeps them.
ghost use Rattle.std.specs.Prelude.{◌↔◌, IfSome, IsNone, IsTrue};
ghost use Rattle.teco_policy.specs.Policies.{Breaks, Keeps, Tells};

use crate::alike::Rule;
use crate::breach::{Breach, added, changed_too_much, resized, taken, unlike_line};
use crate::lines::line_count;
use crate::percent::Percent;
use crate::search_text::SearchText;

/// What an edit must not do to a text.
#[derive(Drop)]
pub enum Policy {
    /// Nothing is taken.
    KeepText,
    /// The text is as long as before.
    KeepSize,
    /// There are as many lines as before, and each ends alike.
    KeepLines,
    /// As with `KeepLines`; and only those lines change in which the search text was found.
    KeepOthers(SearchText),
    /// Nothing is added.
    AddNothing,
    /// Only these characters are added.
    AddOnly(Vec<u8>),
    /// Only these characters are taken.
    TakeOnly(Vec<u8>),
    /// At most so many lines are changed.
    Most(usize),
    /// At most so many of each hundred lines are changed.
    MostPercent(Percent),
}

impl Policy {
    // Whether the policy is kept, and where it is not.
    #[tactic(auto, using(crate::proofs::Deciding::none_besides))]
    fn told(&self, old: &[u8], new: &[u8]) -> Option<Breach>
        ensures { Tells (Keeps self.now old.now new.now) (Breaks self.now old.now new.now) result }
    {
        match self {
            Policy::KeepText => taken(&[], old, new),
            Policy::KeepSize => resized(old, new),
            Policy::KeepLines => unlike_line(Rule::Ends, old, new),
            Policy::KeepOthers(search) => unlike_line(Rule::Others(search), old, new),
            Policy::AddNothing => added(&[], old, new),
            Policy::AddOnly(characters) => added(characters.as_slice(), old, new),
            Policy::TakeOnly(characters) => taken(characters.as_slice(), old, new),
            Policy::Most(most) => changed_too_much(*most, old, new),
            Policy::MostPercent(percent) => {
                changed_too_much(percent.of(line_count(old)), old, new)
            }
        }
    }

    /// The first place at which an edit breaks the policy; `None` where it keeps it. The time is
    /// linear in the texts, but for the searches of `KeepOthers`, one in each line that differs.
    #[tactic(auto, using(crate::proofs::Deciding::tells_kept, crate::proofs::Deciding::tells_first))]
    pub fn breach(&self, old: &[u8], new: &[u8]) -> Option<Breach>
        ensures kept { IsNone result ↔ Keeps self.now old.now new.now }
        ensures first { IfSome result (Breaks self.now old.now new.now) }
    {
        self.told(old, new)
    }

    /// Does an edit of the old text that leaves the new one keep the policy?
    pub fn is_kept(&self, old: &[u8], new: &[u8]) -> bool
        ensures { IsTrue result ↔ Keeps self.now old.now new.now }
    {
        self.breach(old, new).is_none()
    }
}
