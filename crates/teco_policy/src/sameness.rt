//! Whether policies say the same.
ghost use Rattle.std.specs.Prelude.{◌≡◌, List, ℕ, IsTrue};
ghost use Rattle.teco_policy.specs.Policies.{Implies, ImplyEach};

use crate::alike::are_equal;
use crate::policy::Policy;

impl Policy {
    /// Do both say the same, in the same words? Whatever keeps this policy then keeps the other.
    pub fn says_same(&self, other: &Policy) -> bool
        ensures { IsTrue result → Implies self.now other.now }
    {
        match (self, other) {
            (Policy::KeepText, Policy::KeepText) => true,
            (Policy::KeepSize, Policy::KeepSize) => true,
            (Policy::KeepLines, Policy::KeepLines) => true,
            (Policy::KeepOthers(one), Policy::KeepOthers(other)) => one.says_same(other),
            (Policy::AddNothing, Policy::AddNothing) => true,
            (Policy::AddOnly(one), Policy::AddOnly(other)) => are_equal(one, other),
            (Policy::TakeOnly(one), Policy::TakeOnly(other)) => are_equal(one, other),
            (Policy::Most(one), Policy::Most(other)) => *one == *other,
            (Policy::MostPercent(one), Policy::MostPercent(other)) => one.value() == other.value(),
            _ => false,
        }
    }
}

/// Do policies say the same, in turn? Whatever keeps each of these then keeps each of the others.
pub fn say_same(policies: &[Policy], others: &[Policy]) -> bool
    ensures { IsTrue result → ImplyEach policies.now others.now }
{
    if policies.len() != others.len() {
        return false;
    }
    for (i, other) in others.iter().enumerate() {
        if !policies[i].says_same(other) {
            return false;
        }
    }
    true
}
