//! The first of some policies that an edit breaks.
ghost use Rattle.std.specs.Prelude.{◌↔◌, IfSome, IsNone};
ghost use Rattle.teco_policy.specs.Policies.{IsFirstBroken, KeepEach};

use crate::breach::Breach;
use crate::policy::Policy;

/// A policy that an edit breaks, by its place among those that are asked, and where.
#[derive(Clone, Copy)]
pub struct Broken {
    pub policy: usize,
    pub breach: Breach,
}

/// The first of some policies that an edit breaks; `None` where it keeps each.
pub fn first_broken(policies: &[Policy], old: &[u8], new: &[u8]) -> Option<Broken>
    ensures kept { IsNone result ↔ KeepEach policies.now old.now new.now }
    ensures first { IfSome result (IsFirstBroken policies.now old.now new.now) }
{
    for (policy, asked) in policies.iter().enumerate() {
        if let Some(breach) = asked.breach(old, new) {
            return Some(Broken { policy, breach });
        }
    }
    None
}
