//! The texts of an edit, as they are read and written.
ghost use Rattle.std.specs.Prelude.{◌≡◌, ◌≤◌, ◌++◌, [], length, take, IsNone, IsTrue};
ghost use Rattle.teco_hosts.specs.Events.{opened_input, opened_output, wrote};
ghost use Rattle.teco_hosts.specs.Noting.{event_of_reading};
ghost use Rattle.teco_pages.specs.Texts.{AreNoted, Follow};
ghost use Rattle.teco_policy.specs.Policies.{KeepEach};

use std::alloc::Global;
use teco_policy::{Broken, Policy, first_broken};

/// What the input gave that was opened last, and what was written to the output that was opened last.
#[derive(Drop)]
pub struct Texts {
    pub old: Vec<u8>,
    pub new: Vec<u8>,
}

impl Texts {
    /// The first of some policies that the edit breaks.
    pub fn first_broken(&self, policies: &[Policy]) -> Option<Broken>
        ensures { IsNone result → KeepEach policies.now self.now.old.items self.now.new.items }
    {
        first_broken(policies, &self.old, &self.new)
    }
}

/// Nothing was read or written.
pub fn no_texts(alloc: Global) -> Option<Texts>
    ensures { AreNoted [] result }
{
    Some(Texts {
        old: Vec::new(alloc),
        new: Vec::new(alloc),
    })
}

// Adds bytes to a text, if there is memory for them.
fn is_added(text: &mut Vec<u8>, bytes: &[u8]) -> bool
    ensures { IsTrue result → text.new.items ≡ text.old.items ++ bytes.now }
{
    text.extend_from_slice(bytes).is_ok()
}

/// An input was opened.
#[tactic(auto, using(crate::proofs::Following::follows))]
pub fn note_input(kept: &mut Option<Texts>, _name: &[u8])
    ensures { Follow (opened_input _name.now) kept.old kept.new }
{
    if let Some(texts) = kept {
        texts.old.clear();
    }
}

/// The first bytes of a buffer were read. Where memory for them is refused the texts are kept no more.
#[tactic(auto, using(crate::proofs::Following::follows_reading))]
pub fn note_read(kept: &mut Option<Texts>, buf: &[u8], n: usize)
    requires { n ≤ length buf.now }
    ensures { Follow (event_of_reading n buf.now) kept.old kept.new }
{
    let is_kept = match kept {
        Some(texts) => is_added(&mut texts.old, &buf[..n]),
        None => return,
    };
    if !is_kept {
        *kept = None;
    }
}

/// An output was opened.
#[tactic(auto, using(crate::proofs::Following::follows))]
pub fn note_output(kept: &mut Option<Texts>, _name: &[u8])
    ensures { Follow (opened_output _name.now) kept.old kept.new }
{
    if let Some(texts) = kept {
        texts.new.clear();
    }
}

/// The first of some bytes were written. Where memory for them is refused the texts are kept no more.
#[tactic(auto, using(crate::proofs::Following::follows))]
pub fn note_written(kept: &mut Option<Texts>, bytes: &[u8], n: usize)
    requires { n ≤ length bytes.now }
    ensures { Follow (wrote (take n bytes.now)) kept.old kept.new }
{
    let is_kept = match kept {
        Some(texts) => is_added(&mut texts.new, &bytes[..n]),
        None => return,
    };
    if !is_kept {
        *kept = None;
    }
}
