//! The push-down list.
ghost use Rattle.std.specs.Prelude.{◌≡◌, [], IfOk, length, nat_lt};
ghost use Rattle.std.specs.List.{list_all};
ghost use Rattle.teco_facts.specs.Does.{Gives, Pops};
ghost use Rattle.teco_verifier.specs.facts.Facts as rules;
ghost use Rattle.teco_verifier.specs.facts.Storages as storages;

use crate::{FactFault, Facts, Pushed};
use std::alloc::AllocError;
use std::mem;
use teco_base::Reg;
use teco_stack::SharedStack;
use teco_verifier::RefusalReason;

impl Facts {
    /// How many pairs were pushed since the entry.
    pub fn pushed(&self) -> usize
        ensures { result ≡ length self.now.pushes }
    {
        self.known.pushes.len()
    }

    /// The facts with the pairs that were pushed side by side, and the levels of the arguments too,
    /// so that going through them takes less time; if there is memory.
    pub fn packed(mut self) -> Result<Facts, AllocError>
        ensures { IfOk result (λ facts. facts ≡ self) }
    {
        self.known.pushes = self.known.pushes.packed()?;
        self.known.arguments.pack()?;
        Ok(self)
    }

    /// Takes all pairs out that were pushed.
    pub fn take_pushes(&mut self) -> SharedStack<Pushed>
        ensures value { result ≡ self.old.pushes }
        ensures left { self.new ≡ record self.old { pushes = [] } }
    {
        let none = SharedStack::new(self.alloc);
        mem::replace(&mut self.known.pushes, none)
    }

    /// Puts these pairs in the place of those that were pushed.
    pub fn put_pushes(&mut self, pushes: SharedStack<Pushed>)
        ensures { self.new ≡ record self.old { pushes = pushes } }
    {
        self.known.pushes = pushes;
    }

    /// Whether the pairs that were pushed lie at the same place as those of other facts, so that
    /// they need not be compared. No clause says that they are then the same.
    pub fn has_pushes_of(&self, other: &Facts) -> bool {
        self.known.pushes.chain().is_at(other.known.pushes.chain())
    }

    // Takes the pair that was pushed last.
    fn pop_pushed(&mut self) -> Result<Option<Pushed>, AllocError>
        ensures { Pops self.old self.new result }
    {
        self.known.pushes.pop()
    }

    // Are `count` pairs more than there were at the < of each open iteration?
    fn is_above(&self, count: usize) -> bool
        ensures { result ≡ list_all (λ (i : rules.Iteration). nat_lt i.pushes count)
            self.now.iterations }
    {
        let iterations = self.known.iterations.as_slice();
        iterations.iter().all(|i| i.pushes < count)
    }
}

/// What is known of the pair is pushed, if there is memory.
pub fn push(register: Reg, mut facts: Facts) -> Result<Facts, AllocError>
    ensures { IfOk result (λ pushed. pushed ≡ storages.push register facts) }
{
    let pair = Pushed {
        number: facts.number_of(register),
        text: facts.text_of(register),
    };
    facts.known.pushes = facts.known.pushes.copied()?.with(pair)?;
    Ok(facts)
}

/// A pair is popped into a register whose text is none of the library's, but none from below the
/// entry, or from below the < of an open iteration.
pub fn pop(library: bool, register: Reg, mut facts: Facts) -> Result<Facts, FactFault>
    ensures { Gives (storages.pop library register facts) result }
{
    if library {
        return Err(FactFault::Refused(RefusalReason::Written));
    }
    let above = facts.is_above(facts.pushed());
    let popped = facts.pop_pushed()?;
    match popped {
        None => Err(FactFault::Refused(RefusalReason::Pop)),
        Some(pair) => {
            if above {
                let facts = facts.with_number(register, pair.number, false)?;
                Ok(facts.with_text(register, pair.text)?)
            } else {
                Err(FactFault::Refused(RefusalReason::Pop))
            }
        }
    }
}
