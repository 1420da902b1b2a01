//! What has arrived at each node, as a table is derived.
ghost use Rattle.std.specs.Prelude.{◌≡◌, ◌-◌, ◌<◌, ◌≤◌, replicate, length, slice_set, slice_index_or, IfOk, OnOk, Ok};
ghost use Rattle.std.specs.Prelude.{None};
ghost use Rattle.teco_check.specs.Derived as derived;

use std::alloc::{AllocError, Global};
use std::marker::Model;
use std::mem;
use teco_facts::{FactFault, Facts};
use teco_verifier::RefusalReason;

/// For each node in the order of their numbers, what is known of all edges that arrived there, or
/// why it is refused.
#[derive(Drop)]
pub struct Arrived {
    slots: Vec<Result<Option<Facts>, RefusalReason>>,
}

impl Model for Arrived {
    ghost use Rattle.teco_check.specs.Derived as derived;

    ghost Value = { derived.Slots };

    ghost view = { λ a. a.slots.items };
}

// One more edge arrives, if there is memory.
fn met_more(
    slot: Result<Option<Facts>, RefusalReason>,
    facts: Facts,
) -> Result<Result<Option<Facts>, RefusalReason>, AllocError>
    ensures { IfOk result (λ met. met ≡ derived.met_more slot facts) }
{
    let others = match slot {
        Err(why) => return Ok(Err(why)),
        Ok(None) => return Ok(Ok(Some(facts))),
        Ok(Some(others)) => others,
    };
    match others.joined(&facts) {
        Ok(join) => Ok(Ok(Some(join))),
        Err(FactFault::Refused(why)) => Ok(Err(why)),
        Err(FactFault::Memory) => Err(AllocError),
    }
}

impl Arrived {
    /// Nothing has arrived at so many nodes, if there is memory.
    pub fn new(alloc: Global, count: usize) -> Result<Arrived, AllocError>
        ensures { IfOk result (λ arrived. arrived ≡ replicate count (Ok None)) }
    {
        let mut slots = Vec::new(alloc);
        for _at in 0..count {
            slots.push(Ok(None))?;
        }
        Ok(Arrived { slots })
    }

    /// An edge arrives at the node of a number, if there is one, and if there is memory.
    pub fn put(&mut self, target: usize, facts: Facts) -> Result<(), AllocError>
        ensures { OnOk result (self.new ≡ derived.arrived_at target facts self.old) }
    {
        if target > 0 && target <= self.slots.len() {
            let slot = mem::replace(&mut self.slots[target - 1], Ok(None));
            self.slots[target - 1] = met_more(slot, facts)?;
        }
        Ok(())
    }

    /// Takes out what arrived at the node of a number.
    #[tactic(auto, using(crate::proofs::Arriving::got_there))]
    pub fn take(&mut self, number: usize) -> Result<Option<Facts>, RefusalReason>
        requires one { 0 < number }
        requires last { number ≤ length self.old }
        ensures value { result ≡ slice_index_or self.old (number - 1) (Ok None) }
        ensures left { self.new ≡ slice_set self.old (number - 1) (Ok None) }
    {
        mem::replace(&mut self.slots[number - 1], Ok(None))
    }
}
