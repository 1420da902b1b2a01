//! Where edges meet.
//!
//! The pairs below those that were pushed since two ways parted are the same on both, and lie at
//! the same place. They are not compared: so a list of many pairs takes no time where ways meet.
//! Nor is what is known of the registers, where no way wrote one. What is found by this is checked
//! by comparing all of them.

use std::alloc::{AllocError, Global};
use teco_facts::{FactFault, Facts, Pushed, joined_pair};
use teco_stack::{Chain, SharedStack};
use teco_verifier::RefusalReason;

// Whether two pairs are the same.
fn are_same(one: &Pushed, two: &Pushed) -> bool {
    one.number.is(two.number) && one.text == two.text
}

// These pairs on top of those of a chain.
fn stacked(
    alloc: Global,
    pairs: &[Pushed],
    below: &Chain<Pushed>,
) -> Result<SharedStack<Pushed>, AllocError> {
    let mut stack = SharedStack::of(alloc, below)?;
    for pair in pairs.iter().rev() {
        stack = stack.with(*pair)?;
    }
    Ok(stack)
}

// What is known of each pair, down to those that lie at the same place.
fn met_pairs(
    alloc: Global,
    first: &Chain<Pushed>,
    second: &Chain<Pushed>,
) -> Result<SharedStack<Pushed>, FactFault> {
    let mut pairs = Vec::new(alloc);
    let mut changed = 0;
    let (mut one, mut two, mut shared) = (first, second, first);
    loop {
        if one.is_at(two) {
            break;
        }
        let Some((of_one, one_below)) = one.parts() else {
            return Err(FactFault::Refused(RefusalReason::Pop));
        };
        let Some((of_two, two_below)) = two.parts() else {
            return Err(FactFault::Refused(RefusalReason::Pop));
        };
        let pair = joined_pair(of_one, of_two)?;
        push_pair(&mut pairs, pair)?;
        if !are_same(of_one, &pair) {
            changed = pairs.len();
            shared = one_below;
        }
        one = one_below;
        two = two_below;
    }
    let changed = changed.min(pairs.len());
    Ok(stacked(alloc, &pairs[..changed], shared)?)
}

// Puts a pair behind others, if there is memory.
fn push_pair(pairs: &mut Vec<Pushed>, pair: Pushed) -> Result<(), AllocError> {
    pairs.push(pair)?;
    Ok(())
}

/// Whether two edges may meet: nothing is pending on either, and on both as many pairs were pushed.
pub fn may_meet(facts: &Facts, more: &Facts) -> bool {
    facts.none_pending().is_ok() && more.none_pending().is_ok() && facts.pushed() == more.pushed()
}

/// What is known where two edges meet.
pub fn met(alloc: Global, mut facts: Facts, mut more: Facts) -> Result<Facts, FactFault> {
    let first = facts.take_pushes();
    let second = more.take_pushes();
    let mut joined = if facts.has_registers_of(&more) {
        facts.joined_but_registers(&more)?
    } else {
        facts.joined(&more)?
    };
    joined.put_pushes(met_pairs(alloc, first.chain(), second.chain())?);
    Ok(joined)
}
