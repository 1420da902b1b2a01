//! Where ways meet: what is known on both.
ghost use Rattle.std.specs.Prelude.{◌≡◌, ◌++◌, [], IfOk};
ghost use Rattle.teco_verifier.specs.facts.Joins as joins;
ghost use Rattle.teco_facts.specs.Does.{Gives, Leaves};
ghost use Rattle.teco_facts.specs.Joined.{JoinsPairs, joined_but_registers, with_registers_joined};

use crate::registers::Registers;
use crate::{FactFault, Facts, Meets, Pushed, join_of, meet_each};
use std::alloc::{AllocError, Global};
use std::rc::Rc;
use teco_base::REGISTERS;
use teco_poly::Poly;
use teco_stack::{Chain, SharedStack};
use teco_verifier::RefusalReason;

/// The joins of the texts of each register.
pub fn joined_lengths(
    one: &[Poly; REGISTERS],
    two: &[Poly; REGISTERS],
) -> Result<[Poly; REGISTERS], RefusalReason>
    ensures { result ≡ joins.joined_lengths one.now two.now }
{
    let mut joined = *one;
    for register in 0..REGISTERS {
        joined[register] = join_of(&one[register], &two[register])?;
    }
    Ok(joined)
}

/// What is known of a pair on two ways.
pub fn joined_pair(one: &Pushed, two: &Pushed) -> Result<Pushed, RefusalReason>
    ensures { result ≡ joins.joined_pair one.now two.now }
{
    let text = join_of(&one.text, &two.text)?;
    let number = one.number.met(two.number);
    Ok(Pushed { number, text })
}

// These pairs on top of those of a stack, if there is memory.
fn stacked(pairs: &[Pushed], below: SharedStack<Pushed>) -> Result<SharedStack<Pushed>, AllocError>
    ensures { IfOk result (λ stack. stack ≡ pairs.now ++ below) }
{
    let mut stack = below;
    for at in (0..pairs.len()).rev() {
        stack = stack.with(pairs[at])?;
    }
    Ok(stack)
}

// Gathers what is known of each pair of two ways, which meet with as many: how many pairs there are
// up to the last that is known less well than on the first way, and what lies below that there.
fn join_pairs<'a>(
    first: &'a Chain<Pushed>,
    second: &Chain<Pushed>,
    pairs: &mut Vec<Pushed>,
) -> Result<(usize, &'a Chain<Pushed>), FactFault>
    requires { pairs.old.items ≡ [] }
    ensures { JoinsPairs first.now second.now pairs.new.items result }
{
    let mut changed = 0;
    let (mut one, mut two, mut shared) = (first, second, first);
    while let Some((of_one, one_below)) = one.parts() {
        let Some((of_two, two_below)) = two.parts() else {
            return Err(FactFault::Refused(RefusalReason::Pop));
        };
        let pair = joined_pair(of_one, of_two)?;
        if pairs.push(pair).is_err() {
            return Err(FactFault::Memory);
        }
        if !of_one.number.is(pair.number) || of_one.text != pair.text {
            changed = pairs.len();
            shared = one_below;
        }
        one = one_below;
        two = two_below;
    }
    if two.parts().is_some() {
        return Err(FactFault::Refused(RefusalReason::Pop));
    }
    Ok((changed, shared))
}

// What is known of each pair of two ways. What the first way knows as well is shared with it.
fn joined_pairs(
    alloc: Global,
    first: &Chain<Pushed>,
    second: &Chain<Pushed>,
) -> Result<SharedStack<Pushed>, FactFault>
    ensures { Gives (joins.joined_pushes first.now second.now) result }
{
    let mut pairs = Vec::new(alloc);
    let (changed, shared) = join_pairs(first, second, &mut pairs)?;
    let below = SharedStack::of(alloc, shared)?;
    Ok(stacked(&pairs[..changed], below)?)
}

impl Facts {
    /// What is known where two ways meet, but of the registers: of these what is known on this way.
    pub fn joined_but_registers(mut self, other: &Facts) -> Result<Facts, FactFault>
        ensures { Gives (joined_but_registers self other.now) result }
    {
        let (known, other) = (&mut *self.known, &*other.known);
        known.arguments.none_pending()?;
        other.arguments.none_pending()?;
        known.pushes = joined_pairs(self.alloc, known.pushes.chain(), other.pushes.chain())?;
        known.position.join(&other.position);
        known.held = join_of(&known.held, &other.held)?;
        Ok(self.without_arguments())
    }

    /// Whether what is known of the registers lies at the same place, so that it need not be
    /// compared. No clause says that it is then the same.
    pub fn has_registers_of(&self, other: &Facts) -> bool {
        Rc::ptr_eq(&self.known.registers, &other.known.registers)
    }

    // Puts what is known of the registers on both ways in the place of what is known on this one.
    #[tactic(auto, using(crate::proofs::Meeting::hulls_are))]
    fn join_registers(&mut self, other: &Facts) -> Result<(), FactFault>
        ensures { Leaves (with_registers_joined self.old other.now) self.new result }
    {
        let (one, two) = (&*self.known.registers, &*other.known.registers);
        let mut numbers = one.numbers;
        meet_each(&mut numbers, &two.numbers);
        let texts = joined_lengths(&one.texts, &two.texts)?;
        self.put_registers(Registers { numbers, texts })?;
        Ok(())
    }

    /// What is known where two ways meet: on both, with nothing pending.
    pub fn joined(self, other: &Facts) -> Result<Facts, FactFault>
        ensures { Gives (joins.joined self other.now) result }
    {
        let mut joined = self.joined_but_registers(other)?;
        joined.join_registers(other)?;
        Ok(joined)
    }
}
