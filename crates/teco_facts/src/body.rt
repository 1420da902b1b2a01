//! The body of an iteration: what is chosen for its start, and when a choice stands.
ghost use Rattle.std.specs.Prelude.{◌≡◌, length, option_copied, IfOk};
ghost use Rattle.teco_base.specs.declared.TheConstants.{REGISTERS};
ghost use Rattle.teco_verifier.specs.facts.Bodies as bodies;
ghost use Rattle.teco_verifier.specs.facts.Shifts as shifts;
ghost use Rattle.teco_verifier.specs.table.Closed as closed;

use crate::covering::covers_pairs;
use crate::registers::Registers;
use crate::{Facts, Margins, Position, Range, each_covers, falls_at_start, replace_where, sum_of};
use std::alloc::AllocError;
use std::marker::Model;
use teco_base::REGISTERS;
use teco_poly::Poly;
use teco_verifier::RefusalReason;

/// What is chosen: how much is held at most at the start of each turn, how long the texts are at
/// most, and whether the iteration is kept: what is ahead, and the falls of those outside, are then
/// those at its <.
#[derive(Clone, Copy)]
pub struct Choice {
    pub held: Poly,
    pub kept: bool,
    pub texts: [Poly; REGISTERS],
}

impl Model for Choice {
    ghost use Rattle.std.specs.Prelude.{◌≡◌, length};
    ghost use Rattle.teco_base.specs.declared.TheConstants.{REGISTERS};
    ghost use Rattle.teco_verifier.specs.facts.Bodies as bodies;

    ghost Value = { bodies.Choice };

    ghost view = { λ c. record {
      held = c.held;
      kept = c.kept;
      texts = c.texts;
    } };

    ghost inverse = { λ c. record {
      held = c.held;
      kept = c.kept;
      texts = c.texts;
    } };

    ghost invariant = { λ c. length c.texts ≡ REGISTERS };
}

/// What a body changes, called texts included: the numbers of which registers it writes, and
/// whether it ends all that is saved.
#[derive(Clone, Copy)]
pub struct Changes {
    pub written: [bool; REGISTERS],
    pub ends: bool,
}

impl Model for Changes {
    ghost use Rattle.std.specs.Prelude.{◌≡◌, length};
    ghost use Rattle.teco_base.specs.declared.TheConstants.{REGISTERS};
    ghost use Rattle.teco_verifier.specs.facts.Bodies as bodies;

    ghost Value = { bodies.Changes };

    ghost view = { λ c. record { written = c.written; ends = c.ends } };

    ghost inverse = { λ c. record { written = c.written; ends = c.ends } };

    ghost invariant = { λ c. length c.written ≡ REGISTERS };
}

// Which registers are saved at the start of a body.
#[tactic(auto, using(crate::proofs::Meeting::unsaved_are))]
fn saved_at_start(here: &Position, changes: &Changes) -> [bool; REGISTERS]
    ensures value { result ≡ shifts.saved_after changes.now.ends (bodies.unsaved_where
        changes.now.written here.now.saved) }
    ensures all { length result ≡ REGISTERS }
{
    if changes.ends {
        return [false; REGISTERS];
    }
    let mut saved = here.saved;
    replace_where(&mut saved, &changes.written, false);
    saved
}

// The fall of the innermost iteration, if it is known.
fn own_fall(position: &Position) -> Option<i64>
    ensures { result ≡ bodies.own_fall position.now.falls }
{
    position.falls.as_slice().first()?.known()
}

impl Facts {
    /// Whether the fall of the innermost iteration is known to be at least so much.
    pub fn has_fallen(&self, least: u32) -> bool
        ensures { result ≡ bodies.has_own_fall least self.now.position }
    {
        match own_fall(&self.known.position) {
            None => false,
            Some(fall) => i64::from(least) <= fall,
        }
    }
}

/// What is held at the start of the last of some turns, if it grows by so much in each.
pub fn held_last(at: &Poly, turns: &Poly, growth: &Poly) -> Result<Poly, RefusalReason>
    ensures { result ≡ bodies.held_last at.now turns.now growth.now }
{
    let grown = turns.one_less().mul(growth).ok_or(RefusalReason::Overflow)?;
    sum_of(at, &grown)
}

/// How much more is held at the end of a turn than at its start.
pub fn growth_of(start: &Poly, end: &Poly) -> Result<Poly, RefusalReason>
    ensures { result ≡ bodies.growth_of start.now end.now }
{
    end.sub(start).ok_or(RefusalReason::Bound)
}

// Whether no more is held at the start of the last turn than was chosen.
fn has_room(choice: &Choice, turns: &Poly, entering: &Facts, end: &Facts) -> bool
    ensures { result ≡ bodies.has_room choice.now turns.now entering.now end.now }
{
    let Ok(growth) = growth_of(&choice.held, &end.known.held) else {
        return false;
    };
    match held_last(&entering.known.held, turns, &growth) {
        Ok(held) => held.le(&choice.held),
        Err(_) => false,
    }
}

impl Choice {
    /// Whether the choice is enough to begin with: it holds what the < does.
    pub fn begins(&self, entering: &Facts) -> bool
        ensures { result ≡ bodies.begins self.now entering.now }
    {
        let known = &*entering.known;
        known.held.le(&self.held) && each_covers(&self.texts, &known.registers.texts)
    }
}

// The numbers of registers, unknown where the body writes them.
#[tactic(auto, using(crate::proofs::Meeting::unknown_are))]
fn unknown_where(written: &[bool; REGISTERS], numbers: &[Range; REGISTERS]) -> [Range; REGISTERS]
    ensures value { result ≡ bodies.unknown_where written.now numbers.now }
    ensures all { length result ≡ REGISTERS }
{
    let mut unknown = *numbers;
    replace_where(&mut unknown, written, Range::any());
    unknown
}

/// The facts at the start of a body, from those that enter it, if there is memory.
pub fn body_start(
    choice: &Choice,
    changes: &Changes,
    mut entering: Facts,
) -> Result<Facts, AllocError>
    ensures { IfOk result (λ facts. facts ≡ bodies.body_start choice.now changes.now entering) }
{
    let known = &mut *entering.known;
    let here = &known.position;
    let position = Position {
        margins: Margins::nowhere(),
        falls: falls_at_start(choice.kept, &here.falls),
        ahead: if choice.kept { here.ahead } else { choice.held },
        saved: saved_at_start(here, changes),
    };
    let registers = Registers {
        numbers: unknown_where(&changes.written, &known.registers.numbers),
        texts: choice.texts,
    };
    known.position = position;
    known.held = choice.held;
    entering.put_registers(registers)?;
    Ok(entering)
}

// Whether a turn that ends leaves what the next one may begin with.
fn begins_again(choice: &Choice, changes: &Changes, entering: &Facts, end: &Facts) -> bool
    ensures { result ≡ bodies.begins_again (bodies.body_start choice.now changes.now
        entering.now) end.now }
{
    let (known, end) = (&*entering.known, &*end.known);
    let registers = &*end.registers;
    let numbers = unknown_where(&changes.written, &known.registers.numbers);
    let saved = saved_at_start(&known.position, changes);
    each_covers(&numbers, &registers.numbers)
        && each_covers(&choice.texts, &registers.texts)
        && covers_pairs(known.pushes.chain(), end.pushes.chain())
        && each_covers(&saved, &end.position.saved)
}

impl Choice {
    /// Whether the choice stands: it begins and, if the > is reached, the next turn may begin
    /// there. Without a count less is ahead after each turn, and a kept iteration lets no more be
    /// ahead from turn to turn.
    pub fn stands(
        &self,
        changes: &Changes,
        turns: &Poly,
        entering: &Facts,
        end: Option<&Facts>,
    ) -> bool
        ensures { result ≡ bodies.stands self.now changes.now (closed.is_counted
            entering.now.iterations) turns.now entering.now (option_copied end.entry) }
    {
        match end {
            None => self.begins(entering),
            Some(end) => {
                self.begins(entering)
                    && (entering.is_counted() || end.has_fallen(1))
                    && (!self.kept || end.has_fallen(0))
                    && has_room(self, turns, entering, end)
                    && begins_again(self, changes, entering, end)
            }
        }
    }
}
