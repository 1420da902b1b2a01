//! Where the pointer is, and how much is ahead of it.
ghost use Rattle.std.specs.Prelude.{◌≡◌, ◌&&◌, [], IsTrue, None, Ok};
ghost use Rattle.teco_poly.specs.Polynomial.{variable};
ghost use Rattle.teco_verifier.specs.facts.Facts as facts;
ghost use Rattle.teco_verifier.specs.facts.Joins as joins;
ghost use Rattle.teco_verifier.specs.facts.Shifts as shifts;
ghost use Rattle.teco_facts.specs.Numbers.{AreSmall};

use crate::{Margins, Meets, OpenFalls, Shift, falls, meet_each};
use std::marker::Model;
use teco_base::REGISTERS;
use teco_poly::Poly;
use teco_verifier::RefusalReason;

/// The least distances of the pointer, the least fall of each open iteration, how much is ahead, and
/// which registers are saved.
#[derive(Drop)]
pub struct Position {
    pub margins: Margins,
    pub falls: OpenFalls,
    pub ahead: Poly,
    pub saved: [bool; REGISTERS],
}

impl Model for Position {
    ghost use Rattle.std.specs.Prelude.{◌≡◌, length};
    ghost use Rattle.teco_base.specs.declared.TheConstants.{REGISTERS};
    ghost use Rattle.teco_verifier.specs.facts.Facts as facts;

    ghost Value = { facts.Position };

    ghost view = { λ p. record {
      distances = p.margins;
      falls = p.falls;
      ahead = p.ahead;
      saved = p.saved;
    } };

    ghost invariant = { λ p. length p.saved ≡ REGISTERS };
}

/// The sum, where it does not overflow.
pub fn sum_of(one: &Poly, two: &Poly) -> Result<Poly, RefusalReason>
    ensures { result ≡ facts.sum_of one.now two.now }
{
    one.add(two).ok_or(RefusalReason::Overflow)
}

/// The join, where it does not overflow.
pub fn join_of(one: &Poly, two: &Poly) -> Result<Poly, RefusalReason>
    ensures { result ≡ facts.join_of one.now two.now }
{
    one.join(two).ok_or(RefusalReason::Overflow)
}

impl Meets for bool {
    ghost met = { λ one two. one && two };

    fn met(self, other: bool) -> bool {
        self && other
    }
}

impl Position {
    /// Before the first element.
    pub(crate) fn start() -> Position
        ensures { result ≡ record {
          distances = facts.nowhere;
          falls = [];
          ahead = variable;
          saved = facts.none_saved;
        } }
    {
        Position {
            margins: Margins::nowhere(),
            falls: falls::no_falls(),
            ahead: Poly::variable(),
            saved: [false; REGISTERS],
        }
    }

    /// A copy of the position.
    pub fn copied(&self) -> Position
        ensures { result ≡ self.now }
    {
        Position {
            margins: self.margins,
            falls: self.falls.copied(),
            ahead: self.ahead,
            saved: self.saved,
        }
    }

    /// The position becomes that behind a shift, where so much is held. Where more may be ahead
    /// than before, that may be all that is held.
    pub(crate) fn shift(&mut self, shift: &Shift, held: &Poly)
        requires { AreSmall self.old.falls }
        ensures { self.new ≡ shifts.position_after shift.now held.now self.old }
    {
        self.margins = Margins::capped(shift.back, shift.fore);
        falls::go_behind(shift.fall, &mut self.falls);
        match shift.fall {
            None => self.ahead = *held,
            Some(by) if by < 0 => self.ahead = *held,
            _ => {}
        }
        if shift.ends {
            self.saved = [false; REGISTERS];
        }
    }

    /// Whether more may be added to each fall.
    pub(crate) fn is_small(&self) -> bool
        ensures yes { IsTrue result → AreSmall self.now.falls }
        ensures no { AreSmall self.now.falls → IsTrue result }
    {
        falls::are_small(&self.falls)
    }

    /// The position becomes what is known at it and at another.
    #[tactic(auto, using(crate::proofs::Meeting::falls_are, crate::proofs::Meeting::saved_are))]
    pub(crate) fn join(&mut self, other: &Position)
        ensures { joins.joined_position self.old other.now ≡ Ok self.new }
    {
        if let Some(ahead) = self.ahead.join(&other.ahead) {
            self.ahead = ahead;
        }
        self.margins.back = self.margins.back.min(other.margins.back);
        self.margins.fore = self.margins.fore.min(other.margins.fore);
        self.falls.meet(&other.falls);
        meet_each(&mut self.saved, &other.saved);
    }
}
