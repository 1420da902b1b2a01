//! What is known before an element.
ghost use Rattle.std.specs.Prelude.{◌≡◌, ℤ, length, Option, option_map, slice_get};
ghost use Rattle.std.specs.Option.{option_and_then};
ghost use Rattle.teco_verifier.specs.facts.Facts as rules;

use std::marker::Model;
use teco_base::Reg;
use teco_facts::Facts;
use teco_model::Operator;
use teco_poly::Poly;
use teco_verifier::{Distances, Interval, Value};

/// What is known before an element of a macro, wherever a run comes there. Polynomials are in N,
/// which holds the buffer, the unread input and each text as the run begins.
#[derive(Drop)]
pub struct Known<'a> {
    pub(crate) facts: &'a Facts,
}

impl<'a> Model for Known<'a> {
    ghost use Rattle.teco_verifier.specs.facts.Facts as rules;

    ghost Value = { rules.Facts };

    ghost view = { λ k. k.facts.now };
}

impl<'a> Known<'a> {
    /// How many characters are behind the pointer, and ahead of it, in the buffer at the least.
    pub fn room(&self) -> Distances
        ensures { result ≡ self.now.position.distances }
    {
        self.facts.distances()
    }

    /// How many characters the buffer and the unread input have at the most.
    pub fn held(&self) -> Poly
        ensures { result ≡ self.now.held }
    {
        self.facts.held()
    }

    /// How many of them are ahead of the pointer at the most.
    pub fn ahead(&self) -> Poly
        ensures { result ≡ self.now.position.ahead }
    {
        self.facts.ahead()
    }

    /// The pending value in front of a comma.
    pub fn first(&self) -> Option<Value>
        ensures { result ≡ self.now.arguments.level.first }
    {
        self.facts.level().first_told()
    }

    /// The pending value.
    pub fn value(&self) -> Option<Value>
        ensures { result ≡ self.now.arguments.level.value }
    {
        self.facts.level().value_told()
    }

    /// The operator that waits for a value.
    pub fn operator(&self) -> Option<Operator>
        ensures { result ≡ self.now.arguments.level.operator }
    {
        self.facts.level().operator()
    }

    /// Where the pending value is the answer of a search: the room where it is true, as the search
    /// found.
    pub fn found(&self) -> Option<Distances>
        ensures { result ≡ option_map (λ (a : rules.Answer). a.found.distances) self.now.answer }
    {
        self.facts.found()
    }

    /// The room where that answer is false.
    pub fn failed(&self) -> Option<Distances>
        ensures { result ≡ option_map (λ (a : rules.Answer). a.failed.distances) self.now.answer }
    {
        self.facts.failed()
    }

    /// How many iterations are open.
    pub fn open(&self) -> usize
        ensures { result ≡ length self.now.iterations }
    {
        self.facts.open()
    }

    /// How much less is ahead at the least since the turn of an open iteration began, from 0 for
    /// the innermost, if that is known.
    pub fn fall(&self, at: usize) -> Option<i64>
        ensures { result ≡ option_and_then (λ (f : Option ℤ). f) (slice_get
            self.now.position.falls at) }
    {
        self.facts.fall(at)
    }

    /// The least and the greatest number that a register may have.
    pub fn number(&self, register: Reg) -> Interval
        ensures { result ≡ rules.number_of register self.now }
    {
        self.facts.range_of(register)
    }

    /// Whether a register's number is a place of the buffer.
    pub fn is_place(&self, register: Reg) -> bool
        ensures { result ≡ rules.is_saved register self.now }
    {
        self.facts.is_saved(register)
    }

    /// The most characters that a register's text may have.
    pub fn text(&self, register: Reg) -> Poly
        ensures { result ≡ rules.text_of register self.now }
    {
        self.facts.text_of(register)
    }

    /// How many registers were pushed since the entry.
    pub fn pushed(&self) -> usize
        ensures { result ≡ length self.now.pushes }
    {
        self.facts.pushed()
    }
}
