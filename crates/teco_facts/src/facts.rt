//! What is known before an element.
ghost use Rattle.std.specs.Prelude.{◌≡◌, ℤ, IfOk, Ok, Option, length, option_map, slice_get};
ghost use Rattle.std.specs.Option.{option_and_then};
ghost use Rattle.teco_base.specs.declared.TheConstants.{REGISTERS};
ghost use Rattle.teco_verifier.specs.facts.Facts as rules;
ghost use Rattle.teco_verifier.specs.facts.Shifts as shifts;
ghost use Rattle.teco_verifier.specs.facts.Argument as given;
ghost use Rattle.teco_verifier.specs.facts.Arguments as arguments;
ghost use Rattle.teco_verifier.specs.facts.Joins as joins;
ghost use Rattle.teco_verifier.specs.facts.Motions as motions;
ghost use Rattle.teco_verifier.specs.facts.Storages as storages;
ghost use Rattle.teco_verifier.specs.facts.Transfer as transfer;
ghost use Rattle.teco_facts.specs.Numbers.{AreSmall};
ghost use Rattle.teco_facts.specs.Does.{Gives};
ghost use Rattle.teco_facts.specs.Room.{innermost};
ghost use Rattle.teco_facts.specs.Searched as searched;

use crate::registers::Registers;
use crate::{
    Arguments, FactFault, Few, LevelFacts, Margins, Number, Position, Range, Shift, sum_of,
};
use std::alloc::{AllocError, Global};
use std::marker::Model;
use std::rc::Rc;
use teco_base::{REGISTERS, Reg};
use teco_model::ArgumentRange;
use teco_poly::Poly;
use teco_stack::SharedStack;
use teco_verifier::{Distances, Interval, RefusalReason};

/// The positions where a search found, and where it failed. They lie on the heap.
#[derive(Drop)]
pub struct Answer {
    outcomes: Box<SearchEnds>,
}

#[derive(Drop)]
struct SearchEnds {
    found: Position,
    failed: Position,
}

impl Model for Answer {
    ghost use Rattle.teco_verifier.specs.facts.Facts as rules;

    ghost Value = { rules.Answer };

    ghost view = { λ a. record {
      found = a.outcomes.value.found;
      failed = a.outcomes.value.failed;
    } };
}

impl Answer {
    // The answer that tells two positions apart, if there is memory.
    fn of(alloc: Global, found: Position, failed: Position) -> Result<Answer, AllocError>
        ensures { IfOk result (λ answer. answer ≡ record { found = found; failed = failed }) }
    {
        let outcomes = Box::new(alloc, SearchEnds { found, failed })?;
        Ok(Answer { outcomes })
    }

    // A copy of the answer, if there is memory.
    fn copied(&self, alloc: Global) -> Result<Answer, AllocError>
        ensures { IfOk result (λ copy. copy ≡ self.now) }
    {
        Answer::of(
            alloc,
            self.outcomes.found.copied(),
            self.outcomes.failed.copied(),
        )
    }

    /// The position where the search found.
    pub fn found(&self) -> &Position
        ensures { result.now ≡ self.now.found }
    {
        &self.outcomes.found
    }

    /// The position where it failed.
    pub fn failed(&self) -> &Position
        ensures { result.now ≡ self.now.failed }
    {
        &self.outcomes.failed
    }
}

// A search's answer once more, if there is one and there is memory.
fn answer_copied(alloc: Global, answer: &Option<Answer>) -> Result<Option<Answer>, AllocError>
    ensures { IfOk result (λ copy. copy ≡ answer.now) }
{
    match answer {
        None => Ok(None),
        Some(answer) => Ok(Some(answer.copied(alloc)?)),
    }
}

/// An open iteration: whether it has a count, and how many pairs were pushed at its <.
#[derive(Clone, Copy)]
pub struct Iteration {
    pub counted: bool,
    pub pushes: usize,
}

impl Model for Iteration {
    ghost use Rattle.teco_verifier.specs.facts.Facts as rules;

    ghost Value = { rules.Iteration };

    ghost view = { λ i. record { counted = i.counted; pushes = i.pushes } };

    ghost inverse = { λ i. record { counted = i.counted; pushes = i.pushes } };
}

/// A pair that was pushed since the entry.
#[derive(Clone, Copy)]
pub struct Pushed {
    pub number: Range,
    pub text: Poly,
}

impl Model for Pushed {
    ghost use Rattle.teco_verifier.specs.facts.Facts as rules;

    ghost Value = { rules.Pushed };

    ghost view = { λ p. record { number = p.number; text = p.text } };

    ghost inverse = { λ p. record { number = p.number; text = p.text } };
}

/// What is known before an element. It lies on the heap, so that it moves without being copied.
#[derive(Drop)]
pub struct Facts {
    pub(crate) alloc: Global,
    pub(crate) known: Box<FactsSaid>,
}

// What facts say.
#[derive(Drop)]
pub(crate) struct FactsSaid {
    pub arguments: Arguments,
    pub answer: Option<Answer>,
    pub position: Position,
    pub iterations: Few<Iteration>,
    pub held: Poly,
    pub registers: Rc<Registers>,
    pub pushes: SharedStack<Pushed>,
}

impl Model for Facts {
    ghost use Rattle.std.specs.Prelude.{◌≡◌, length};
    ghost use Rattle.teco_base.specs.declared.TheConstants.{REGISTERS};
    ghost use Rattle.teco_verifier.specs.facts.Facts as rules;

    ghost Value = { rules.Facts };

    ghost view = { λ f. let k = f.known.value in record {
      arguments = k.arguments;
      answer = k.answer;
      position = k.position;
      iterations = k.iterations;
      held = k.held;
      numbers = k.registers.value.numbers;
      texts = k.registers.value.texts;
      pushes = k.pushes;
    } };

    ghost invariant = { λ f. let r = f.known.value.registers.value in
        (length r.numbers ≡ REGISTERS) × (length r.texts ≡ REGISTERS) };
}

impl Facts {
    /// Before the first element: nothing is pending but the argument that is declared, and N holds
    /// all. It is there if there is memory.
    pub fn entry(alloc: Global, argument: Option<ArgumentRange>) -> Result<Facts, AllocError>
        ensures { IfOk result (λ facts. facts ≡ given.facts_given argument) }
    {
        let registers = Registers {
            numbers: [Range::any(); REGISTERS],
            texts: [Poly::variable(); REGISTERS],
        };
        let registers = Rc::new(alloc, registers)?;
        let known = FactsSaid {
            arguments: Arguments::declared(alloc, argument),
            answer: None,
            position: Position::start(),
            iterations: Few::empty(Iteration {
                counted: false,
                pushes: 0,
            }),
            held: Poly::variable(),
            registers,
            pushes: SharedStack::new(alloc),
        };
        let known = Box::new(alloc, known)?;
        Ok(Facts { alloc, known })
    }

    /// A copy of the facts at another position, if there is memory.
    pub fn copied_at(&self, position: Position) -> Result<Facts, AllocError>
        ensures { IfOk result (λ copy. copy ≡ rules.at_position position self.now) }
    {
        let known = &*self.known;
        let registers = known.registers.clone()?;
        let pushes = known.pushes.copied()?;
        let arguments = known.arguments.copied()?;
        let answer = answer_copied(self.alloc, &known.answer)?;
        let copy = FactsSaid {
            arguments,
            answer,
            position,
            iterations: known.iterations.copied(),
            held: known.held,
            registers,
            pushes,
        };
        let known = Box::new(self.alloc, copy)?;
        Ok(Facts {
            alloc: self.alloc,
            known,
        })
    }

    /// A copy of the facts, if there is memory.
    pub fn copied(&self) -> Result<Facts, AllocError>
        ensures { IfOk result (λ copy. copy ≡ self.now) }
    {
        self.copied_at(self.known.position.copied())
    }

    /// Where the pointer is.
    pub fn position(&self) -> &Position
        ensures { result.now ≡ self.now.position }
    {
        &self.known.position
    }

    /// The distances of the pointer.
    pub fn margins(&self) -> Margins
        ensures { result ≡ self.now.position.distances }
    {
        self.known.position.margins
    }

    /// The innermost level of the arguments.
    pub fn level(&self) -> LevelFacts
        ensures { result ≡ self.now.arguments.level }
    {
        self.known.arguments.level()
    }

    /// How much is held.
    pub fn held(&self) -> Poly
        ensures { result ≡ self.now.held }
    {
        self.known.held
    }

    /// How much is ahead.
    pub fn ahead(&self) -> Poly
        ensures { result ≡ self.now.position.ahead }
    {
        self.known.position.ahead
    }

    /// The range of a register's number.
    pub fn number_of(&self, register: Reg) -> Range
        ensures { result ≡ rules.number_of register self.now }
    {
        self.known.registers.numbers[register.index()]
    }

    /// Whether the number of a register is saved.
    pub fn is_saved(&self, register: Reg) -> bool
        ensures { result ≡ rules.is_saved register self.now }
    {
        self.known.position.saved[register.index()]
    }

    /// The length of a register's text.
    pub fn text_of(&self, register: Reg) -> Poly
        ensures { result ≡ rules.text_of register self.now }
    {
        self.known.registers.texts[register.index()]
    }

    /// The lengths of all registers' texts.
    pub fn texts(&self) -> [Poly; REGISTERS]
        ensures value { result ≡ self.now.texts }
        ensures all { length result ≡ REGISTERS }
    {
        self.known.registers.texts
    }

    /// The innermost open iteration.
    pub fn innermost(&self) -> Option<Iteration>
        ensures { result ≡ innermost self.now.iterations }
    {
        match self.known.iterations.as_slice() {
            [] => None,
            [innermost, ..] => Some(*innermost),
        }
    }

    /// How much less is ahead at the least since the turn of an open iteration began, from 0 for
    /// the innermost, if that is known.
    pub fn fall(&self, at: usize) -> Option<i64>
        ensures { result ≡ option_and_then (λ (f : Option ℤ). f) (slice_get
            self.now.position.falls at) }
    {
        self.known.position.falls.as_slice().get(at)?.known()
    }

    /// The least distances of the pointer in plain numbers.
    pub fn distances(&self) -> Distances
        ensures { result ≡ self.now.position.distances }
    {
        self.margins().told()
    }

    /// The range of a register's number in plain numbers.
    pub fn range_of(&self, register: Reg) -> Interval
        ensures { result ≡ rules.number_of register self.now }
    {
        self.number_of(register).told()
    }

    /// The least distances where the pending search's answer is that it was found; `None` where
    /// none is pending.
    pub fn found(&self) -> Option<Distances>
        ensures { result ≡ option_map (λ (a : rules.Answer). a.found.distances) self.now.answer }
    {
        let answer = self.known.answer.as_ref()?;
        Some(answer.found().margins.told())
    }

    /// The least distances where that answer is that it failed.
    pub fn failed(&self) -> Option<Distances>
        ensures { result ≡ option_map (λ (a : rules.Answer). a.failed.distances) self.now.answer }
    {
        let answer = self.known.answer.as_ref()?;
        Some(answer.failed().margins.told())
    }

    /// The facts with no argument pending.
    pub fn without_arguments(mut self) -> Facts
        ensures { result ≡ rules.without_arguments self }
    {
        let known = &mut *self.known;
        known.arguments.drop_all();
        known.answer = None;
        self
    }

    /// The facts where the innermost level is taken.
    pub fn taking(self) -> Facts
        ensures { result ≡ rules.with_arguments (arguments.levels_after_taking self.arguments)
            self }
    {
        self.with_level(LevelFacts::empty())
    }

    /// The facts with another innermost level.
    pub fn with_level(mut self, level: LevelFacts) -> Facts
        ensures { result ≡ rules.with_arguments (record self.arguments { level = level }) self }
    {
        let known = &mut *self.known;
        known.arguments.put_level(level);
        known.answer = None;
        self
    }

    /// The facts where a parenthesis opens, if there is memory.
    pub fn opened(mut self) -> Result<Facts, AllocError>
        ensures { IfOk result (λ facts. facts ≡ rules.with_arguments (arguments.levels_after_open
            self.arguments) self) }
    {
        let known = &mut *self.known;
        known.arguments.open()?;
        known.answer = None;
        Ok(self)
    }

    /// The facts where the innermost parenthesis closes, and its value is given outside.
    pub fn closed(mut self) -> Result<Facts, FactFault>
        ensures { Gives (transfer.facts_after_levels (arguments.levels_closed_onto
            self.position.distances self.arguments.level self.arguments.outer) self) result }
    {
        let known = &mut *self.known;
        known.arguments.close(known.position.margins)?;
        known.answer = None;
        Ok(self)
    }

    /// Whether nothing is pending.
    pub fn none_pending(&self) -> Result<(), RefusalReason>
        ensures { result ≡ joins.none_pending self.now.arguments }
    {
        self.known.arguments.none_pending()
    }

    /// Takes a search's answer out, if one is pending.
    pub fn take_answer(&mut self) -> Option<Answer>
        ensures value { result ≡ self.old.answer }
        ensures left { self.new ≡ transfer.without_answer self.old }
    {
        self.known.answer.take()
    }

    /// The facts with a search's answer, which tells its outcomes apart: these where it found, and
    /// the position where it failed; if there is memory.
    pub fn with_answer(mut self, failed: Position) -> Result<Facts, AllocError>
        ensures { IfOk result (λ facts. searched.facts_of_answer self failed ≡ Ok facts) }
    {
        let known = &mut *self.known;
        let found = known.position.copied();
        known.position.join(&failed);
        known.arguments.answer(Some(Number::within(success())));
        known.answer = Some(Answer::of(self.alloc, found, failed)?);
        Ok(self)
    }

    /// The facts where the number of a register is of a range, and saved or not. Refused where
    /// memory is.
    pub fn with_number(
        mut self,
        register: Reg,
        number: Range,
        saved: bool,
    ) -> Result<Facts, AllocError>
        ensures { IfOk result (λ facts. facts ≡ storages.with_number register number saved self) }
    {
        let known = &mut *self.known;
        let registers = Rc::make_mut(&mut known.registers)?;
        registers.numbers[register.index()] = number;
        known.position.saved[register.index()] = saved;
        Ok(self)
    }

    /// The facts where the text of a register is at most so long, if there is memory.
    pub fn with_text(mut self, register: Reg, length: Poly) -> Result<Facts, AllocError>
        ensures { IfOk result (λ facts. facts ≡ storages.with_text register length self) }
    {
        let registers = Rc::make_mut(&mut self.known.registers)?;
        registers.texts[register.index()] = length;
        Ok(self)
    }

    /// The facts at another position.
    pub fn at_position(mut self, position: Position) -> Facts
        ensures { result ≡ rules.at_position position self }
    {
        self.known.position = position;
        self
    }

    /// The position behind a shift, which leaves all else as it is.
    pub fn position_behind(&self, shift: &Shift) -> Position
        requires { AreSmall self.now.position.falls }
        ensures { result ≡ shifts.position_after shift.now self.now.held self.now.position }
    {
        let known = &*self.known;
        let mut position = known.position.copied();
        position.shift(shift, &known.held);
        position
    }

    /// The facts behind a shift.
    pub fn shifted(mut self, shift: &Shift) -> Result<Facts, RefusalReason>
        requires { AreSmall self.position.falls }
        ensures { result ≡ shifts.shifted shift.now self }
    {
        let known = &mut *self.known;
        known.held = sum_of(&known.held, &shift.growth)?;
        known.arguments.settle(known.position.margins, shift.ends);
        known.position.shift(shift, &known.held);
        Ok(self)
    }
}

/// The answer of what may fail: -1 or 0.
pub fn success() -> Range
    ensures { result ≡ motions.success }
{
    Range { lo: -1, hi: 0 }
}
