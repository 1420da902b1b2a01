//! The choices that were found, by the bodies and by what enters them.
//!
//! A choice depends on what is known of the registers that its body names, and not on the others:
//! in these a body leaves what it finds. So a body that the tries of another iteration enter again
//! is mostly passed once, and not tried again.
ghost use Rattle.std.specs.Prelude.{◌≡◌, ◌<◌, length};
ghost use Rattle.teco_base.specs.declared.TheConstants.{REGISTERS};

use crate::named::named_between;
use std::alloc::{AllocError, Global};
use teco_base::REGISTERS;
use teco_check::{changes_in, end_of};
use teco_expansion::Nodes;
use teco_facts::{Changes, Choice, Facts, body_start};
use teco_poly::Poly;

// How many choices are kept for a short body.
const KEPT: usize = 4;

// For each so many nodes of a body one choice more is kept: a long body takes long to pass, and few
// bodies are long.
const NODES: usize = 32;

// A choice that was found, and from what.
#[derive(Drop)]
struct FoundChoice {
    turns: Poly,
    entering: Facts,
    choice: Choice,
}

/// What the text of an iteration tells of its body.
#[derive(Clone, Copy)]
pub struct BodyText {
    /// The number of its `>`.
    pub end: usize,
    /// What it changes.
    pub changes: Changes,
    /// Which registers it names.
    pub named: [bool; REGISTERS],
}

// A body, and the choices that were found for it.
#[derive(Drop)]
struct KnownBody {
    body: BodyText,
    found: Vec<Box<FoundChoice>>,
}

/// The choices that were found, by the numbers of the `<`.
#[derive(Drop)]
pub struct Memo {
    alloc: Global,
    bodies: Vec<Option<Box<KnownBody>>>,
}

// What the text tells of the body of a `<`.
fn body_of(nodes: &Nodes<'_>, begin: usize) -> BodyText {
    let end = end_of(nodes, begin);
    BodyText {
        end,
        changes: changes_in(nodes, begin),
        named: named_between(nodes, begin, end),
    }
}

impl BodyText {
    // How many choices are kept for it, by the number of its `<`.
    fn kept(&self, begin: usize) -> usize
        ensures { 0 < result }
    {
        KEPT + self.end.saturating_sub(begin) / NODES
    }

    // Which registers it does not name.
    fn others(&self) -> [bool; REGISTERS]
        ensures { length result ≡ REGISTERS }
    {
        let mut others = [true; REGISTERS];
        for register in 0..REGISTERS {
            others[register] = !self.named[register];
        }
        others
    }

    // What is known as the body is entered, as far as its choice depends on it.
    fn needed(&self, entering: &Facts) -> Result<Facts, AllocError> {
        let mut texts = entering.texts();
        for register in 0..REGISTERS {
            if !self.named[register] {
                texts[register] = Poly::variable();
            }
        }
        let choice = Choice {
            held: entering.held(),
            kept: true,
            texts,
        };
        let changes = Changes {
            written: self.others(),
            ends: false,
        };
        let mut start = body_start(&choice, &changes, entering.copied()?)?;
        // Pairs that were pushed before it cannot be popped in it, and how many there are stands
        // with the iteration.
        let _pushes = start.take_pushes();
        Ok(start)
    }

    // A choice that was found, with the texts that the body does not name as they are now.
    fn renewed(&self, choice: &Choice, entering: &Facts) -> Choice {
        let mut texts = entering.texts();
        for register in 0..REGISTERS {
            if self.named[register] {
                texts[register] = choice.texts[register];
            }
        }
        Choice {
            held: choice.held,
            kept: choice.kept,
            texts,
        }
    }
}

impl Memo {
    /// No choice is found for any of so many nodes, if there is memory.
    pub fn new(alloc: Global, nodes: usize) -> Result<Memo, AllocError> {
        let mut bodies = Vec::new(alloc);
        bodies.push(None)?;
        for _at in 0..nodes {
            bodies.push(None)?;
        }
        Ok(Memo { alloc, bodies })
    }

    // What is known of the body of a `<`.
    fn known(&self, begin: usize) -> Option<&KnownBody> {
        match self.bodies.get(begin) {
            Some(Some(known)) => Some(&**known),
            _ => None,
        }
    }

    // What its text told of the body of a `<`, if that was looked through.
    fn body_known(&self, begin: usize) -> Option<BodyText> {
        self.known(begin).map(|known| known.body)
    }

    // What the text tells of the body of a `<` is known from now on.
    fn put(&mut self, begin: usize, body: BodyText) -> Result<(), AllocError> {
        let found = Vec::new(self.alloc);
        let known = Box::new(self.alloc, KnownBody { body, found })?;
        if let Some(slot) = self.bodies.get_mut(begin) {
            *slot = Some(known);
        }
        Ok(())
    }

    /// Looks through the body of a `<`, but only once.
    pub fn learn(&mut self, nodes: &Nodes<'_>, begin: usize) -> Result<(), AllocError> {
        if self.body_known(begin).is_none() {
            self.put(begin, body_of(nodes, begin))?;
        }
        Ok(())
    }

    /// What the text tells of the body of a `<`.
    pub fn body(&self, nodes: &Nodes<'_>, begin: usize) -> BodyText {
        match self.body_known(begin) {
            Some(body) => body,
            None => body_of(nodes, begin),
        }
    }

    /// The choice that was found for the body of a `<`, if what enters it is the same as then.
    pub fn choice(
        &self,
        begin: usize,
        turns: &Poly,
        entering: &Facts,
    ) -> Result<Option<Choice>, AllocError> {
        let Some(known) = self.known(begin) else {
            return Ok(None);
        };
        if known.found.is_empty() {
            return Ok(None);
        }
        let needed = known.body.needed(entering)?;
        for found in &known.found {
            if are_same(&found.turns, turns) && say_same(&found.entering, &needed) {
                return Ok(Some(known.body.renewed(&found.choice, entering)));
            }
        }
        Ok(None)
    }

    /// A choice is found for the body of a `<`. It is kept in the place of the oldest, where there
    /// are many.
    pub fn keep(
        &mut self,
        begin: usize,
        turns: Poly,
        entering: &Facts,
        choice: Choice,
    ) -> Result<(), AllocError> {
        let Some(Some(known)) = self.bodies.get_mut(begin) else {
            return Ok(());
        };
        let entering = known.body.needed(entering)?;
        if known.found.len() >= known.body.kept(begin) {
            known.found.remove(0);
        }
        let found = Box::new(
            self.alloc,
            FoundChoice {
                turns,
                entering,
                choice,
            },
        )?;
        known.found.push(found)?;
        Ok(())
    }
}

// Whether two polynomials are the same.
fn are_same(one: &Poly, other: &Poly) -> bool {
    one.le(other) && other.le(one)
}

// Whether two facts say the same.
fn say_same(one: &Facts, other: &Facts) -> bool {
    one.covers(other) && other.covers(one)
}
