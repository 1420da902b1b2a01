//! What is known of the pending arguments.
ghost use Rattle.std.specs.Prelude.{◌≡◌, IfOk, OnOk};
ghost use Rattle.std.specs.Option.{option_map_or};
ghost use Rattle.teco_verifier.specs.facts.Argument as given;
ghost use Rattle.teco_verifier.specs.facts.Arguments as rules;
ghost use Rattle.teco_verifier.specs.facts.Covers as covers;
ghost use Rattle.teco_verifier.specs.facts.Joins as joins;
ghost use Rattle.teco_facts.specs.Does.{Closes};

use crate::settling::{Opened, Settling, both, covers_levels, settled, settled_again};
use crate::{FactFault, LevelFacts, Margins, Number};
use std::alloc::{AllocError, Global};
use std::marker::Model;
use teco_model::ArgumentRange;
use teco_stack::SharedStack;
use teco_verifier::RefusalReason;

/// The innermost level, and those outside it.
#[derive(Drop)]
pub struct Arguments {
    level: LevelFacts,
    // as they were when a parenthesis opened behind each
    outer: SharedStack<Opened>,
    // what has become of them since
    settling: Option<Settling>,
}

impl Model for Arguments {
    ghost use Rattle.teco_facts.specs.Settled.{levels_since};
    ghost use Rattle.teco_verifier.specs.facts.Arguments.{KnownArguments};

    ghost Value = { KnownArguments };

    ghost view = { λ a. record { level = a.level; outer = levels_since a.settling a.outer } };
}

impl Arguments {
    /// Nothing is pending but the argument that is declared.
    pub fn declared(alloc: Global, argument: Option<ArgumentRange>) -> Arguments
        ensures { result ≡ option_map_or given.known_in argument rules.no_arguments }
    {
        let level = match argument {
            None => LevelFacts::empty(),
            Some(range) => LevelFacts::of(Number::declared(range)),
        };
        Arguments {
            level,
            outer: SharedStack::new(alloc),
            settling: None,
        }
    }

    /// A copy of the arguments, if there is memory.
    pub fn copied(&self) -> Result<Arguments, AllocError>
        ensures { IfOk result (λ copy. copy ≡ self.now) }
    {
        Ok(Arguments {
            level: self.level,
            outer: self.outer.copied()?,
            settling: self.settling,
        })
    }

    /// The innermost level.
    pub fn level(&self) -> LevelFacts
        ensures { result ≡ self.now.level }
    {
        self.level
    }

    /// Puts another level in the place of the innermost.
    pub fn put_level(&mut self, level: LevelFacts)
        ensures { self.new ≡ record self.old { level = level } }
    {
        self.level = level;
    }

    /// Puts the levels outside the innermost side by side, in memory of their own, if there is
    /// memory.
    pub fn pack(&mut self) -> Result<(), AllocError>
        ensures { OnOk result (self.new ≡ self.old) }
    {
        self.outer = self.outer.packed()?;
        Ok(())
    }

    /// Drops all arguments, and all open parentheses.
    pub fn drop_all(&mut self)
        ensures { self.new ≡ rules.no_arguments }
    {
        self.level = LevelFacts::empty();
        self.outer.clear();
        self.settling = None;
    }

    /// Opens a parenthesis, if there is memory.
    #[tactic(auto, using(crate::proofs::Settles::as_opened))]
    pub fn open(&mut self) -> Result<(), AllocError>
        ensures { OnOk result (self.new ≡ rules.levels_after_open self.old) }
    {
        let opened = Opened {
            level: self.level,
            below: self.settling,
        };
        self.outer = self.outer.copied()?.with(opened)?;
        self.settling = None;
        self.level = LevelFacts::empty();
        Ok(())
    }

    /// Closes the innermost parenthesis, and gives its value outside.
    pub fn close(&mut self, margins: Margins) -> Result<(), FactFault>
        ensures { Closes (rules.levels_closed_onto margins self.old.level self.old.outer)
            self.new result }
    {
        let Some(opened) = self.outer.pop()? else {
            return Err(FactFault::Refused(RefusalReason::Argument));
        };
        let outside = settled(self.settling, opened.level);
        let value = self.level.inner()?;
        self.level = outside.given(value, margins)?;
        self.settling = both(opened.below, self.settling);
        Ok(())
    }

    /// Puts a command's answer there, if it gives one.
    pub fn answer(&mut self, answer: Option<Number>)
        ensures { self.new ≡ rules.levels_after_answer answer self.old }
    {
        if let Some(value) = answer {
            self.level = LevelFacts::of(value);
        }
    }

    /// Lets linear values become intervals, where Z or the pointer may change, and saved values
    /// too, where all that is saved is ended.
    pub fn settle(&mut self, margins: Margins, ends: bool)
        ensures { self.new ≡ rules.settled margins ends self.old }
    {
        self.level = self.level.settled(margins, ends);
        self.settling = Some(settled_again(self.settling, margins, ends));
    }

    /// Whether each level covers that of an edge, of as many.
    pub fn covers(&self, edge: &Arguments, margins: Margins) -> bool
        ensures { result ≡ covers.covers_arguments margins self.now edge.now }
    {
        let (one, other) = (self.outer.chain(), edge.outer.chain());
        self.level.covers(edge.level, margins)
            && covers_levels(one, self.settling, other, edge.settling, margins)
    }

    /// Whether nothing is pending.
    pub fn none_pending(&self) -> Result<(), RefusalReason>
        ensures { result ≡ joins.none_pending self.now }
    {
        if self.level.is_empty() && self.outer.chain().parts().is_none() {
            Ok(())
        } else {
            Err(RefusalReason::Pending)
        }
    }
}
