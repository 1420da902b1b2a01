//! A try at the choice for the body of an iteration.

use crate::memo::{BodyText, Memo};
use std::alloc::{AllocError, Global};
use teco_check::{choice_for, line_of};
use teco_facts::{Changes, Choice, Facts, body_start, growth_of, held_last, joined_lengths};
use teco_poly::Poly;
use teco_verifier::{LoopLine, RefusalReason};

// How often a choice is tried.
const TRIES: u8 = 3;

/// A try at the choice for the body of an iteration.
#[derive(Drop)]
pub struct Attempt {
    /// The number of its `<`.
    pub begin: usize,
    /// The number of its `>`.
    pub end: usize,
    /// How many edges came before its body.
    pub pending: usize,
    /// How many choices were found before its body.
    pub found: usize,
    tries: u8,
    turns: Poly,
    changes: Changes,
    // what enters the body
    entering: Facts,
    choice: Choice,
}

/// What the facts at a `>` say of a try.
pub enum Judgement {
    /// The choice stands.
    Stands,
    /// Another one is to be tried.
    Again,
}

impl Attempt {
    /// The first try: the iteration is kept, and no more is held than at its `<`.
    pub fn first(begin: usize, body: &BodyText, turns: Poly, entering: Facts) -> Attempt {
        let choice = Choice {
            held: entering.held(),
            kept: true,
            texts: entering.texts(),
        };
        Attempt {
            begin,
            end: body.end,
            pending: 0,
            found: 0,
            tries: 1,
            turns,
            changes: body.changes,
            entering,
            choice,
        }
    }

    // The last try with a choice, if there is one; else this attempt.
    fn with(mut self, choice: Option<Choice>) -> Attempt {
        if let Some(choice) = choice {
            self.choice = choice;
            self.tries = TRIES;
        }
        self
    }

    /// This attempt, or the last try where a choice was found before.
    pub fn recalling(self, memo: &Memo) -> Result<Attempt, AllocError> {
        let choice = memo.choice(self.begin, &self.turns, &self.entering)?;
        Ok(self.with(choice))
    }

    /// This attempt, or the last try where a choice is given.
    pub fn given(self, chosen: &[LoopLine]) -> Attempt {
        let choice = choice_for(self.begin, chosen, &self.entering);
        self.with(choice)
    }

    /// This attempt, behind so many pending edges and found choices.
    pub fn behind(mut self, pending: usize, found: usize) -> Attempt {
        self.pending = pending;
        self.found = found;
        self
    }

    /// What is known at the start of the body.
    pub fn start(&self) -> Result<Facts, AllocError> {
        body_start(&self.choice, &self.changes, self.entering.copied()?)
    }

    // The choice for the next try, from what is known at the `>`.
    fn next_choice(&self, end: &Facts) -> Result<Choice, RefusalReason> {
        let growth = growth_of(&self.choice.held, &end.held())?;
        Ok(Choice {
            held: held_last(&self.entering.held(), &self.turns, &growth)?,
            kept: self.choice.kept && end.has_fallen(0),
            texts: joined_lengths(&self.choice.texts, &end.texts())?,
        })
    }

    // What is wrong for any choice.
    fn fault(&self, end: &Facts) -> Option<RefusalReason> {
        if !self.entering.is_counted() && !end.has_fallen(1) {
            Some(RefusalReason::Fall)
        } else if end.pushed() != self.entering.pushed() {
            Some(RefusalReason::Pop)
        } else {
            None
        }
    }

    // Whether the choice stands.
    fn stands(&self, end: &Facts) -> bool {
        self.choice
            .stands(&self.changes, &self.turns, &self.entering, Some(end))
    }

    // Whether the choice stands with this end of a turn. Where all pairs that were pushed lie at
    // the same place, they need not be compared.
    fn stands_here(&mut self, end: &mut Facts) -> bool {
        if !self.entering.has_pushes_of(end) {
            return self.stands(end);
        }
        let entering = self.entering.take_pushes();
        let pushes = end.take_pushes();
        let stands = self.stands(end);
        self.entering.put_pushes(entering);
        end.put_pushes(pushes);
        stands
    }

    /// What the facts at the `>` say of this try. Where another choice is to be tried, it is made.
    pub fn judged(&mut self, end: &mut Facts) -> Result<Judgement, RefusalReason> {
        if let Some(why) = self.fault(end) {
            return Err(why);
        }
        if self.stands_here(end) {
            return Ok(Judgement::Stands);
        }
        if self.tries >= TRIES {
            return Err(RefusalReason::Bound);
        }
        self.tries += 1;
        self.choice = self.next_choice(end)?;
        Ok(Judgement::Again)
    }

    /// Keeps the choice, if it took more than one try.
    pub fn keep(&self, memo: &mut Memo) -> Result<(), AllocError> {
        if self.tries > 1 {
            memo.keep(self.begin, self.turns, &self.entering, self.choice)?;
        }
        Ok(())
    }

    /// The choice, as a certificate has it.
    pub fn line(&self, alloc: Global) -> Result<LoopLine, AllocError> {
        line_of(alloc, self.begin, &self.entering, &self.choice)
    }
}
