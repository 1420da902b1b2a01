//! What a command leaves and answers.
ghost use Rattle.std.specs.Prelude.{◌≡◌};
ghost use Rattle.teco_verifier.specs.facts.Shifts as shifts;
ghost use Rattle.teco_facts.specs.Numbers.{AreSmall};

use crate::{Facts, Number, Range, Shift};
use std::marker::Model;
use teco_verifier::RefusalReason;

/// What a command leaves and answers, as far as it is known.
#[derive(Drop)]
pub struct Foreseen {
    facts: Facts,
    answer: Option<Number>,
}

impl Model for Foreseen {
    ghost use Rattle.teco_verifier.specs.facts.Shifts as shifts;

    ghost Value = { shifts.Foreseen };

    ghost view = { λ f. record { facts = f.facts; answer = f.answer } };
}

impl Foreseen {
    /// With no answer.
    pub fn silent(facts: Facts) -> Foreseen
        ensures { result ≡ shifts.silent facts }
    {
        Foreseen {
            facts,
            answer: None,
        }
    }

    /// With an answer of a range.
    pub fn giving(range: Range, facts: Facts) -> Foreseen
        ensures { result ≡ shifts.answering range facts }
    {
        let answer = Some(Number::within(range));
        Foreseen { facts, answer }
    }

    /// With no answer, behind a shift.
    pub fn behind(shift: &Shift, facts: Facts) -> Result<Foreseen, RefusalReason>
        requires { AreSmall facts.position.falls }
        ensures { result ≡ shifts.silent_behind shift.now facts }
    {
        let facts = facts.shifted(shift)?;
        Ok(Foreseen::silent(facts))
    }

    /// The facts behind a command that took its arguments.
    pub fn answered(self) -> Facts
        ensures { result ≡ shifts.facts_answered self }
    {
        let mut facts = self.facts;
        facts.known.arguments.answer(self.answer);
        facts.known.answer = None;
        facts
    }
}
