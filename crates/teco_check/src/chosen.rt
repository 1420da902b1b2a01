//! What is chosen for the bodies of iterations.
ghost use Rattle.std.specs.Prelude.{◌≡◌, length, option_map};
ghost use Rattle.teco_base.specs.declared.TheConstants.{REGISTERS};
ghost use Rattle.teco_verifier.specs.table.Deriving as rules;

use teco_base::REGISTERS;
use teco_facts::{Choice, Facts};
use teco_poly::Poly;
use teco_verifier::{LongerText, LoopLine};

// The texts, but for those that may be longer.
fn with_longer(longer: &[LongerText], texts: &[Poly; REGISTERS]) -> [Poly; REGISTERS]
    ensures value { result ≡ rules.with_longer longer.now texts.now }
    ensures all { length result ≡ REGISTERS }
{
    let mut with = *texts;
    for change in longer {
        with[change.register.index()] = change.text;
    }
    with
}

// What is chosen where these facts are known at the <.
fn choice_of(facts: &Facts, chosen: &LoopLine) -> Choice
    ensures { result ≡ rules.choice_of facts.now chosen.now }
{
    Choice {
        held: chosen.held,
        kept: chosen.kept,
        texts: with_longer(&chosen.longer, &facts.texts()),
    }
}

/// What is chosen for the < of a number, where these facts are known.
pub fn choice_for(number: usize, chosen: &[LoopLine], facts: &Facts) -> Option<Choice>
    ensures { result ≡ option_map (rules.choice_of facts.now) (rules.chosen_for number chosen.now) }
{
    for other in chosen {
        if other.number == number {
            return Some(choice_of(facts, other));
        }
    }
    None
}
