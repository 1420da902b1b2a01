//! What is chosen for the bodies of iterations.

use std::marker::Model;
use teco_base::Reg;
use teco_poly::Poly;

/// A register whose text may be longer in a body than before it, and the most that it has there.
#[derive(Clone, Copy)]
pub struct LongerText {
    pub register: Reg,
    pub text: Poly,
}

impl Model for LongerText {
    ghost use Rattle.teco_verifier.specs.table.Choices as choices;

    ghost Value = { choices.LongerText };

    ghost view = { λ l. record { register = l.register; text = l.text } };

    ghost inverse = { λ l. record { register = l.register; text = l.text } };
}

/// What was chosen for the body of a `<`.
#[derive(Drop)]
pub struct LoopLine {
    /// The number of the `<` among the expanded elements.
    pub number: usize,
    /// The most that is held where the body starts.
    pub held: Poly,
    /// Whether what is ahead, and the falls of the iterations outside, are there as at the `<`.
    pub kept: bool,
    /// The texts that may be longer, by their registers.
    pub longer: Vec<LongerText>,
}

impl Model for LoopLine {
    ghost use Rattle.teco_verifier.specs.table.Choices as choices;

    ghost Value = { choices.Chosen };

    ghost view = { λ l. record {
      begin = l.number;
      held = l.held;
      kept = l.kept;
      longer = l.longer.items;
    } };
}
