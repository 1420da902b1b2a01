//! The search text of a policy.
ghost use Rattle.std.specs.Prelude.{◌≡◌, ◌↔◌, [], IsTrue};
ghost use Rattle.teco_policy.specs.Refusals.{IsReadText};
ghost use Rattle.teco_policy.specs.Wordings.{IsFoundIn};
ghost use Rattle.teco_policy.specs.declared.refusal.PolicyRefusal.TheVariants.{NoPattern};

use crate::alike::are_equal;
use crate::refusal::PolicyRefusal;
use std::alloc::Global;
use std::marker::Model;
use teco_find::{Pattern, minimum};
use teco_regs::Regs;

/// A search text, as it is looked for in the lines of a file: in either case, or exactly.
#[derive(Drop)]
pub struct SearchText {
    text: Vec<u8>,
    exact: bool,
    said: Pattern,
}

impl Model for SearchText {
    ghost use Rattle.std.specs.Prelude.{◌≡◌, Ok};
    ghost use Rattle.teco_model.specs.Pattern.{pattern};
    ghost use Rattle.teco_model.specs.Registers.{empty_registers};
    ghost use Rattle.teco_policy.specs.Wordings.{Wording};

    ghost Value = { Wording };

    ghost view = { λ s. record { text = s.text.items; exact = s.exact } };

    ghost invariant = { λ s. pattern empty_registers s.exact s.text.items ≡ Ok s.said };
}

impl SearchText {
    /// Reads a search text. It names no register, since none has a text before a macro runs.
    pub fn read(alloc: Global, text: &[u8], exact: bool) -> Result<SearchText, PolicyRefusal>
        ensures read { IsReadText exact text.now result }
        ensures empty { text.now ≡ [] → result ≡ Err NoPattern }
    {
        if text.is_empty() {
            return Err(PolicyRefusal::NoPattern);
        }
        if minimum(text)?.is_none() {
            return Err(PolicyRefusal::Register);
        }
        let said = Pattern::read(alloc, text, &Regs::new(alloc), exact)?;
        let mut kept = Vec::new(alloc);
        kept.extend_from_slice(text)?;
        Ok(SearchText {
            text: kept,
            exact,
            said,
        })
    }

    /// The text, as it was read.
    pub fn text(&self) -> &[u8]
        ensures { result.now ≡ self.now.text }
    {
        self.text.as_slice()
    }

    /// Do both have the same text, in the same mode?
    pub fn says_same(&self, other: &SearchText) -> bool
        ensures { IsTrue result → self.now ≡ other.now }
    {
        are_equal(&self.text, &other.text) && self.exact == other.exact
    }

    /// Does it have a match in a text?
    pub fn is_found_in(&self, text: &[u8]) -> bool
        ensures { IsTrue result ↔ IsFoundIn self.now text.now }
    {
        self.said.forward((&[], text), 0, 1).is_some()
    }
}
