//! The pattern that was read last.
ghost use Rattle.std.specs.Prelude.{◌≡◌, length, [], IsOk, IsTrue, OnOk, OnErr, IfErr, Ok};
ghost use Rattle.teco_base.specs.Does.{FailsWith, memory_where};
ghost use Rattle.teco_model.specs.Pattern as model;
ghost use Rattle.teco_find.specs.Reading.{pattern_cause};

use crate::fault::FindFault;
use crate::named::{Named, are_current, list_named};
use crate::pattern::Pattern;
use std::alloc::Global;
use std::marker::Model;
use teco_regs::Regs;

/// The pattern that was read last. A search by the same text need not read it again, as long as
/// the registers that the text names have the same texts.
#[derive(Drop)]
pub struct LastPattern {
    pattern: Pattern,
    // what it was read from, if that is kept
    text: Vec<u8>,
    named: Vec<Named>,
    exact: bool,
    kept: bool,
}

impl Model for LastPattern {
    ghost use Rattle.std.specs.Prelude.{◌≡◌, true};
    ghost use Rattle.teco_model.specs.Pattern as model;
    ghost use Rattle.teco_find.specs.Reading.{SaysWhere};

    ghost Value = { model.Pattern };

    ghost view = { λ l. l.pattern };

    ghost invariant = { λ l. l.kept ≡ true
        → SaysWhere l.named.items l.exact l.text.items l.pattern };
}

impl LastPattern {
    /// Nothing was read yet. Its memory will come from `alloc`; it takes none yet.
    pub fn new(alloc: Global) -> LastPattern
        ensures { result ≡ [] }
    {
        LastPattern {
            pattern: Pattern::empty(alloc),
            text: Vec::new(alloc),
            named: Vec::new(alloc),
            exact: false,
            kept: false,
        }
    }

    /// The pattern.
    pub fn pattern(&self) -> &Pattern
        ensures { result.now ≡ self.now }
    {
        &self.pattern
    }

    // Is it known to be what a text says in a search mode?
    #[inline(always)]
    fn is_of(&self, text: &[u8], regs: &Regs, exact: bool) -> bool
        ensures { IsTrue result → model.pattern regs.now exact text.now ≡ Ok self.now }
    {
        self.kept
            && self.exact == exact
            && self.text.as_slice() == text
            && are_current(&self.named, regs)
    }

    /// The pattern becomes the one that a search text says, as [`Pattern::read`] reads it. A
    /// refusal leaves it.
    #[inline(always)]
    pub fn read(&mut self, text: &[u8], regs: &Regs, exact: bool) -> Result<(), FindFault>
        ensures ok { OnOk result (model.pattern regs.now exact text.now ≡ Ok self.new) }
        ensures err { IfErr result (λ fault. FailsWith (memory_where IsOk)
            (model.pattern regs.now exact text.now) (pattern_cause fault)) }
        ensures kept { OnErr result (self.new ≡ self.old) }
        ensures empty { length text.now ≡ 0 → IsOk result }
    {
        if self.is_of(text, regs, exact) {
            return Ok(());
        }
        self.read_anew(text, regs, exact)
    }

    // The pattern becomes the one that a search text says.
    #[inline(never)]
    fn read_anew(&mut self, text: &[u8], regs: &Regs, exact: bool) -> Result<(), FindFault>
        ensures ok { OnOk result (model.pattern regs.now exact text.now ≡ Ok self.new) }
        ensures err { IfErr result (λ fault. FailsWith (memory_where IsOk)
            (model.pattern regs.now exact text.now) (pattern_cause fault)) }
        ensures kept { OnErr result (self.new ≡ self.old) }
        ensures empty { length text.now ≡ 0 → IsOk result }
    {
        let pattern = match Pattern::read(*self.text.allocator(), text, regs, exact) {
            Ok(pattern) => pattern,
            Err(fault) => return Err(fault),
        };
        self.keep(pattern, text, regs, exact);
        Ok(())
    }

    // Keeps a pattern, and what it was read from. What is refused memory is not kept: it is read
    // again.
    #[tactic(auto, using(crate::proofs::Naming::says_where))]
    fn keep(&mut self, pattern: Pattern, text: &[u8], regs: &Regs, exact: bool)
        requires { model.pattern regs.now exact text.now ≡ Ok pattern }
        ensures { self.new ≡ pattern }
    {
        self.kept = false;
        self.text.clear();
        self.kept = list_named(&mut self.named, text, regs).is_ok()
            && self.text.extend_from_slice(text).is_ok();
        self.exact = exact;
        self.pattern = pattern;
    }
}
