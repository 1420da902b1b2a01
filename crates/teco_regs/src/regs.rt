//! The registers.
ghost use Rattle.std.specs.Prelude.{◌≡◌, ◌≤◌, ◌<◌, ◌*◌, ◌^◌, ◌++◌, length, map, zip, sum_by, All, OnOk, OnErr, IfOk};
ghost use Rattle.std.specs.Prelude.{Some, vec_len};
ghost use Rattle.std.specs.List.{AllByRecursion};
ghost use Rattle.teco_base.specs.declared.TheConstants.{LIMIT};
ghost use Rattle.teco_model.specs.Registers.{AreWhole, IsWithinLimit, empty_registers, pair_of, with_number};
ghost use Rattle.teco_model.specs.Registers.{with_text, with_own_text, with_texts, registers_after_push};
ghost use Rattle.teco_model.specs.Registers.{registers_after_pop, held_length_of_pair, held_length_of_registers};
ghost use Rattle.teco_model.specs.Registers as model;
ghost use Rattle.teco_model.specs.laws.Whole.{AreWholePairs, IsWholePair};
ghost use Rattle.teco_regs.specs.Answers.{OkWithin, OkWhereNonEmpty, OkUnlessMemory};
ghost use Rattle.teco_regs.specs.Texts.{IsTextWithinLimit, handed, owned};

use crate::fault::RegFault;
use crate::pair::{Pair, append_both, overwrite};
use std::alloc::{AllocError, Global};
use std::array;
use std::marker::Model;
use teco_base::{LIMIT, REGISTERS, Reg};

/// The 36 registers, each with a number and a text, and the push-down list of such pairs.
///
/// No text has more than `LIMIT` characters. A call that is refused leaves all as it is.
#[derive(Drop)]
pub struct Regs {
    pairs: [Pair; REGISTERS],
    // the newest last
    stack: Vec<Pair>,
}

impl Model for Regs {
    ghost use Rattle.std.specs.Prelude.{reverse};
    ghost use Rattle.teco_model.specs.Registers.{Registers, AreWhole};

    ghost Value = { Registers };

    ghost view = { λ r. record { pairs = r.pairs; stack = reverse r.stack.items } };

    ghost invariant = { λ r. AreWhole (record { pairs = r.pairs; stack = reverse r.stack.items }) };
}

impl Regs {
    /// The registers of a new machine: every number 0, and every text empty. They have taken no
    /// memory yet; it will come from `alloc`.
    #[tactic(auto, using(crate::proofs::Whole::whole_made))]
    pub fn new(alloc: Global) -> Regs
        ensures { result ≡ empty_registers }
    {
        Regs {
            pairs: empty_pairs(alloc),
            stack: Vec::new(alloc),
        }
    }

    // The number and the text of the register.
    fn pair(&self, reg: Reg) -> &Pair
        ensures value { result.now ≡ pair_of reg self.now }
        ensures within_limit { IsWithinLimit result.now }
        ensures whole { AreWhole self.now }
    {
        &self.pairs[reg.index()]
    }

    /// These always hold: there are 36 registers, numbers fit 32 bits, and texts are of bytes and
    /// not too long.
    pub fn is_whole(&self)
        ensures { AreWholePairs self.now }
    {
        are_whole(&self.pairs);
        are_whole(&self.stack);
    }

    /// The number of the register.
    pub fn number(&self, reg: Reg) -> i32
        ensures value { result ≡ (pair_of reg self.now).number }
        ensures whole { AreWhole self.now }
    {
        self.pair(reg).number
    }

    /// Sets the number of the register.
    pub fn set_number(&mut self, reg: Reg, n: i32)
        ensures { self.new ≡ with_number reg n self.old }
    {
        let pair = &mut self.pairs[reg.index()];
        pair.number = n;
    }

    /// The text of the register.
    pub fn text(&self, reg: Reg) -> &[u8]
        ensures value { result.now ≡ (pair_of reg self.now).text }
        ensures within_limit { length result.now ≤ LIMIT }
        ensures whole { AreWhole self.now }
    {
        &self.pair(reg).text
    }

    /// Sets the text of the register. Memory is wanted only where it is longer than the one before.
    pub fn set_text(&mut self, reg: Reg, bytes: &[u8]) -> Result<(), RegFault>
        ensures answer { OkWithin result (length bytes.now) (length (pair_of reg self.old).text) }
        ensures set { OnOk result (self.new ≡ with_text reg bytes.now self.old) }
        ensures err { OnErr result (self.new ≡ self.old) }
    {
        if bytes.len() > LIMIT {
            return Err(RegFault::Full);
        }
        let pair = &mut self.pairs[reg.index()];
        overwrite(&mut pair.text, bytes, &[])?;
        Ok(())
    }

    /// Adds to the text of the register at its end.
    pub fn append_text(&mut self, reg: Reg, bytes: &[u8]) -> Result<(), RegFault>
        ensures answer { let text = (pair_of reg self.old).text in
            OkWithin result (length (text ++ bytes.now)) (length text) }
        ensures appended { OnOk result (self.new ≡
            with_text reg ((pair_of reg self.old).text ++ bytes.now) self.old) }
        ensures err { OnErr result (self.new ≡ self.old) }
    {
        let pair = &mut self.pairs[reg.index()];
        if bytes.len() > LIMIT - pair.text.len() {
            return Err(RegFault::Full);
        }
        pair.text.extend_from_slice(bytes)?;
        Ok(())
    }

    /// Sets the text of the register to two pieces, one after the other. Memory is wanted only
    /// where they are longer together than the text before.
    pub fn set_pieces(&mut self, reg: Reg, first: &[u8], second: &[u8]) -> Result<(), RegFault>
        ensures answer { OkWithin result
            (length (first.now ++ second.now)) (length (pair_of reg self.old).text) }
        ensures set { OnOk result (self.new ≡ with_text reg (first.now ++ second.now) self.old) }
        ensures err { OnErr result (self.new ≡ self.old) }
    {
        if first.len() > LIMIT || second.len() > LIMIT - first.len() {
            return Err(RegFault::Full);
        }
        let pair = &mut self.pairs[reg.index()];
        overwrite(&mut pair.text, first, second)?;
        Ok(())
    }

    /// Adds two pieces to the text of the register at its end, one after the other: both or none.
    pub fn append_pieces(&mut self, reg: Reg, first: &[u8], second: &[u8]) -> Result<(), RegFault>
        ensures answer { let text = (pair_of reg self.old).text in
            OkWithin result (length (text ++ (first.now ++ second.now))) (length text) }
        ensures appended { OnOk result (self.new ≡
            with_text reg ((pair_of reg self.old).text ++ (first.now ++ second.now)) self.old) }
        ensures err { OnErr result (self.new ≡ self.old) }
    {
        let pair = &mut self.pairs[reg.index()];
        let room = LIMIT - pair.text.len();
        if first.len() > room || second.len() > room - first.len() {
            return Err(RegFault::Full);
        }
        append_both(&mut pair.text, first, second)?;
        Ok(())
    }

    /// Moves a text into the register.
    pub fn put_text(&mut self, reg: Reg, text: Vec<u8>)
        requires { vec_len text ≤ LIMIT }
        ensures { self.new ≡ with_text reg text.items self.old }
    {
        let pair = &mut self.pairs[reg.index()];
        pair.text = text;
    }

    /// Sets the texts that are handed in, each in its register's place, `A` to `Z` and then `0` to
    /// `9`; the others, the numbers and the push-down list stay. All of them are set, or none.
    pub fn load(&mut self, texts: &[Option<&[u8]>; REGISTERS]) -> Result<(), AllocError>
        requires { All IsTextWithinLimit texts.now }
        ensures loaded { OnOk result (self.new ≡ with_texts (handed texts.now) self.old) }
        ensures err { OnErr result (self.new ≡ self.old) }
    {
        // every growth comes before the first change
        let copies = copies_of(*self.stack.allocator(), texts)?;
        put_texts(&mut self.pairs, copies);
        Ok(())
    }

    /// Puts a copy of the register's number and text on the push-down list.
    pub fn push(&mut self, reg: Reg) -> Result<(), RegFault>
        ensures answer { OkUnlessMemory result }
        ensures put { OnOk result (self.new ≡ registers_after_push reg self.old) }
        ensures err { OnErr result (self.new ≡ self.old) }
    {
        let copy = self.pair(reg).clone()?;
        self.stack.push(copy)?;
        Ok(())
    }

    /// Takes the newest number and text off the push-down list, and moves them into the register.
    pub fn pop(&mut self, reg: Reg) -> Result<(), RegFault>
        ensures answer { OkWhereNonEmpty result self.old.stack }
        ensures taken { OnOk result (registers_after_pop reg self.old ≡ Some self.new) }
        ensures err { OnErr result (self.new ≡ self.old) }
    {
        let Some(pair) = self.stack.pop() else {
            return Err(RegFault::Empty);
        };
        self.pairs[reg.index()] = pair;
        Ok(())
    }

    /// How many characters the texts of all registers and of the push-down list have.
    #[tactic(auto, using(crate::proofs::Reversed::reversed))]
    pub fn held(&self) -> u128
        ensures value { result ≡ held_length_of_registers self.now }
        ensures fits { result < 2 ^ 96 }
    {
        held_in(&self.pairs) + held_in(&self.stack)
    }
}

// As many empty pairs as there are registers.
fn empty_pairs(alloc: Global) -> [Pair; REGISTERS]
    ensures { result ≡ model.empty_pairs }
{
    array::from_fn(|_| Pair::new(alloc))
}

// A copy of each text that is handed in.
fn copies_of(alloc: Global, texts: &[Option<&[u8]>]) -> Result<Vec<Option<Vec<u8>>>, AllocError>
    ensures { IfOk result (λ copies. owned copies.items ≡ handed texts.now) }
{
    let mut copies = Vec::with_capacity(alloc, texts.len())?;
    for text in texts {
        let copy = match text {
            Some(text) => Some(Vec::from_slice(alloc, text)?),
            None => None,
        };
        copies.push(copy)?;
    }
    Ok(copies)
}

// Moves texts into pairs, each in its place. It takes no memory.
fn put_texts(pairs: &mut [Pair], texts: Vec<Option<Vec<u8>>>)
    requires { vec_len texts ≡ length pairs.old }
    ensures { pairs.new ≡ map (λ own. with_own_text own.0 own.1)
        (zip (owned texts.items) pairs.old) }
{
    for (i, text) in texts.into_iter().enumerate() {
        if let Some(own) = text {
            let pair = &mut pairs[i];
            pair.text = own;
        }
    }
}

// Pairs whose texts are not too long have numbers of 32 bits and texts of bytes.
fn are_whole(pairs: &[Pair])
    requires { All IsWithinLimit pairs.now }
    ensures { AllByRecursion IsWholePair pairs.now }
{
    for pair in pairs {
        pair.is_whole();
    }
}

// How many characters the texts of some pairs have.
fn held_in(pairs: &[Pair]) -> u128
    requires { All IsWithinLimit pairs.now }
    ensures value { result ≡ sum_by held_length_of_pair pairs.now }
    ensures within_limit { result ≤ LIMIT * length pairs.now }
{
    let mut held = 0;
    for pair in pairs {
        held += pair.text.len() as u128;
    }
    held
}
