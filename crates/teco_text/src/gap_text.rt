//! A store in one block with a gap.
ghost use Rattle.std.specs.Prelude.{◌≡◌, []};

use crate::block::Block;
use crate::{TextFault, TextStore};
use std::alloc::Global;
use std::marker::Model;
use teco_base::LIMIT;

/// A text in one block with a gap, and its pointer.
///
/// An edit takes time by its own characters and by those between it and the last edit; where the
/// gap or the block has to grow, that is spread over the characters that were put in. Moving the
/// pointer moves no character.
#[derive(Drop)]
pub struct GapText {
    block: Block,
    dot: usize,
}

impl Model for GapText {
    ghost use Rattle.std.specs.Prelude.{◌≤◌, length};
    ghost use Rattle.teco_base.specs.declared.TheConstants.{LIMIT};
    ghost use Rattle.teco_text.specs.Gapped.{text_of};
    ghost use Rattle.teco_text.specs.PointedText.{PointedText};

    ghost Value = { PointedText };

    ghost view = { λ t. record { list = text_of t.block; pointer = t.dot; room = t.block.room } };

    ghost invariant = { λ t. (t.dot ≤ length (text_of t.block))
        × (length (text_of t.block) ≤ LIMIT) };
}

impl GapText {
    /// An empty text, which has taken no memory yet. Its memory will come from `alloc`.
    pub fn new(alloc: Global) -> GapText
        ensures list { result.list ≡ [] }
        ensures pointer { result.pointer ≡ 0 }
    {
        GapText {
            block: Block::new(alloc),
            dot: 0,
        }
    }
}

impl TextStore for GapText {
    ghost list = { λ t. t.list };

    ghost pointer = { λ t. t.pointer };

    ghost room = { λ t. t.room };

    fn len(&self) -> usize {
        self.block.len()
    }

    fn dot(&self) -> usize {
        self.dot
    }

    fn at(&self, i: usize) -> Option<u8> {
        let (front, back) = self.block.slices();
        if i < front.len() {
            front.get(i).copied()
        } else {
            back.get(i - front.len()).copied()
        }
    }

    fn set_dot(&mut self, i: usize) -> Result<(), TextFault> {
        if i > self.block.len() {
            return Err(TextFault::Off);
        }
        self.dot = i;
        Ok(())
    }

    fn insert(&mut self, bytes: &[u8]) -> Result<(), TextFault> {
        if bytes.len() > LIMIT - self.block.len() {
            return Err(TextFault::Full);
        }
        self.block.replace(self.dot, self.dot, bytes)?;
        self.dot += bytes.len();
        Ok(())
    }

    fn delete(&mut self, a: usize, b: usize) -> Result<(), TextFault> {
        if a > b || b > self.block.len() {
            return Err(TextFault::Off);
        }
        self.block.remove(a, b);
        if self.dot > b {
            self.dot -= b - a;
        } else if self.dot > a {
            self.dot = a;
        }
        Ok(())
    }

    fn replace(&mut self, a: usize, b: usize, bytes: &[u8]) -> Result<(), TextFault> {
        if a > b || b > self.block.len() {
            return Err(TextFault::Off);
        }
        if bytes.len() > LIMIT - (self.block.len() - (b - a)) {
            return Err(TextFault::Full);
        }
        self.block.replace(a, b, bytes)?;
        self.dot = a + bytes.len();
        Ok(())
    }

    fn copy_range(&self, a: usize, b: usize, out: &mut Vec<u8>) -> Result<(), TextFault> {
        if a > b || b > self.block.len() {
            return Err(TextFault::Off);
        }
        self.block.copy_range(a, b, out)?;
        Ok(())
    }

    fn reserve(&mut self, n: usize) -> Result<(), TextFault> {
        if n > LIMIT {
            return Err(TextFault::Full);
        }
        self.block.reserve(n)?;
        Ok(())
    }

    fn exchange(&mut self, text: Vec<u8>) -> Vec<u8> {
        self.dot = 0;
        self.block.exchange(text)
    }

    fn slices(&self) -> (&[u8], &[u8]) {
        self.block.slices()
    }
}
