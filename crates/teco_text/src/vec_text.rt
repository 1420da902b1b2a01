//! A store in one vector.
ghost use Rattle.std.specs.Prelude.{◌≡◌, ◌+◌, ◌≤◌, [], length, IsOk, OnOk, OnErr, vec_len, vec_capacity};
ghost use Rattle.teco_base.specs.Text.{text_after_replacement, text_after_deletion, text_after_insertion};
ghost use Rattle.teco_text.specs.Answers.{IsPart};

use crate::fault::TextFault;
use crate::store::TextStore;
use std::alloc::{AllocError, Global};
use std::marker::Model;
use std::mem;
use teco_base::LIMIT;

/// A text in one vector, with its pointer. An edit takes time by its own characters and by all
/// those behind it.
#[derive(Drop)]
pub struct VecText {
    bytes: Vec<u8>,
    dot: usize,
}

impl Model for VecText {
    ghost use Rattle.std.specs.Prelude.{◌≤◌, length, vec_capacity};
    ghost use Rattle.teco_base.specs.declared.TheConstants.{LIMIT};
    ghost use Rattle.teco_text.specs.PointedText.{PointedText};

    ghost Value = { PointedText };

    ghost view = { λ t. record {
      list = t.bytes.items;
      pointer =
          t.dot;
      room = vec_capacity t.bytes;
    } };

    ghost invariant = { λ t. (t.dot ≤ length t.bytes.items) × (length t.bytes.items ≤ LIMIT) };
}

impl VecText {
    /// An empty text, which has taken no memory yet. Its memory will come from `alloc`.
    pub fn new(alloc: Global) -> VecText
        ensures list { result.list ≡ [] }
        ensures pointer { result.pointer ≡ 0 }
    {
        VecText {
            bytes: Vec::new(alloc),
            dot: 0,
        }
    }
}

impl TextStore for VecText {
    ghost list = { λ t. t.list };

    ghost pointer = { λ t. t.pointer };

    ghost room = { λ t. t.room };

    fn len(&self) -> usize {
        self.bytes.len()
    }

    fn dot(&self) -> usize {
        self.dot
    }

    fn at(&self, i: usize) -> Option<u8> {
        self.bytes.get(i).copied()
    }

    fn set_dot(&mut self, i: usize) -> Result<(), TextFault> {
        if i > self.bytes.len() {
            return Err(TextFault::Off);
        }
        self.dot = i;
        Ok(())
    }

    fn insert(&mut self, bytes: &[u8]) -> Result<(), TextFault> {
        if bytes.len() > LIMIT - self.bytes.len() {
            return Err(TextFault::Full);
        }
        insert_at(&mut self.bytes, self.dot, bytes)?;
        self.dot += bytes.len();
        Ok(())
    }

    fn delete(&mut self, a: usize, b: usize) -> Result<(), TextFault> {
        if a > b || b > self.bytes.len() {
            return Err(TextFault::Off);
        }
        remove_part(&mut self.bytes, a, b);
        if self.dot > b {
            self.dot -= b - a;
        } else if self.dot > a {
            self.dot = a;
        }
        Ok(())
    }

    fn replace(&mut self, a: usize, b: usize, bytes: &[u8]) -> Result<(), TextFault> {
        if a > b || b > self.bytes.len() {
            return Err(TextFault::Off);
        }
        if bytes.len() > LIMIT - (self.bytes.len() - (b - a)) {
            return Err(TextFault::Full);
        }
        replace_part(&mut self.bytes, a, b, bytes)?;
        self.dot = a + bytes.len();
        Ok(())
    }

    fn copy_range(&self, a: usize, b: usize, out: &mut Vec<u8>) -> Result<(), TextFault> {
        if a > b || b > self.bytes.len() {
            return Err(TextFault::Off);
        }
        out.extend_from_slice(&self.bytes[a..b])?;
        Ok(())
    }

    fn reserve(&mut self, n: usize) -> Result<(), TextFault> {
        if n > LIMIT {
            return Err(TextFault::Full);
        }
        self.bytes.reserve(n.saturating_sub(self.bytes.len()))?;
        Ok(())
    }

    fn exchange(&mut self, mut text: Vec<u8>) -> Vec<u8> {
        self.dot = 0;
        if text.capacity() < self.bytes.capacity() {
            self.bytes.clear();
            // it fits
            let _ = self.bytes.extend_from_slice(&text);
            text.clear();
            return text;
        }
        let mut spare = mem::replace(&mut self.bytes, text);
        spare.clear();
        spare
    }

    fn slices(&self) -> (&[u8], &[u8]) {
        (&self.bytes, &[])
    }
}

// Puts `new` in at a place, in time by `new` and the tail. Where memory is refused, nothing has
// moved.
fn insert_at(text: &mut Vec<u8>, at: usize, new: &[u8]) -> Result<(), AllocError>
    requires { at ≤ length text.old.items }
    ensures ok { OnOk result (text.new.items ≡ text_after_insertion text.old.items at new.now) }
    ensures err { OnErr result (text.new.items ≡ text.old.items) }
    ensures capacity { vec_capacity text.old ≤ vec_capacity text.new }
    ensures succeeds { vec_len text.old + length new.now ≤ vec_capacity text.old → IsOk result }
{
    text.extend_from_slice(new)?;
    text[at..].rotate_right(new.len());
    Ok(())
}

// Takes out a part, in time by the tail behind it.
fn remove_part(text: &mut Vec<u8>, a: usize, b: usize)
    requires { IsPart text.old.items a b }
    ensures items { text.new.items ≡ text_after_deletion text.old.items a b }
    ensures capacity { vec_capacity text.new ≡ vec_capacity text.old }
{
    text.copy_within(b.., a);
    text.truncate(text.len() - (b - a));
}

// Writes `new` over the part's characters as far as both go, and moves the tail once.
fn replace_part(text: &mut Vec<u8>, a: usize, b: usize, new: &[u8]) -> Result<(), AllocError>
    requires { IsPart text.old.items a b }
    ensures ok { OnOk result (text.new.items ≡ text_after_replacement text.old.items a b new.now) }
    ensures err { OnErr result (text.new.items ≡ text.old.items) }
    ensures capacity { vec_capacity text.old ≤ vec_capacity text.new }
    ensures succeeds { length (text_after_replacement text.old.items a b new.now) ≤
        vec_capacity text.old
        → IsOk result }
{
    if new.len() < b - a {
        overwrite(text, a, new);
        remove_part(text, a + new.len(), b);
    } else {
        let (over, more) = new.split_at(b - a);
        insert_at(text, b, more)?;
        overwrite(text, a, over);
    }
    Ok(())
}

// Writes `new` over the characters from a place on.
fn overwrite(text: &mut Vec<u8>, at: usize, new: &[u8])
    requires { at + length new.now ≤ length text.old.items }
    ensures items { text.new.items ≡
        text_after_replacement text.old.items at (at + length new.now) new.now }
    ensures capacity { vec_capacity text.new ≡ vec_capacity text.old }
{
    text[at..at + new.len()].copy_from_slice(new);
}
