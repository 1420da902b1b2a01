//! A block of memory with a gap in it.
ghost use Rattle.std.specs.Prelude.{◌≡◌, ◌+◌, ◌-◌, ◌^◌, ◌<◌, ◌≤◌, [], ◌++◌, length, take, drop, OnOk, OnErr, vec_len};
ghost use Rattle.std.specs.Prelude.{vec_capacity};
ghost use Rattle.teco_base.specs.declared.TheConstants.{LIMIT};
ghost use Rattle.teco_text.specs.Gapped.{text_of};
ghost use Rattle.teco_text.specs.Answers.{IsPart};
ghost use Rattle.teco_text.specs.Text.{range, text_after_replacement};

use crate::moves::{move_gap, overwrite, widen};
use std::alloc::{AllocError, Global};
use std::marker::Model;
use std::mem;
use teco_base::LIMIT;

// The text is what stands before the gap, and then what stands behind it, up to the vector's end.
// What is in the gap is left over from earlier, and the vector's capacity is the room.
#[derive(Drop)]
pub(crate) struct Block {
    bytes: Vec<u8>,
    gap_start: usize,
    gap_end: usize,
}

impl Model for Block {
    ghost use Rattle.std.specs.Prelude.{◌-◌, ◌≤◌, length, take, drop, vec_capacity};
    ghost use Rattle.teco_text.specs.Gapped.{Gapped};

    ghost Value = { Gapped };

    ghost view = { λ b. record {
      before = take b.gap_start b.bytes.items;
      behind = drop b.gap_end b.bytes.items;
      gap = b.gap_end - b.gap_start;
      room = vec_capacity b.bytes;
    } };

    ghost invariant = { λ b. (b.gap_start ≤ b.gap_end) × (b.gap_end ≤ length b.bytes.items) };
}

impl Block {
    // An empty block, which has taken no memory.
    pub(crate) fn new(alloc: Global) -> Block
        ensures before { result.before ≡ [] }
        ensures behind { result.behind ≡ [] }
    {
        Block {
            bytes: Vec::new(alloc),
            gap_start: 0,
            gap_end: 0,
        }
    }

    // The length of the text.
    pub(crate) fn len(&self) -> usize
        ensures value { result ≡ length (text_of self.now) }
        ensures within { result < 2 ^ 63 }
    {
        self.gap_start + (self.bytes.len() - self.gap_end)
    }

    // What stands before the gap, and what behind it.
    pub(crate) fn slices(&self) -> (&[u8], &[u8])
        ensures before { result.0.now ≡ self.now.before }
        ensures behind { result.1.now ≡ self.now.behind }
    {
        (&self.bytes[..self.gap_start], &self.bytes[self.gap_end..])
    }

    // What a vector holds becomes the text, with the gap behind it, in the larger memory of the
    // two. The other is handed back, empty.
    pub(crate) fn exchange(&mut self, mut text: Vec<u8>) -> Vec<u8>
        ensures before { self.new.before ≡ text.items }
        ensures behind { self.new.behind ≡ [] }
        ensures spare { result.items ≡ [] }
        ensures grows { self.old.room ≤ self.new.room }
    {
        self.gap_start = text.len();
        self.gap_end = text.len();
        if text.capacity() < self.bytes.capacity() {
            self.bytes.clear();
            // it fits
            let _ = self.bytes.extend_from_slice(&text);
            text.clear();
            return text;
        }
        let mut spare = mem::replace(&mut self.bytes, text);
        spare.clear();
        spare
    }

    // Makes room for a text of `n` characters.
    #[inline(always)]
    pub(crate) fn reserve(&mut self, n: usize) -> Result<(), AllocError>
        ensures before { self.new.before ≡ self.old.before }
        ensures behind { self.new.behind ≡ self.old.behind }
        ensures ok { OnOk result (n ≤ self.new.room) }
        ensures err { OnErr result (self.old.room < n) }
        ensures grows { self.old.room ≤ self.new.room }
    {
        if n <= self.bytes.capacity() {
            return Ok(());
        }
        self.grow(n)
    }

    // Doubles the room, up to `LIMIT`, or makes it `n` where that is more or the double is refused.
    #[inline(never)]
    fn grow(&mut self, n: usize) -> Result<(), AllocError>
        ensures before { self.new.before ≡ self.old.before }
        ensures behind { self.new.behind ≡ self.old.behind }
        ensures ok { OnOk result (n ≤ self.new.room) }
        ensures err { OnErr result (self.old.room < n) }
        ensures grows { self.old.room ≤ self.new.room }
    {
        let doubled = self.bytes.capacity().saturating_mul(2).min(LIMIT);
        if n < doubled && self.grow_to(doubled).is_ok() {
            return Ok(());
        }
        self.grow_to(n)
    }

    // Puts `new` in the stead of the characters from `a` up to `b`; the gap is behind `new` then.
    // Where memory is refused, nothing has moved.
    #[inline(always)]
    pub(crate) fn replace(&mut self, a: usize, b: usize, new: &[u8]) -> Result<(), AllocError>
        requires { IsPart (text_of self.old) a b }
        ensures before { OnOk result (self.new.before ≡ take a (text_of self.old) ++ new.now) }
        ensures behind { OnOk result (self.new.behind ≡ drop b (text_of self.old)) }
        ensures err { OnErr result ((self.new.before ≡ self.old.before)
            × (self.new.behind ≡ self.old.behind)) }
        ensures refused { OnErr result
            (self.old.room < length (text_after_replacement (text_of self.old) a b new.now)) }
        ensures grows { self.old.room ≤ self.new.room }
    {
        self.reserve(self.len() - (b - a) + new.len())?;
        self.remove(a, b);
        self.put(new);
        Ok(())
    }

    // Takes the characters from `a` up to `b` into the gap.
    pub(crate) fn remove(&mut self, a: usize, b: usize)
        requires { IsPart (text_of self.old) a b }
        ensures before { self.new.before ≡ take a (text_of self.old) }
        ensures behind { self.new.behind ≡ drop b (text_of self.old) }
        ensures room { self.new.room ≡ self.old.room }
    {
        let at = self.gap_start.clamp(a, b);
        let end = move_gap(&mut self.bytes, self.gap_start, self.gap_end, at);
        self.gap_start = a;
        self.gap_end = end + (b - at);
    }

    // Puts `new` in before the gap.
    #[inline(always)]
    fn put(&mut self, new: &[u8])
        requires { length (text_of self.old) + length new.now ≤ self.old.room }
        ensures before { self.new.before ≡ self.old.before ++ new.now }
        ensures behind { self.new.behind ≡ self.old.behind }
        ensures grows { self.old.room ≤ self.new.room }
    {
        if self.gap_end == self.bytes.len() {
            self.append(new);
        } else {
            self.open(new.len());
            self.fill(new);
        }
    }

    // Appends `new`; the gap, which nothing is behind, closes.
    fn append(&mut self, new: &[u8])
        requires last { self.old.behind ≡ [] }
        requires fits { length self.old.before + length new.now ≤ self.old.room }
        ensures before { self.new.before ≡ self.old.before ++ new.now }
        ensures behind { self.new.behind ≡ [] }
        ensures grows { self.old.room ≤ self.new.room }
    {
        self.bytes.truncate(self.gap_start);
        self.bytes.extend_from_slice(new).unwrap();
        self.gap_start = self.bytes.len();
        self.gap_end = self.gap_start;
    }

    // Makes the gap at least `n` characters long. Where it is shorter, it grows by an eighth of what
    // is behind it, if there is room: so it is widened anew only when as many characters were put in
    // as an eighth of those that moved.
    fn open(&mut self, n: usize)
        requires { length (text_of self.old) + n ≤ self.old.room }
        ensures before { self.new.before ≡ self.old.before }
        ensures behind { self.new.behind ≡ self.old.behind }
        ensures gap { n ≤ self.new.gap }
        ensures grows { self.old.room ≤ self.new.room }
    {
        let gap = self.gap_end - self.gap_start;
        if n <= gap {
            return;
        }
        let behind = self.bytes.len() - self.gap_end;
        let spare = self.bytes.capacity() - self.bytes.len();
        let more = (n - gap).max(spare.min(behind / 8));
        widen(&mut self.bytes, self.gap_end, more);
        self.gap_end += more;
    }

    // Writes `new` to the front of the gap.
    fn fill(&mut self, new: &[u8])
        requires { length new.now ≤ self.old.gap }
        ensures before { self.new.before ≡ self.old.before ++ new.now }
        ensures behind { self.new.behind ≡ self.old.behind }
        ensures room { self.new.room ≡ self.old.room }
    {
        overwrite(&mut self.bytes, self.gap_start, new);
        self.gap_start += new.len();
    }

    // Appends the characters from `a` up to `b` to `out`.
    pub(crate) fn copy_range(&self, a: usize, b: usize, out: &mut Vec<u8>) -> Result<(), AllocError>
        requires { IsPart (text_of self.now) a b }
        ensures copied { OnOk result (out.new.items
            ≡ out.old.items ++ range (text_of self.now) a b) }
        ensures err { OnErr result (out.new.items ≡ out.old.items) }
        ensures refused { OnErr result (vec_capacity out.old - vec_len out.old < b - a) }
        ensures capacity { vec_capacity out.old ≤ vec_capacity out.new }
    {
        let (before, behind) = self.slices();
        let cut = before.len();
        out.reserve(b - a)?;
        out.extend_from_slice(&before[a.min(cut)..b.min(cut)])?;
        out.extend_from_slice(&behind[a.saturating_sub(cut)..b.saturating_sub(cut)])?;
        Ok(())
    }

    // Makes the room at least `n`, and no more where it is less.
    fn grow_to(&mut self, n: usize) -> Result<(), AllocError>
        ensures before { self.new.before ≡ self.old.before }
        ensures behind { self.new.behind ≡ self.old.behind }
        ensures ok { OnOk result (n ≤ self.new.room) }
        ensures err { OnErr result (self.old.room < n) }
        ensures grows { self.old.room ≤ self.new.room }
    {
        self.bytes.reserve_exact(n.saturating_sub(self.bytes.len()))
    }
}
