//! The text that is edited, and what was typed of it.
ghost use Rattle.std.specs.Prelude.{◌≡◌, ◌+◌, ◌-◌, ◌≤◌, [], ◌++◌, false, true, length, OnOk, OnErr};
ghost use Rattle.std.specs.Prelude.{vec_capacity};
ghost use Rattle.teco_base.specs.Text.{range, text_after_replacement, text_after_deletion, text_after_insertion};
ghost use Rattle.teco_base.specs.Text.{pointer_after_deletion};
ghost use Rattle.teco_base.specs.declared.TheConstants.{LIMIT};
ghost use Rattle.teco_text.specs.Answers.{IsPart, OkWhere, OkWithin, OkWhereWithin};
ghost use Rattle.teco_editor.specs.Screened.{spare_in, typed_in};

use std::alloc::{AllocError, Global};
use std::marker::Model;
use std::mem;
use teco_model::Span;
use teco_text::{TextFault, TextStore};

// The text of a store, and the bytes that were typed and not yet taken.
//
// A whole text that is typed is not copied yet, but where it then changes, or where more is typed.
// Room for it is taken at once, so that the copy wants no memory.
#[derive(Drop)]
pub(crate) struct Screen<T: TextStore> {
    store: T,
    typed: Vec<u8>,
    // the text stands behind the typed bytes
    shows: bool,
}

impl<T: TextStore> Model for Screen<T> {
    ghost use Rattle.std.specs.Prelude.{◌≡◌, ◌+◌, ◌≤◌, length, true, vec_capacity};
    ghost use Rattle.teco_editor.specs.Screened.{Screened};

    ghost Value = { Screened };

    ghost view = { λ s. record {
      text = T.list s.store;
      pointer = T.pointer s.store;
      room = T.room s.store;
      copied = s.typed.items;
      capacity = vec_capacity s.typed;
      shows = s.shows;
    } };

    ghost invariant = { λ s. s.shows ≡ true
        → length s.typed.items + length (T.list s.store) ≤ vec_capacity s.typed };
}

// Appends two parts of a text, both or none.
fn copy_both<T: TextStore>(
    store: &T,
    first: Span,
    second: Span,
    out: &mut Vec<u8>,
) -> Result<(), AllocError>
    requires first { IsPart (T.list store.now) first.start first.end }
    requires second { IsPart (T.list store.now) second.start second.end }
    requires within_limit { (first.end ≤ LIMIT) × (second.end ≤ LIMIT) }
    ensures copied { OnOk result (out.new.items ≡ out.old.items ++
        (range (T.list store.now) first.start first.end
        ++ range (T.list store.now) second.start second.end)) }
    ensures err { OnErr result (out.new.items ≡ out.old.items) }
{
    out.reserve((first.end - first.start) + (second.end - second.start))?;
    // there is room for both, so neither is refused
    let _ = store.copy_range(first.start, first.end, out);
    let _ = store.copy_range(second.start, second.end, out);
    Ok(())
}

impl<T: TextStore> Screen<T> {
    // The text of a store, and nothing typed. Takes no memory.
    pub(crate) fn new(alloc: Global, store: T) -> Screen<T>
        ensures text { result.text ≡ T.list store }
        ensures pointer { result.pointer ≡ T.pointer store }
        ensures typed { typed_in result ≡ [] }
    {
        Screen {
            store,
            typed: Vec::new(alloc),
            shows: false,
        }
    }

    // The store of the text.
    pub(crate) fn store(&self) -> &T
        ensures text { T.list result.now ≡ self.now.text }
        ensures pointer { T.pointer result.now ≡ self.now.pointer }
    {
        &self.store
    }

    // How many bytes were typed.
    pub(crate) fn typed_len(&self) -> usize {
        if self.shows {
            self.typed.len() + self.store.len()
        } else {
            self.typed.len()
        }
    }

    // The bytes that were typed, in pieces of which each may be empty.
    pub(crate) fn typed(&self) -> (&[u8], &[u8], &[u8])
        ensures { result.0.now ++ (result.1.now ++ result.2.now) ≡ typed_in self.now }
    {
        if self.shows {
            let (first, second) = self.store.slices();
            (&self.typed, first, second)
        } else {
            (&self.typed, &[], &[])
        }
    }

    // Copies the text behind the typed bytes, for which there is room.
    #[inline(never)]
    fn copy_text(&mut self)
        requires { self.old.shows ≡ true }
        ensures copied { self.new.copied ≡ typed_in self.old }
        ensures shows { self.new.shows ≡ false }
        ensures text { self.new.text ≡ self.old.text }
        ensures pointer { self.new.pointer ≡ self.old.pointer }
        ensures room { self.new.room ≡ self.old.room }
        ensures capacity { self.old.capacity ≤ self.new.capacity }
    {
        let _ = self.store.copy_range(0, self.store.len(), &mut self.typed);
        self.shows = false;
    }

    // Copies the text where it was typed last, since it may change now.
    #[inline(always)]
    fn settle(&mut self)
        ensures copied { self.new.copied ≡ typed_in self.old }
        ensures shows { self.new.shows ≡ false }
        ensures text { self.new.text ≡ self.old.text }
        ensures pointer { self.new.pointer ≡ self.old.pointer }
        ensures room { self.new.room ≡ self.old.room }
        ensures capacity { self.old.capacity ≤ self.new.capacity }
    {
        if self.shows {
            self.copy_text();
        }
    }

    // Moves the pointer to a place.
    #[inline(always)]
    pub(crate) fn set_dot(&mut self, place: usize) -> Result<(), TextFault>
        ensures answer { OkWhere result (place ≤ length self.old.text) }
        ensures pointer { OnOk result (self.new.pointer ≡ place) }
        ensures err { OnErr result (self.new.pointer ≡ self.old.pointer) }
        ensures text { self.new.text ≡ self.old.text }
        ensures typed { typed_in self.new ≡ typed_in self.old }
    {
        self.store.set_dot(place)
    }

    // Puts bytes in before the pointer, which moves past them.
    #[inline(always)]
    pub(crate) fn insert(&mut self, bytes: &[u8]) -> Result<(), TextFault>
        ensures answer { OkWithin result
            (length (text_after_insertion self.old.text self.old.pointer bytes.now))
            self.old.room }
        ensures text { OnOk result (self.new.text ≡
            text_after_insertion self.old.text self.old.pointer bytes.now) }
        ensures pointer { OnOk result (self.new.pointer ≡ self.old.pointer + length bytes.now) }
        ensures err { OnErr result ((self.new.text ≡ self.old.text)
            × (self.new.pointer ≡ self.old.pointer)) }
        ensures room { self.old.room ≤ self.new.room }
        ensures typed { typed_in self.new ≡ typed_in self.old }
    {
        self.settle();
        self.store.insert(bytes)
    }

    // Takes out the characters from `a` up to `b`.
    #[inline(always)]
    pub(crate) fn delete(&mut self, a: usize, b: usize) -> Result<(), TextFault>
        ensures answer { OkWhere result (IsPart self.old.text a b) }
        ensures text { OnOk result (self.new.text ≡ text_after_deletion self.old.text a b) }
        ensures pointer { OnOk result (self.new.pointer
            ≡ pointer_after_deletion a b self.old.pointer) }
        ensures err { OnErr result ((self.new.text ≡ self.old.text)
            × (self.new.pointer ≡ self.old.pointer)) }
        ensures typed { typed_in self.new ≡ typed_in self.old }
    {
        self.settle();
        self.store.delete(a, b)
    }

    // Puts bytes in the stead of the characters from `a` up to `b`. The pointer goes behind them.
    #[inline(always)]
    pub(crate) fn replace(&mut self, a: usize, b: usize, bytes: &[u8]) -> Result<(), TextFault>
        ensures answer { OkWhereWithin result (IsPart self.old.text a b)
            (length (text_after_replacement self.old.text a b bytes.now)) self.old.room }
        ensures text { OnOk result (self.new.text ≡
            text_after_replacement self.old.text a b bytes.now) }
        ensures pointer { OnOk result (self.new.pointer ≡ a + length bytes.now) }
        ensures err { OnErr result ((self.new.text ≡ self.old.text)
            × (self.new.pointer ≡ self.old.pointer)) }
        ensures typed { typed_in self.new ≡ typed_in self.old }
    {
        self.settle();
        self.store.replace(a, b, bytes)
    }

    // Makes room for `n` characters in all.
    pub(crate) fn reserve(&mut self, n: usize) -> Result<(), TextFault>
        ensures answer { OkWithin result n self.old.room }
        ensures room { OnOk result (n ≤ self.new.room) }
        ensures text { self.new.text ≡ self.old.text }
        ensures pointer { self.new.pointer ≡ self.old.pointer }
        ensures typed { typed_in self.new ≡ typed_in self.old }
    {
        self.store.reserve(n)
    }

    // A vector becomes the text, with the pointer at its start. The smaller of the two
    // memories is handed back, with nothing in it.
    pub(crate) fn exchange(&mut self, text: Vec<u8>) -> Vec<u8>
        requires { length text.items ≤ LIMIT }
        ensures text { self.new.text ≡ text.items }
        ensures pointer { self.new.pointer ≡ 0 }
        ensures spare { result.items ≡ [] }
        ensures typed { typed_in self.new ≡ typed_in self.old }
    {
        self.settle();
        self.store.exchange(text)
    }

    // Makes room for so many more typed bytes.
    pub(crate) fn reserve_typed(&mut self, more: usize) -> Result<(), AllocError>
        ensures spare { OnOk result (more ≤ spare_in self.new) }
        ensures text { self.new.text ≡ self.old.text }
        ensures pointer { self.new.pointer ≡ self.old.pointer }
        ensures typed { typed_in self.new ≡ typed_in self.old }
    {
        self.settle();
        self.typed.reserve(more)
    }

    // Types bytes for which there is room.
    pub(crate) fn type_reserved(&mut self, bytes: &[u8])
        requires { length bytes.now ≤ spare_in self.old }
        ensures typed { typed_in self.new ≡ typed_in self.old ++ bytes.now }
        ensures spare { spare_in self.old - length bytes.now ≤ spare_in self.new }
        ensures text { self.new.text ≡ self.old.text }
        ensures pointer { self.new.pointer ≡ self.old.pointer }
    {
        self.settle();
        let _ = self.typed.extend_from_slice(bytes);
    }

    // Types bytes, all or none.
    pub(crate) fn type_bytes(&mut self, bytes: &[u8]) -> Result<(), AllocError>
        ensures typed { OnOk result (typed_in self.new ≡ typed_in self.old ++ bytes.now) }
        ensures err { OnErr result (typed_in self.new ≡ typed_in self.old) }
        ensures text { self.new.text ≡ self.old.text }
        ensures pointer { self.new.pointer ≡ self.old.pointer }
    {
        self.settle();
        self.typed.extend_from_slice(bytes)
    }

    // Types a part of the text, all of it or nothing. The whole text is not copied yet.
    pub(crate) fn type_part(&mut self, part: Span) -> Result<(), AllocError>
        requires part { IsPart self.old.text part.start part.end }
        ensures typed { OnOk result (typed_in self.new
            ≡ typed_in self.old ++ range self.old.text part.start part.end) }
        ensures err { OnErr result (typed_in self.new ≡ typed_in self.old) }
        ensures text { self.new.text ≡ self.old.text }
        ensures pointer { self.new.pointer ≡ self.old.pointer }
    {
        self.settle();
        let Span { start, end } = part;
        if end - start == self.store.len() {
            self.typed.reserve(end)?;
            self.shows = true;
            return Ok(());
        }
        match self.store.copy_range(start, end, &mut self.typed) {
            Ok(()) => Ok(()),
            Err(_) => Err(AllocError),
        }
    }

    // Types two parts of the text, both or none.
    pub(crate) fn type_both(&mut self, first: Span, second: Span) -> Result<(), AllocError>
        requires first { IsPart self.old.text first.start first.end }
        requires second { IsPart self.old.text second.start second.end }
        requires within_limit { (first.end ≤ LIMIT) × (second.end ≤ LIMIT) }
        ensures typed { OnOk result (typed_in self.new ≡ typed_in self.old ++
            (range self.old.text first.start first.end
            ++ range self.old.text second.start second.end)) }
        ensures err { OnErr result (typed_in self.new ≡ typed_in self.old) }
        ensures text { self.new.text ≡ self.old.text }
        ensures pointer { self.new.pointer ≡ self.old.pointer }
    {
        self.settle();
        copy_both(&self.store, first, second, &mut self.typed)
    }

    // The bytes that were typed, which are then none. Takes no memory.
    pub(crate) fn take_typed(&mut self) -> Vec<u8>
        ensures taken { result.items ≡ typed_in self.old }
        ensures typed { typed_in self.new ≡ [] }
        ensures text { self.new.text ≡ self.old.text }
        ensures pointer { self.new.pointer ≡ self.old.pointer }
    {
        self.settle();
        let none = Vec::new(*self.typed.allocator());
        mem::replace(&mut self.typed, none)
    }

    // Drops the bytes that were typed. A text that was typed last is not copied.
    pub(crate) fn drop_typed(&mut self)
        ensures typed { typed_in self.new ≡ [] }
        ensures text { self.new.text ≡ self.old.text }
        ensures pointer { self.new.pointer ≡ self.old.pointer }
    {
        self.typed = Vec::new(*self.typed.allocator());
        self.shows = false;
    }
}
