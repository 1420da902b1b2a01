//! The editor, and what always holds of it.
ghost use Rattle.std.specs.Prelude.{◌≡◌, ◌≤◌, ◌++◌, [], length, All, OnOk, OnErr};
ghost use Rattle.teco_base.specs.declared.TheConstants.{LIMIT};
ghost use Rattle.teco_model.specs.Registers.{with_texts};
ghost use Rattle.teco_regs.specs.Texts.{handed, IsTextWithinLimit};
ghost use Rattle.teco_model.specs.State.{kept_of_store, held_length};
ghost use Rattle.teco_model.specs.laws.Whole.{IsWhole};

use crate::screen::Screen;
use std::alloc::{AllocError, Global};
use std::marker::Model;
use teco_base::REGISTERS;
use teco_model::{fits, pieces_are_bytes};
use teco_regs::Regs;
use teco_text::TextStore;

/// The state that stays between two runs: the buffer with its pointer, the registers, the last
/// search text and the search mode, the length of the last text found or inserted, and the bytes
/// that are typed.
#[derive(Drop)]
pub struct Editor<T: TextStore> {
    pub(crate) screen: Screen<T>,
    // a form feed ended the last page in the buffer
    pub(crate) form_feed: bool,
    pub(crate) regs: Regs,
    pub(crate) search_text: Vec<u8>,
    pub(crate) mode: i32,
    pub(crate) last_length: usize,
    // how many bytes may be typed until they are taken
    pub(crate) typed_cap: usize,
}

impl<T: TextStore> Model for Editor<T> {
    ghost use Rattle.std.specs.Prelude.{◌≤◌};
    ghost use Rattle.teco_base.specs.declared.TheConstants.{LIMIT};
    ghost use Rattle.teco_model.specs.State.{Kept};
    ghost use Rattle.teco_editor.specs.Screened.{typed_in};

    ghost Value = { Kept };

    ghost view = { λ e. record {
      text = e.screen.text;
      pointer = e.screen.pointer;
      form_feed = e.form_feed;
      registers = e.regs;
      search_text = e.search_text.items;
      mode = e.mode;
      last_length = e.last_length;
      typed = typed_in e.screen;
    } };

    ghost invariant = { λ e. e.last_length ≤ LIMIT };
}

impl<T: TextStore> Editor<T> {
    /// The text of the store, and nothing else. Takes no memory.
    pub fn new(alloc: Global, store: T) -> Self
        ensures { result ≡ kept_of_store (T.list store) (T.pointer store) }
    {
        Editor {
            screen: Screen::new(alloc, store),
            form_feed: false,
            regs: Regs::new(alloc),
            search_text: Vec::new(alloc),
            mode: 0,
            last_length: 0,
            typed_cap: usize::MAX,
        }
    }

    /// These always hold: the pointer is in the text, numbers fit 32 bits, characters are bytes,
    /// and no text is longer than `LIMIT`. It takes time by the depth of the push-down list.
    pub fn is_whole(&self)
        ensures { IsWhole self.now }
    {
        let (first, second) = self.screen.store().slices();
        pieces_are_bytes(first, second);
        let _size = self.screen.store().len();
        let _dot = self.screen.store().dot();
        self.regs.is_whole();
        fits(self.mode);
    }

    /// The store of the text.
    pub fn store(&self) -> &T
        ensures list { T.list result.now ≡ self.now.text }
        ensures pointer { T.pointer result.now ≡ self.now.pointer }
    {
        self.screen.store()
    }

    /// The text in two pieces, of which either may be empty.
    pub fn text(&self) -> (&[u8], &[u8])
        ensures { result.0.now ++ result.1.now ≡ self.now.text }
    {
        self.screen.store().slices()
    }

    /// The length of the text, at most `LIMIT`.
    pub fn size(&self) -> usize
        ensures value { result ≡ length self.now.text }
        ensures within_limit { result ≤ LIMIT }
    {
        self.screen.store().len()
    }

    /// The place of the pointer, at most `LIMIT`.
    pub fn dot(&self) -> usize
        ensures value { result ≡ self.now.pointer }
        ensures within_text { result ≤ length self.now.text }
        ensures within_limit { result ≤ LIMIT }
    {
        self.screen.store().dot()
    }

    /// The registers and the push-down list.
    pub fn regs(&self) -> &Regs
        ensures { result.now ≡ self.now.registers }
    {
        &self.regs
    }

    /// How many characters the buffer, the texts of the registers and those of the push-down list
    /// have.
    pub fn held(&self) -> u128
        ensures { result ≡ held_length self.now }
    {
        self.size() as u128 + self.regs.held()
    }

    /// Sets the texts that are handed in, each in its register's place, `A` to `Z` and then `0` to
    /// `9`. All of them or none.
    pub fn load(&mut self, texts: &[Option<&[u8]>; REGISTERS]) -> Result<(), AllocError>
        requires { All IsTextWithinLimit texts.now }
        ensures loaded { OnOk result (self.new ≡
            record self.old { registers = with_texts (handed texts.now) self.old.registers }) }
        ensures err { OnErr result (self.new ≡ self.old) }
    {
        self.regs.load(texts)
    }

    /// The length of the last text found or inserted, at most `LIMIT`.
    pub fn last_length(&self) -> usize
        ensures value { result ≡ self.now.last_length }
        ensures within_limit { result ≤ LIMIT }
    {
        self.last_length
    }

    /// Sets how many bytes may be typed until they are taken. More are refused as memory is; at
    /// first there is no such cap.
    pub fn cap_typed(&mut self, bytes: usize)
        ensures { self.new ≡ self.old }
    {
        self.typed_cap = bytes;
    }

    // Refuses so many more typed bytes where they pass the cap.
    pub(crate) fn keep_typed_cap(&self, more: usize) -> Result<(), AllocError> {
        if more <= self.typed_cap.saturating_sub(self.screen.typed_len()) {
            Ok(())
        } else {
            Err(AllocError)
        }
    }

    /// The bytes that were typed, which are then none. Takes no memory.
    pub fn take_typed(&mut self) -> Vec<u8>
        ensures typed { result.items ≡ self.old.typed }
        ensures emptied { self.new ≡ record self.old { typed = [] } }
    {
        self.screen.take_typed()
    }

    /// The bytes that were typed and not yet taken, in three pieces of which each may be empty.
    pub fn typed(&self) -> (&[u8], &[u8], &[u8])
        ensures { result.0.now ++ (result.1.now ++ result.2.now) ≡ self.now.typed }
    {
        self.screen.typed()
    }

    /// Drops the bytes that were typed and not yet taken.
    pub fn drop_typed(&mut self)
        ensures { self.new ≡ record self.old { typed = [] } }
    {
        self.screen.drop_typed();
    }
}
