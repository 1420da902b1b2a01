//! A library that was read.
ghost use Rattle.std.specs.Prelude.{◌≡◌, ◌<◌, ◌≤◌, length, map, slice_index_or, is_some, All, None};
ghost use Rattle.std.specs.Option.{option_copied, ForSome};
ghost use Rattle.teco_base.specs.declared.TheConstants.{LIMIT, REGISTERS};
ghost use Rattle.teco_library.specs.Library.{argument_of};
ghost use Rattle.teco_library.specs.Reads.{Reads};

use crate::fault::LibraryFault;
use crate::header::{Declared, declared_in};
use crate::reading::spans_of;
use std::alloc::Global;
use std::marker::Model;
use teco_base::{REGISTERS, Reg};
use teco_model::{ArgumentRange, Span};

/// The texts that a library file gives to registers, and the argument that it may declare. It is
/// seen as these, with no text for each register that it leaves.
#[derive(Drop)]
pub struct Library {
    // a copy
    file: Vec<u8>,
    // where the texts stand in it, by the places of their registers
    spans: [Option<Span>; REGISTERS],
    argument: Option<Declared>,
}

impl Model for Library {
    ghost use Rattle.std.specs.Prelude.{◌≡◌, ◌≤◌, length, All};
    ghost use Rattle.teco_base.specs.declared.TheConstants.{LIMIT, REGISTERS};
    ghost use Rattle.teco_library.specs.Library.{LibraryFile};
    ghost use Rattle.teco_library.specs.Spans.{IsWithin, texts_at};

    ghost Value = { LibraryFile };

    ghost view = { λ l. record { texts = texts_at l.file.items l.spans; argument = l.argument } };

    ghost invariant = { λ l. (length l.file.items ≤ LIMIT) × (length l.spans ≡ REGISTERS)
        × All (IsWithin l.file.items) l.spans };
}

impl Library {
    /// Reads a library file. It takes time by the length of the file, and memory for a copy of it.
    pub fn read(alloc: Global, file: &[u8]) -> Result<Library, LibraryFault>
        requires { length file.now ≤ LIMIT }
        ensures { Reads file.now result }
    {
        let argument = declared_in(file)?;
        let spans = spans_of(file)?;
        let mut copy = Vec::new(alloc);
        copy.extend_from_slice(file)?;
        Ok(Library {
            file: copy,
            spans,
            argument,
        })
    }

    // The text of the register at a place.
    fn text_at(&self, place: usize) -> Option<&[u8]>
        requires { place < REGISTERS }
        ensures value { option_copied result ≡ slice_index_or self.now.texts place None }
        ensures within_limit { ForSome result (λ text. length text.now ≤ LIMIT) }
        ensures count { length self.now.texts ≡ REGISTERS }
    {
        let span = self.spans[place]?;
        Some(&self.file[span.start..span.end])
    }

    /// The text that a register gets; `None` where the library leaves it.
    pub fn text(&self, reg: Reg) -> Option<&[u8]>
        ensures value { option_copied result ≡ slice_index_or self.now.texts reg None }
        ensures within_limit { ForSome result (λ text. length text.now ≤ LIMIT) }
    {
        self.text_at(reg.index())
    }

    /// Does a register get a text?
    pub fn contains(&self, reg: Reg) -> bool
        ensures { result ≡ is_some (slice_index_or self.now.texts reg None) }
    {
        self.text(reg).is_some()
    }

    /// The texts that registers get, `A` to `Z` and then `0` to `9`.
    pub fn texts(&self) -> [Option<&[u8]>; REGISTERS]
        ensures value { map option_copied result ≡ self.now.texts }
        ensures within_limit { All (λ text. ForSome text (λ shown. length shown.now ≤ LIMIT))
            result }
    {
        let mut texts = [None; REGISTERS];
        for place in 0..REGISTERS {
            texts[place] = self.text_at(place);
        }
        texts
    }

    /// The arguments that a register may be called with, where the library declares these.
    pub fn argument(&self, reg: Reg) -> Option<ArgumentRange>
        ensures { result ≡ argument_of self.now reg }
    {
        let declared = self.argument?;
        (declared.register.index() == reg.index()).then_some(declared.range)
    }
}
