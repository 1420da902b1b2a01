//! Texts that registers are given before a run.
ghost use Rattle.std.specs.Prelude.{◌≡◌, ◌≤◌, length};
ghost use Rattle.teco_base.specs.declared.TheConstants.{LIMIT};

use crate::fault::AnswerFault;
use crate::files::{Shelf, read_file};
use crate::forms::{Escape, form_of_word};
use std::alloc::{AllocError, Global};
use std::marker::Model;
use teco_base::{LIMIT, Reg};

/// A word of the command line that gives a register a text, as `A=TEXT`.
#[derive(Drop)]
pub struct Setting {
    register: Reg,
    text: Vec<u8>,
}

impl Model for Setting {
    ghost use Rattle.std.specs.Prelude.{◌≤◌, length};
    ghost use Rattle.teco_base.specs.declared.TheConstants.{LIMIT};
    ghost use Rattle.teco_console.specs.Settings.{GivenText};

    ghost Value = { GivenText };

    ghost view = { λ s. record { register = s.register; text = s.text.items } };

    ghost invariant = { λ s. length s.text.items ≤ LIMIT };
}

impl Setting {
    /// Reads a word, whose text is in the form of words; none where it is no such word, or its text
    /// is too long.
    pub fn read(alloc: Global, word: &str, escape: Escape) -> Result<Option<Setting>, AllocError> {
        let Some((register, text)) = parts_of(word) else {
            return Ok(None);
        };
        Ok(Setting::of(register, text_of(alloc, text, escape)?))
    }

    /// Reads a word that names the file which has the text, as `A=PATH`; none where it is no such
    /// word.
    pub fn read_file<R: Shelf>(
        rt: &R,
        alloc: Global,
        word: &str,
    ) -> Result<Option<Setting>, AnswerFault> {
        let Some((register, path)) = parts_of(word) else {
            return Ok(None);
        };
        Ok(Setting::of(register, read_file(rt, alloc, path)?))
    }

    /// The register.
    pub fn register(&self) -> Reg
        ensures { result ≡ self.now.register }
    {
        self.register
    }

    /// Its text.
    pub fn text(&self) -> &[u8]
        ensures text { result.now ≡ self.now.text }
        ensures within { length result.now ≤ LIMIT }
    {
        &self.text
    }

    /// The text of a register; none where it is too long.
    pub fn of(register: Reg, text: Vec<u8>) -> Option<Setting> {
        if text.len() > LIMIT {
            None
        } else {
            Some(Setting { register, text })
        }
    }
}

// The register and the text of a word.
fn parts_of(word: &str) -> Option<(Reg, &str)> {
    let (name, text) = word.split_once('=')?;
    let register = register_named(name.as_bytes())?;
    Some((register, text))
}

// What a text in the form of words says.
fn text_of(alloc: Global, text: &str, escape: Escape) -> Result<Vec<u8>, AllocError> {
    form_of_word(escape).read(alloc, text.as_bytes())
}

// The register of a name.
fn register_named(name: &[u8]) -> Option<Reg> {
    match name {
        [name] => Reg::of(*name),
        _ => None,
    }
}
