//! The texts of a macro's parameters, by the words of the command line.
ghost use Rattle.std.specs.Prelude.{◌≡◌, IfOk, option_copied, option_map};
ghost use Rattle.std.specs.List.{find};
ghost use Rattle.std.specs.Option.{option_or};
ghost use Rattle.teco_parameters.specs.Binding.{AreTexts, Binds, first_unknown, first_used_twice};
ghost use Rattle.teco_parameters.specs.Binding.{is_for, is_known, text_of, uses};
ghost use Rattle.teco_parameters.specs.declared.binding.BindingFault.TheVariants.{Memory};

use crate::parameter::Parameter;
use std::alloc::{AllocError, AllocFailed, Global};

/// A word `KEY=TEXT` of the command line: a parameter's name, or that of its register, and its text.
#[derive(Clone, Copy)]
pub struct Given<'a> {
    pub key: &'a [u8],
    pub text: &'a [u8],
}

/// Why the parameters of a macro have no texts.
#[derive(Clone, Copy)]
pub enum BindingFault {
    /// The word of this number names no parameter.
    Unknown(usize),
    /// Two words name the parameter of this number.
    Twice(usize),
    /// No word names the parameter of this number, and it has no default.
    Missing(usize),
    /// A growth was refused.
    Memory,
}

impl From<AllocError> for BindingFault {
    ghost from_gives = { λ _ e. e ≡ Memory };

    fn from(_refused: AllocError) -> BindingFault {
        BindingFault::Memory
    }
}

impl<T: Drop> From<AllocFailed<T>> for BindingFault {
    ghost from_gives = { λ _ e. e ≡ Memory };

    fn from(_refused: AllocFailed<T>) -> BindingFault {
        BindingFault::Memory
    }
}

// Does a word name one of the parameters?
fn is_known(parameters: &[Parameter], word: Given<'_>) -> bool
    ensures { result ≡ is_known parameters.now word.entry }
{
    parameters.iter().any(|p| p.is_named_by(word.key))
}

// The place of the first word that names no parameter.
fn first_unknown(parameters: &[Parameter], given: &[Given<'_>]) -> Option<usize>
    ensures { result ≡ first_unknown parameters.now given.now }
{
    given.iter().position(|word| !is_known(parameters, *word))
}

// How many words name a parameter.
fn uses(given: &[Given<'_>], parameter: &Parameter) -> usize
    ensures { result ≡ uses given.now parameter.now }
{
    given
        .iter()
        .filter(|word| parameter.is_named_by(word.key))
        .count()
}

// The place of the first parameter that two words name.
fn first_used_twice(parameters: &[Parameter], given: &[Given<'_>]) -> Option<usize>
    ensures { result ≡ first_used_twice parameters.now given.now }
{
    parameters
        .iter()
        .position(|parameter| 1 < uses(given, parameter))
}

// The first word that names a parameter.
fn word_for<'g, 'a>(parameter: &Parameter, given: &'g [Given<'a>]) -> Option<&'g Given<'a>>
    ensures { option_copied result ≡ find (is_for parameter.now) given.now }
{
    given.iter().find(|word| parameter.is_named_by(word.key))
}

// The text of a word, or else another.
fn text_or<'a>(word: Option<&Given<'a>>, default: Option<&'a [u8]>) -> Option<&'a [u8]>
    ensures { option_copied result
        ≡ option_or (option_map (λ w. w.text.now) (option_copied word.entry))
        (option_copied default.entry) }
{
    match word {
        Some(word) => Some(word.text),
        None => default,
    }
}

impl Parameter {
    // The text that it has by default.
    fn default_text(&self) -> Option<&[u8]>
        ensures { option_copied result ≡ option_map (λ text. text.items) self.now.default }
    {
        match &self.default {
            Some(text) => Some(text.as_slice()),
            None => None,
        }
    }
}

// The text of a parameter, as it is given or by default.
fn text_of<'a>(parameter: &'a Parameter, given: &[Given<'a>]) -> Option<&'a [u8]>
    ensures { option_copied result ≡ text_of given.now parameter.now }
{
    text_or(word_for(parameter, given), parameter.default_text())
}

// A text as a list of its own.
fn list_of(alloc: Global, text: &[u8]) -> Result<Vec<u8>, AllocError>
    ensures { IfOk result (λ list. list.items ≡ text.now) }
{
    let mut list = Vec::new(alloc);
    list.extend_from_slice(text)?;
    Ok(list)
}

// The texts of all parameters, in their order.
fn texts_of_all(
    alloc: Global,
    parameters: &[Parameter],
    given: &[Given<'_>],
) -> Result<Vec<Vec<u8>>, BindingFault>
    ensures { AreTexts parameters.now given.now result }
{
    let mut texts = Vec::new(alloc);
    for i in 0..parameters.len() {
        let Some(text) = text_of(&parameters[i], given) else {
            return Err(BindingFault::Missing(i));
        };
        texts.push(list_of(alloc, text)?)?;
    }
    Ok(texts)
}

/// The texts of all parameters, in their order: each is given by the one word that names it, or it is
/// the default. The first fault is told.
pub fn texts_for(
    alloc: Global,
    parameters: &[Parameter],
    given: &[Given<'_>],
) -> Result<Vec<Vec<u8>>, BindingFault>
    ensures { Binds parameters.now given.now result }
{
    if let Some(k) = first_unknown(parameters, given) {
        return Err(BindingFault::Unknown(k));
    }
    if let Some(i) = first_used_twice(parameters, given) {
        return Err(BindingFault::Twice(i));
    }
    texts_of_all(alloc, parameters, given)
}
