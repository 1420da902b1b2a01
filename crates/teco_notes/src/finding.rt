//! What the comments of a library say of its macros.
use crate::example::{self, Example};
use crate::keeps;
use crate::naming::KnownTexts;
use std::alloc::{AllocError, Global};
use teco_base::Reg;
use teco_lex::element;
use teco_model::Element;
use teco_parameters::{Comment, Parameter, comments_of};
use teco_policy::{Policy, PolicyRefusal};

/// What comments begin with that declare texts which a macro takes.
const TAKES: &[u8] = b"TAKES";

/// What a comment says of a macro, or is meant to say.
#[derive(Drop)]
pub enum Note {
    /// An example; none where the comment doesn't say one.
    Example(Option<Example>),
    /// A policy, or why it is none. A register in its search text stands for any text.
    Keeps(Result<Policy, PolicyRefusal>),
    /// A text that the macro takes; none where the comment doesn't declare one.
    Takes(Option<Parameter>),
}

/// A comment that says something of a macro.
#[derive(Drop)]
pub struct FoundNote {
    /// The register of the macro that it is about.
    pub register: Reg,
    /// The place in the text of the library's source where it begins.
    pub place: usize,
    pub note: Note,
}

/// The element at a place of a text, if one can be read there.
pub fn element_at(text: &[u8], place: usize) -> Option<Element<'_>> {
    if place > text.len() {
        return None;
    }
    match element(text, place) {
        Ok(found) => found,
        Err(_) => None,
    }
}

// What a comment says of a macro, if it begins as such comments do.
fn note_of(alloc: Global, comment: &[u8], exact: bool) -> Result<Option<Note>, AllocError> {
    if comment.starts_with(keeps::WORD) {
        let read = keeps::read(alloc, comment, exact, KnownTexts::Any)?;
        return Ok(Some(Note::Keeps(read)));
    }
    if comment.starts_with(TAKES) {
        return Ok(Some(Note::Takes(Parameter::read(alloc, comment)?)));
    }
    if comment.starts_with(example::WORD) {
        return Ok(Some(Note::Example(Example::read(alloc, comment)?)));
    }
    Ok(None)
}

// The notes that comments are, where examples have the texts that they name alone.
fn bare_notes(
    alloc: Global,
    comments: &[Comment],
    exact: bool,
) -> Result<Vec<FoundNote>, AllocError> {
    let mut notes = Vec::new(alloc);
    for comment in comments {
        if let Some(note) = note_of(alloc, &comment.text, exact)? {
            notes.push(FoundNote {
                register: comment.register,
                place: comment.place,
                note,
            })?;
        }
    }
    Ok(notes)
}

// A text that a macro has in a register by default.
#[derive(Drop)]
struct DefaultText {
    entry: Reg,
    register: Reg,
    text: Vec<u8>,
}

// The texts that macros have by default.
fn defaults_in(alloc: Global, notes: &[FoundNote]) -> Result<Vec<DefaultText>, AllocError> {
    let mut defaults = Vec::new(alloc);
    for found in notes {
        if let Note::Takes(Some(parameter)) = &found.note
            && let Some(text) = &parameter.default
        {
            defaults.push(DefaultText {
                entry: found.register,
                register: parameter.register,
                text: text.as_slice().to_vec(alloc)?,
            })?;
        }
    }
    Ok(defaults)
}

// Gives an example of a macro the texts that it leaves out.
fn take_defaults(
    alloc: Global,
    example: &mut Example,
    entry: Reg,
    defaults: &[DefaultText],
) -> Result<(), AllocError> {
    for default in defaults {
        if default.entry.index() == entry.index() {
            example.take_default(alloc, default.register, &default.text)?;
        }
    }
    Ok(())
}

// Gives an example of a macro the policies that comments ask for, with its texts.
fn take_policies(
    alloc: Global,
    example: &mut Example,
    entry: Reg,
    comments: &[Comment],
    exact: bool,
) -> Result<(), AllocError> {
    for comment in comments {
        if comment.register.index() != entry.index() || !comment.text.starts_with(keeps::WORD) {
            continue;
        }
        let known = KnownTexts::Settings(&example.settings);
        if let Ok(policy) = keeps::read(alloc, &comment.text, exact, known)? {
            example.policies.push(policy)?;
        }
    }
    Ok(())
}

/// What the comments of a library say of its macros, by its text: those before the text of a register
/// and in it are about that register's macro. An example has the texts that its macro has by default,
/// and the policies that it keeps. Searches of policies treat case so: `exact`, or not.
pub fn notes_of(alloc: Global, library: &[u8], exact: bool) -> Result<Vec<FoundNote>, AllocError> {
    let comments = comments_of(alloc, library)?;
    let mut notes = bare_notes(alloc, &comments, exact)?;
    let defaults = defaults_in(alloc, &notes)?;
    for found in notes.iter_mut() {
        if let Note::Example(Some(example)) = &mut found.note {
            take_defaults(alloc, example, found.register, &defaults)?;
            take_policies(alloc, example, found.register, &comments, exact)?;
        }
    }
    Ok(notes)
}

// The example that is found of a macro, if that is one.
fn example_in(found: FoundNote, entry: Reg) -> Option<Example> {
    if found.register.index() != entry.index() {
        return None;
    }
    match found.note {
        Note::Example(example) => example,
        _ => None,
    }
}

/// An example of no text that a macro would have: with the texts of its first example, or with those
/// that it has by default, and the policies that it keeps with these.
pub fn prototype_of(
    alloc: Global,
    library: &[u8],
    entry: Reg,
    exact: bool,
) -> Result<Example, AllocError> {
    let notes = notes_of(alloc, library, exact)?;
    for found in notes {
        if let Some(example) = example_in(found, entry) {
            return Ok(example);
        }
    }
    let comments = comments_of(alloc, library)?;
    let mut example = Example::of(alloc, Vec::new(alloc), Vec::new(alloc));
    let notes = bare_notes(alloc, &comments, exact)?;
    let defaults = defaults_in(alloc, &notes)?;
    take_defaults(alloc, &mut example, entry, &defaults)?;
    take_policies(alloc, &mut example, entry, &comments, exact)?;
    Ok(example)
}
