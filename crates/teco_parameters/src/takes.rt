//! Parameters, as comments declare them.
use crate::comments::{Comment, comments_of};
use crate::parameter::Parameter;
use crate::spelling::spelled;
use std::alloc::{AllocError, AllocFailed, Global};
use teco_base::Reg;
use teco_base::bytes::{is_letter, is_letter_or_digit};

/// What comments begin with that declare parameters.
pub const WORD: &[u8] = b"TAKES";

/// What stands behind the name of a parameter that is a search text.
const SEARCH: &[u8] = b" as a search text";

/// Why the parameters of a macro are not known.
#[derive(Clone, Copy)]
pub enum TakesFault {
    /// The comment at this place begins as declarations do and declares no parameter.
    Unread(usize),
    /// The comment at this place declares a register or a name once more.
    Again(usize),
    /// A growth was refused.
    Memory,
}

impl From<AllocError> for TakesFault {
    fn from(_refused: AllocError) -> TakesFault {
        TakesFault::Memory
    }
}

impl<T: Drop> From<AllocFailed<T>> for TakesFault {
    fn from(_refused: AllocFailed<T>) -> TakesFault {
        TakesFault::Memory
    }
}

// What stands before the first place where a mark stands in a text, and behind it.
fn split_at_mark<'a>(text: &'a [u8], mark: &[u8]) -> Option<(&'a [u8], &'a [u8])> {
    for at in 0..text.len() {
        let (before, rest) = text.split_at(at);
        if let Some(behind) = rest.strip_prefix(mark) {
            return Some((before, behind));
        }
    }
    None
}

// Is it the name of a parameter: letters, digits and hyphens, two at least, and a letter first?
fn is_parameter_name(name: &[u8]) -> bool {
    match name {
        [first, _, ..] => {
            is_letter(*first)
                && name
                    .iter()
                    .all(|byte| is_letter_or_digit(*byte) || *byte == b'-')
        }
        _ => false,
    }
}

// What a text without an end is without it, and whether it had it.
fn without_end<'a>(text: &'a [u8], end: &[u8]) -> (&'a [u8], bool) {
    match text.strip_suffix(end) {
        Some(before) => (before, true),
        None => (text, false),
    }
}

// A text as a list of its own.
fn list_of(alloc: Global, text: &[u8]) -> Result<Vec<u8>, AllocError> {
    let mut list = Vec::new(alloc);
    list.extend_from_slice(text)?;
    Ok(list)
}

impl Parameter {
    // The parameter of a register, by what stands between the register's name and the meaning.
    fn of(
        alloc: Global,
        register: Reg,
        declared: &[u8],
        meaning: &[u8],
    ) -> Result<Option<Parameter>, AllocError> {
        let (declared, is_search) = without_end(declared, SEARCH);
        let (name, default) = match split_at_mark(declared, b"=") {
            Some((name, text)) => (name, spelled(alloc, text)?),
            None => (declared, None),
        };
        let is_declared = default.is_some() == declared.contains(&b'=');
        if !is_declared || !is_parameter_name(name) {
            return Ok(None);
        }
        Ok(Some(Parameter {
            register,
            name: list_of(alloc, name)?,
            default,
            is_search,
            meaning: list_of(alloc, meaning)?,
        }))
    }

    /// The parameter that a comment declares, as `TAKES N new=: the text in its place`; none where it
    /// declares none.
    pub fn read(alloc: Global, comment: &[u8]) -> Result<Option<Parameter>, AllocError> {
        let Some([b' ', letter, b' ', text @ ..]) = comment.strip_prefix(WORD) else {
            return Ok(None);
        };
        let Some((declared, meaning)) = split_at_mark(text, b": ") else {
            return Ok(None);
        };
        match Reg::of(*letter) {
            Some(register) => Parameter::of(alloc, register, declared, meaning),
            None => Ok(None),
        }
    }

    // Has another the same register, or the same name?
    fn is_like(&self, other: &Parameter) -> bool {
        self.register.index() == other.register.index() || self.name == other.name
    }
}

// The parameter that a comment declares, where others are declared before it.
fn read_behind(
    alloc: Global,
    comment: &Comment,
    declared: &[Parameter],
) -> Result<Parameter, TakesFault> {
    let Some(parameter) = Parameter::read(alloc, &comment.text)? else {
        return Err(TakesFault::Unread(comment.place));
    };
    if declared.iter().any(|other| parameter.is_like(other)) {
        return Err(TakesFault::Again(comment.place));
    }
    Ok(parameter)
}

/// The parameters of the macro of a register, by the text of its library, in the order in which the
/// comments declare them.
pub fn parameters_of(
    alloc: Global,
    library: &[u8],
    entry: Reg,
) -> Result<Vec<Parameter>, TakesFault> {
    let mut parameters = Vec::new(alloc);
    for comment in comments_of(alloc, library)? {
        if comment.register.index() == entry.index() && comment.text.starts_with(WORD) {
            let parameter = read_behind(alloc, &comment, &parameters)?;
            parameters.push(parameter)?;
        }
    }
    Ok(parameters)
}
