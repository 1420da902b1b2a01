//! The comments of a library, and the macros that they are about.
use std::alloc::{AllocError, Global};
use teco_base::Reg;
use teco_lex::element;
use teco_model::kind::{Command, Flow, Storage};
use teco_model::{Element, Kind};

/// A comment of a library.
#[derive(Drop)]
pub struct Comment {
    /// The register of the macro that it is about.
    pub register: Reg,
    /// The place in the library where it begins.
    pub place: usize,
    pub text: Vec<u8>,
}

// The comments that were found, and how many of them stand before a macro that has not come yet.
#[derive(Drop)]
struct FoundComments {
    alloc: Global,
    found: Vec<Comment>,
    waiting: usize,
}

// Is an element a comment?
fn is_comment(found: &Element<'_>) -> bool {
    matches!(found.kind, Kind::Flow(Flow::Comment))
}

// The register that an element gives a text, if it does.
fn register_given(found: &Element<'_>) -> Option<Reg> {
    match found.kind {
        Kind::Command(Command::Storage(Storage::SetText(register))) => Some(register),
        _ => None,
    }
}

// The element at a place of a text, if one can be read there.
fn element_at(text: &[u8], place: usize) -> Option<Element<'_>> {
    if place > text.len() {
        return None;
    }
    match element(text, place) {
        Ok(found) => found,
        Err(_) => None,
    }
}

impl FoundComments {
    // One more comment, in a text that begins at a place of the library.
    fn push(&mut self, found: &Element<'_>, register: Reg, begin: usize) -> Result<(), AllocError> {
        let mut text = Vec::new(self.alloc);
        text.extend_from_slice(found.text)?;
        self.found.push(Comment {
            register,
            place: begin.saturating_add(found.place),
            text,
        })?;
        Ok(())
    }

    // The comments in the text of a macro, which begins at a place of the library.
    fn push_inner(&mut self, text: &[u8], register: Reg, begin: usize) -> Result<(), AllocError> {
        let mut at = 0;
        for _ in 0..text.len() {
            let Some(found) = element_at(text, at) else {
                break;
            };
            if is_comment(&found) {
                self.push(&found, register, begin)?;
            }
            at = found.next;
        }
        Ok(())
    }

    // The macro of a register comes, which the comments are about that wait.
    fn name(&mut self, register: Reg) {
        let known = self.found.len().saturating_sub(self.waiting);
        for comment in self.found.iter_mut().skip(known) {
            comment.register = register;
        }
        self.waiting = 0;
    }

    // An element of the library.
    fn pass(&mut self, found: &Element<'_>) -> Result<(), AllocError> {
        if is_comment(found) {
            self.push(found, Reg::default(), 0)?;
            self.waiting = self.waiting.saturating_add(1);
        } else if let Some(register) = register_given(found) {
            self.name(register);
            let end = found.next.saturating_sub(1);
            let begin = end.saturating_sub(found.text.len());
            self.push_inner(found.text, register, begin)?;
        }
        Ok(())
    }
}

/// The comments of a library, by its text: those before the text of a register and in it are about
/// that register's macro, and those behind all macros about that of `A`.
pub fn comments_of(alloc: Global, library: &[u8]) -> Result<Vec<Comment>, AllocError> {
    let mut comments = FoundComments {
        alloc,
        found: Vec::new(alloc),
        waiting: 0,
    };
    let mut at = 0;
    for _ in 0..library.len() {
        let Some(found) = element_at(library, at) else {
            break;
        };
        comments.pass(&found)?;
        at = found.next;
    }
    Ok(comments.found)
}

// Adds the places where the elements of a text end that begins at a place of the library.
fn push_ends(ends: &mut Vec<usize>, text: &[u8], begin: usize) -> Result<(), AllocError> {
    let mut at = 0;
    for _ in 0..text.len() {
        let Some(found) = element_at(text, at) else {
            break;
        };
        at = found.next;
        ends.push(begin.saturating_add(at))?;
    }
    Ok(())
}

/// The places where the elements of a library end, one behind another; before the end of one that gives
/// a register its text stand those of the elements in that text.
pub fn ends_of(alloc: Global, library: &[u8]) -> Result<Vec<usize>, AllocError> {
    let mut ends = Vec::new(alloc);
    let mut at = 0;
    for _ in 0..library.len() {
        let Some(found) = element_at(library, at) else {
            break;
        };
        if register_given(&found).is_some() {
            let end = found.next.saturating_sub(1);
            push_ends(&mut ends, found.text, end.saturating_sub(found.text.len()))?;
        }
        at = found.next;
        ends.push(at)?;
    }
    Ok(ends)
}

/// What a library says of itself: its first comment, if it begins with one.
pub fn summary_of(library: &[u8]) -> Option<&[u8]> {
    let Some(found) = element_at(library, 0) else {
        return None;
    };
    if is_comment(&found) {
        Some(found.text)
    } else {
        None
    }
}
