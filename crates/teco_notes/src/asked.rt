//! The policies that a library asks for.
use crate::keeps;
use crate::naming::KnownTexts;
use std::alloc::{AllocError, AllocFailed, Global};
use teco_base::Reg;
use teco_console::Setting;
use teco_parameters::{Comment, comments_of};
use teco_policy::{Policy, PolicyRefusal};

/// Why the policies of a macro are not known.
#[derive(Clone, Copy)]
pub enum AskingFault {
    /// A comment is meant to ask for one and asks for none: its place in the text of the library's
    /// source, and why.
    Unread {
        place: usize,
        refusal: PolicyRefusal,
    },
    /// A growth was refused.
    Memory,
}

impl From<AllocError> for AskingFault {
    fn from(_refused: AllocError) -> AskingFault {
        AskingFault::Memory
    }
}

impl<T: Drop> From<AllocFailed<T>> for AskingFault {
    fn from(_refused: AllocFailed<T>) -> AskingFault {
        AskingFault::Memory
    }
}

// The policy that a comment asks for, with the texts that registers have.
fn policy_of(
    alloc: Global,
    comment: &Comment,
    exact: bool,
    settings: &[Setting],
) -> Result<Policy, AskingFault> {
    let known = KnownTexts::Settings(settings);
    match keeps::read(alloc, &comment.text, exact, known)? {
        Ok(policy) => Ok(policy),
        Err(refusal) => Err(AskingFault::Unread {
            place: comment.place,
            refusal,
        }),
    }
}

/// The policies that the comments of a library ask for, by its text, where the macro of a register is
/// run by itself and registers have these texts.
pub fn policies_of(
    alloc: Global,
    library: &[u8],
    entry: Reg,
    exact: bool,
    settings: &[Setting],
) -> Result<Vec<Policy>, AskingFault> {
    let mut policies = Vec::new(alloc);
    for comment in comments_of(alloc, library)? {
        if comment.register.index() == entry.index() && comment.text.starts_with(keeps::WORD) {
            let policy = policy_of(alloc, &comment, exact, settings)?;
            policies.push(policy)?;
        }
    }
    Ok(policies)
}
