//! What is told of the macro of a promise.
ghost use Rattle.std.specs.Prelude.{IfOk, IfSome};
ghost use Rattle.teco_law_changes.specs.Runs.{TellsOf};

use crate::told::changes_of_macro;
use std::alloc::{AllocError, Global};
use teco_changes::Change;
use teco_expansion::{ExpandFault, expand};
use teco_promise::Promise;

/// What the macro of a promise can do to a text, each change once; `None` where of an element nothing is
/// told.
pub fn changes_of_promise(
    alloc: Global,
    promise: &Promise<'_>,
) -> Result<Option<Vec<Change>>, AllocError>
    ensures { IfOk result (λ told. IfSome told (λ changes.
        TellsOf promise.now.library promise.now.entry changes.items)) }
{
    match expand(alloc, promise.library(), promise.entry()) {
        Ok(nodes) => changes_of_macro(alloc, &nodes),
        Err(ExpandFault::Refused(_)) => Ok(None),
        Err(ExpandFault::Memory) => Err(AllocError),
    }
}
