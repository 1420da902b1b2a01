//! What is told of a macro at once.
ghost use Rattle.std.specs.Prelude.{◌≡◌, IfOk};
ghost use Rattle.teco_law_changes.specs.Runs.{TellsOf};
ghost use Rattle.teco_told.specs.Facts.{HoldOf, nothing_told};

use crate::promised::changes_of_promise;
use std::alloc::{AllocError, Global};
use teco_change_policies::Facts;
use teco_changes::Change;
use teco_promise::Promise;

// Facts that tell nothing.
fn nothing_told() -> Facts
    ensures { result ≡ nothing_told }
{
    Facts {
        adds_nothing: false,
        takes_nothing: false,
        keeps_line_ends: false,
        keeps_lines: false,
        puts_only: None,
        takes_only: None,
        changes_only_with: None,
        leaves_lines_without: None,
    }
}

// What is known where these changes are told of a macro.
#[tactic(auto, using(crate::proofs::Holding::known_hold))]
fn known_of(alloc: Global, promise: &Promise<'_>, changes: &[Change]) -> Result<Facts, AllocError>
    requires { TellsOf promise.now.library promise.now.entry changes.now }
    ensures { IfOk result (HoldOf promise.now) }
{
    Facts::of(alloc, changes)
}

/// What is known of each text that the macro of a promise leaves.
#[tactic(auto, using(crate::proofs::Holding::nothing_holds))]
pub fn facts_of_promise(alloc: Global, promise: &Promise<'_>) -> Result<Facts, AllocError>
    ensures { IfOk result (HoldOf promise.now) }
{
    match changes_of_promise(alloc, promise)? {
        Some(changes) => known_of(alloc, promise, &changes),
        None => Ok(nothing_told()),
    }
}
