//! What is told of changes at once.
ghost use Rattle.std.specs.Prelude.{IfOk, IfSome};
ghost use Rattle.teco_change_policies.specs.Facts.{AreTrue};
ghost use Rattle.teco_change_policies.specs.Laws.{AlwaysKeep, LeaveOthers, others};
ghost use Rattle.teco_policy.specs.declared.policy.Policy.TheVariants as policy;

use crate::following::{always_keep, keeps_others, leaves_others};
use crate::gathered::{characters_put, characters_taken};
use crate::laws::{line_ends_are_kept, only_these_are_added, only_these_are_taken};
use crate::manner::{Manner, is_each};
use crate::sought::search_texts;
use std::alloc::{AllocError, Global};
use teco_changes::{Change, Text};
use teco_policy::Policy;

/// What is known of every text that the changes of a macro leave.
#[derive(Drop)]
pub struct Facts {
    /// Nothing is put.
    pub adds_nothing: bool,
    /// Nothing is taken.
    pub takes_nothing: bool,
    /// The line ends stay as they are, in turn.
    pub keeps_line_ends: bool,
    /// There are as many lines as before, and each ends alike.
    pub keeps_lines: bool,
    /// The characters that can be put, in rising order, where they are known.
    pub puts_only: Option<Vec<u8>>,
    /// The characters that can be taken, in rising order, where they are known.
    pub takes_only: Option<Vec<u8>>,
    /// A search text without which a line stays as it is, in either case.
    pub changes_only_with: Option<Vec<u8>>,
    /// Search texts: a line without a match of one of them, in either case, stays as it is, though a last
    /// line without a line end may come or go.
    pub leaves_lines_without: Option<Vec<Text>>,
}

// The characters that can be put.
fn puts_only(alloc: Global, changes: &[Change]) -> Result<Option<Vec<u8>>, AllocError>
    ensures { IfOk result (λ told. IfSome told (λ characters. AlwaysKeep changes.now (policy.AddOnly characters))) }
{
    only_these_are_added();
    let characters = characters_put(alloc, changes)?;
    if !is_each(Manner::PutsOnly(characters.as_slice()), changes) {
        return Ok(None);
    }
    Ok(Some(characters))
}

// The characters that can be taken.
fn takes_only(alloc: Global, changes: &[Change]) -> Result<Option<Vec<u8>>, AllocError>
    ensures { IfOk result (λ told. IfSome told (λ characters. AlwaysKeep changes.now (policy.TakeOnly characters))) }
{
    only_these_are_taken();
    let characters = characters_taken(alloc, changes)?;
    if !is_each(Manner::TakesOnly(characters.as_slice()), changes) {
        return Ok(None);
    }
    Ok(Some(characters))
}

// The search text that all changes swap the matches of.
fn changes_only_with(alloc: Global, changes: &[Change]) -> Result<Option<Vec<u8>>, AllocError>
    ensures { IfOk result (λ told. IfSome told (λ wanted. AlwaysKeep changes.now (others wanted.items))) }
{
    let Some(Change::Swaps(wanted, _)) = changes.first() else {
        return Ok(None);
    };
    let wanted = wanted.as_slice();
    if !keeps_others(changes, wanted) {
        return Ok(None);
    }
    let mut kept = Vec::new(alloc);
    kept.extend_from_slice(wanted)?;
    Ok(Some(kept))
}

// The search texts that all changes take matches of.
fn leaves_lines_without(alloc: Global, changes: &[Change]) -> Result<Option<Vec<Text>>, AllocError>
    ensures { IfOk result (λ told. IfSome told (λ wanted. LeaveOthers changes.now wanted.items)) }
{
    let wanted = search_texts(alloc, changes)?;
    if wanted.is_empty() || !leaves_others(changes, wanted.as_slice()) {
        return Ok(None);
    }
    Ok(Some(wanted))
}

impl Facts {
    /// What is known of changes.
    pub fn of(alloc: Global, changes: &[Change]) -> Result<Facts, AllocError>
        ensures { IfOk result (λ facts. AreTrue changes.now facts) }
    {
        line_ends_are_kept();
        let puts_only = puts_only(alloc, changes)?;
        let takes_only = takes_only(alloc, changes)?;
        let changes_only_with = changes_only_with(alloc, changes)?;
        let leaves_lines_without = leaves_lines_without(alloc, changes)?;
        Ok(Facts {
            adds_nothing: always_keep(changes, &Policy::AddNothing),
            takes_nothing: always_keep(changes, &Policy::KeepText),
            keeps_line_ends: is_each(Manner::KeepsLineEnds, changes),
            keeps_lines: always_keep(changes, &Policy::KeepLines),
            puts_only,
            takes_only,
            changes_only_with,
            leaves_lines_without,
        })
    }
}
