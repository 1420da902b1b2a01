//! What is known of the numeric argument before each element of a macro.
ghost use Rattle.std.specs.Prelude.{◌≡◌, ◌<◌, ◌≤◌, ℕ, length, slice_get, Some, IfOk, IsTrue};
ghost use Rattle.teco_changes.specs.Arguments as model;
ghost use Rattle.teco_changes.specs.Arguments.{Implies};
ghost use Rattle.teco_law_changes.specs.Runs.{AreKnown};
ghost use Rattle.teco_told.specs.Table.{before_in};
ghost use Rattle.teco_verifier.specs.expansion.Node.{Node, numbered};

use crate::behind::behind_node;
use crate::implied::{implies, joined};
use std::alloc::{AllocError, Global};
use teco_changes::NumericArgument;
use teco_expansion::Nodes;

/// How often all ways are gone at most, until a table no longer changes.
pub(crate) const ROUNDS: usize = 64;

/// What is known before the element of a number.
#[tactic(auto, using(crate::proofs::Tables::entry))]
pub(crate) fn before(table: &[NumericArgument], number: usize) -> NumericArgument
    ensures { result ≡ before_in table.now number }
{
    if number == 0 {
        return NumericArgument::Unknown;
    }
    match table.get(number - 1) {
        Some(known) => *known,
        None => NumericArgument::Unknown,
    }
}

// Does what is known behind a node agree with what is known where its ways lead?
fn goes_on(nodes: &Nodes<'_>, number: usize, table: &[NumericArgument]) -> bool
    requires one { 0 < number }
    requires last { number ≤ length nodes.now }
    ensures { IsTrue result → (node : Node) (way target : ℕ) → numbered nodes.now number ≡ Some node
        → slice_get node.ways way ≡ Some target
        → Implies (model.behind node.element (before_in table.now number)) (before_in table.now target) }
{
    let known = behind_node(nodes, number, before(table, number));
    for at in 0..nodes.ways(number) {
        let Some(target) = nodes.way(number, at) else {
            return false;
        };
        if !implies(known, before(table, target)) {
            return false;
        }
    }
    true
}

// Is all that a table says known?
fn is_known(nodes: &Nodes<'_>, table: &[NumericArgument]) -> bool
    ensures { IsTrue result → AreKnown nodes.now (before_in table.now) }
{
    if !implies(NumericArgument::Complete, before(table, 1)) {
        return false;
    }
    for number in 0..nodes.len() {
        if !goes_on(nodes, number + 1, table) {
            return false;
        }
    }
    true
}

// Brings what is known behind a node to where its ways lead; is anything new?
fn bring(nodes: &Nodes<'_>, number: usize, table: &mut [NumericArgument]) -> bool
    requires one { 0 < number }
    requires last { number ≤ length nodes.now }
{
    let known = behind_node(nodes, number, before(table, number));
    let mut changed = false;
    for at in 0..nodes.ways(number) {
        let target = nodes.way(number, at).unwrap_or(0);
        let Some(entry) = table.get_mut(target.saturating_sub(1)) else {
            continue;
        };
        if !implies(known, *entry) {
            *entry = joined(*entry, known);
            changed = true;
        }
    }
    changed
}

// All ways once.
fn round(nodes: &Nodes<'_>, table: &mut [NumericArgument]) -> bool {
    let mut changed = false;
    for number in 0..nodes.len() {
        if bring(nodes, number + 1, table) {
            changed = true;
        }
    }
    changed
}

// What may be known, which is not trusted.
fn sought(alloc: Global, nodes: &Nodes<'_>) -> Result<Vec<NumericArgument>, AllocError> {
    let mut table = Vec::new(alloc);
    table.push(NumericArgument::Complete)?;
    for _ in 0..nodes.len() {
        table.push(NumericArgument::Unreached)?;
    }
    for _ in 0..ROUNDS {
        if !round(nodes, table.as_mut_slice()) {
            break;
        }
    }
    Ok(table)
}

/// What is known before each element.
#[tactic(auto, using(crate::proofs::Tables::nothing_known))]
pub(crate) fn known_before(
    alloc: Global,
    nodes: &Nodes<'_>,
) -> Result<Vec<NumericArgument>, AllocError>
    ensures { IfOk result (λ table. AreKnown nodes.now (before_in table.items)) }
{
    let table = sought(alloc, nodes)?;
    if is_known(nodes, table.as_slice()) {
        Ok(table)
    } else {
        Ok(Vec::new(alloc))
    }
}
