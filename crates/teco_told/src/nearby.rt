//! What is known near the pointer before each element of a macro.
ghost use Rattle.std.specs.Prelude.{◌≡◌, ◌<◌, ◌≤◌, ℕ, length, slice_get, Some, IfOk, IsTrue};
ghost use Rattle.teco_changes.specs.Nearby as model;
ghost use Rattle.teco_changes.specs.Nearby.{ImpliesNear};
ghost use Rattle.teco_law_changes.specs.Runs.{AreNear, colon_of};
ghost use Rattle.teco_told.specs.Seen.{near_in, near_seen};
ghost use Rattle.teco_told.specs.Table.{before_in};
ghost use Rattle.teco_verifier.specs.expansion.Node.{Node, numbered};

use crate::beyond::near_behind;
use crate::near::{Found, Nearby, implies_near, joined_near, no_characters};
use crate::table::{ROUNDS, before};
use std::alloc::{AllocError, Global};
use teco_changes::{NumericArgument, Pending};
use teco_expansion::Nodes;

/// What is known before the element of a number.
#[tactic(auto, using(crate::proofs::NearTables::entry))]
pub(crate) fn near_before<'l>(table: &[Nearby<'l>], number: usize) -> Nearby<'l>
    ensures { near_seen result ≡ near_in table.now number }
{
    if number == 0 {
        return Nearby::Known(Found::Nothing, Pending::Anything, no_characters());
    }
    match table.get(number - 1) {
        Some(near) => *near,
        None => Nearby::Known(Found::Nothing, Pending::Anything, no_characters()),
    }
}

// Does what is known behind a node agree with what is known where its ways lead?
fn goes_on_near<'l>(
    nodes: &Nodes<'l>,
    number: usize,
    arguments: &[NumericArgument],
    table: &[Nearby<'l>],
) -> bool
    requires one { 0 < number }
    requires last { number ≤ length nodes.now }
    ensures { IsTrue result → (node : Node) (way target : ℕ) → numbered nodes.now number ≡ Some node
        → slice_get node.ways way ≡ Some target
        → ImpliesNear (model.near_behind node.element (colon_of node) way (before_in arguments.now number)
        (near_in table.now number)) (near_in table.now target) }
{
    let argument = before(arguments, number);
    let near = near_before(table, number);
    for at in 0..nodes.ways(number) {
        let Some(target) = nodes.way(number, at) else {
            return false;
        };
        let behind = near_behind(nodes, number, at, argument, near);
        let there = near_before(table, target);
        if !implies_near(behind, there) {
            return false;
        }
    }
    true
}

// Is all that a table says known?
fn is_near<'l>(nodes: &Nodes<'l>, arguments: &[NumericArgument], table: &[Nearby<'l>]) -> bool
    ensures { IsTrue result → AreNear nodes.now (before_in arguments.now) (near_in table.now) }
{
    let nothing = Nearby::Known(Found::Nothing, Pending::Anything, no_characters());
    let first = near_before(table, 1);
    if !implies_near(nothing, first) {
        return false;
    }
    for number in 0..nodes.len() {
        if !goes_on_near(nodes, number + 1, arguments, table) {
            return false;
        }
    }
    true
}

// Brings what is known behind a node to where its ways lead; is anything new?
fn bring<'l>(
    nodes: &Nodes<'l>,
    number: usize,
    arguments: &[NumericArgument],
    table: &mut [Nearby<'l>],
) -> bool
    requires one { 0 < number }
    requires last { number ≤ length nodes.now }
{
    let argument = before(arguments, number);
    let near = near_before(table, number);
    let mut changed = false;
    for at in 0..nodes.ways(number) {
        let behind = near_behind(nodes, number, at, argument, near);
        let target = nodes.way(number, at).unwrap_or(0);
        let Some(entry) = table.get_mut(target.saturating_sub(1)) else {
            continue;
        };
        if !implies_near(behind, *entry) {
            *entry = joined_near(*entry, behind);
            changed = true;
        }
    }
    changed
}

// All ways once.
fn round<'l>(nodes: &Nodes<'l>, arguments: &[NumericArgument], table: &mut [Nearby<'l>]) -> bool {
    let mut changed = false;
    for number in 0..nodes.len() {
        if bring(nodes, number + 1, arguments, table) {
            changed = true;
        }
    }
    changed
}

// What may be known, which is not trusted.
fn sought<'l>(
    alloc: Global,
    nodes: &Nodes<'l>,
    arguments: &[NumericArgument],
) -> Result<Vec<Nearby<'l>>, AllocError> {
    let mut table = Vec::new(alloc);
    table.push(Nearby::Known(Found::Nothing, Pending::Anything, no_characters()))?;
    for _ in 0..nodes.len() {
        table.push(Nearby::Unreached)?;
    }
    for _ in 0..ROUNDS {
        if !round(nodes, arguments, table.as_mut_slice()) {
            break;
        }
    }
    Ok(table)
}

/// What is known near the pointer before each element, with what is known of its argument.
#[tactic(auto, using(crate::proofs::NearTables::nothing_near))]
pub(crate) fn known_near<'l>(
    alloc: Global,
    nodes: &Nodes<'l>,
    arguments: &[NumericArgument],
) -> Result<Vec<Nearby<'l>>, AllocError>
    ensures { IfOk result (λ table. AreNear nodes.now (before_in arguments.now) (near_in table.items)) }
{
    let table = sought(alloc, nodes, arguments)?;
    if is_near(nodes, arguments, table.as_slice()) {
        Ok(table)
    } else {
        Ok(Vec::new(alloc))
    }
}
