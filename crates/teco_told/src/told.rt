//! What is told of a macro.
ghost use Rattle.std.specs.Prelude.{◌≡◌, ◌<◌, ◌≤◌, length, option_map, Some, IfOk, IfSome, IsTrue};
ghost use Rattle.teco_law_changes.specs.Runs.{IsAmong, Tells};
ghost use Rattle.teco_law_changes.specs.Steps.{told_with};
ghost use Rattle.teco_told.specs.Growing.{Grows};
ghost use Rattle.teco_told.specs.Seen.{near_seen};
ghost use Rattle.teco_verifier.specs.expansion.Node.{Node, numbered};

use crate::element::changes_with;
use crate::firsts::some_gives_first;
use crate::list::add_all;
use crate::near::Nearby;
use crate::nearby::{known_near, near_before};
use crate::table::{before, known_before};
use std::alloc::{AllocError, Global};
use teco_changes::{Change, NumericArgument};
use teco_expansion::Nodes;

// What is known where an element is read: whether two arguments may be pending, its argument, and what is near.
#[derive(Clone, Copy)]
struct Before<'l> {
    ranged: bool,
    argument: NumericArgument,
    near: Nearby<'l>,
}

// What is told of a node.
fn told_at(
    alloc: Global,
    nodes: &Nodes<'_>,
    number: usize,
    known: Before<'_>,
) -> Result<Option<Vec<Change>>, AllocError>
    requires one { 0 < number }
    requires last { number ≤ length nodes.now }
    ensures { IfOk result (λ told. (node : Node) → numbered nodes.now number ≡ Some node
        → option_map (λ changes. changes.items) told
        ≡ told_with node.element known.entry.ranged known.entry.argument (near_seen known.entry.near)) }
{
    match nodes.element(number) {
        Some(element) => changes_with(alloc, &element, known.ranged, known.argument, known.near),
        None => Ok(Some(Vec::new(alloc))),
    }
}

// Adds what is told; `false` where nothing is.
#[tactic(auto, using(crate::proofs::Grown::stays))]
fn add_told(changes: &mut Vec<Change>, told: Option<Vec<Change>>) -> Result<bool, AllocError>
    ensures told { IfOk result (λ is. IsTrue is
        → IsAmong (option_map (λ some. some.items) told) changes.new.items) }
    ensures grows { Grows changes.old.items changes.new.items }
{
    match told {
        Some(told) => {
            add_all(changes, told)?;
            Ok(true)
        }
        None => Ok(false),
    }
}

/// What the elements of a macro can do to a text, each change once; `None` where of one nothing is told.
pub fn changes_of_macro(alloc: Global, nodes: &Nodes<'_>) -> Result<Option<Vec<Change>>, AllocError>
    ensures { IfOk result (λ told. IfSome told (λ changes. Tells nodes.now changes.items)) }
{
    let ranged = some_gives_first(nodes);
    let arguments = known_before(alloc, nodes)?;
    let near = known_near(alloc, nodes, arguments.as_slice())?;
    let mut changes = Vec::new(alloc);
    for passed in 0..nodes.len() {
        let argument = before(arguments.as_slice(), passed + 1);
        let nearby = near_before(near.as_slice(), passed + 1);
        let known = Before {
            ranged,
            argument,
            near: nearby,
        };
        let told = told_at(alloc, nodes, passed + 1, known)?;
        if !add_told(&mut changes, told)? {
            return Ok(None);
        }
    }
    Ok(Some(changes))
}
