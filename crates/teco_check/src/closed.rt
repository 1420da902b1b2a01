//! When a table is closed: what it says at each node follows from what it says at the others.
ghost use Rattle.std.specs.Prelude.{◌≡◌, ◌<◌, ◌≤◌, ◌||◌, length, option_map, option_copied, IfOk, Some, None, Ok};
ghost use Rattle.teco_model.specs.Element as elements;
ghost use Rattle.teco_verifier.specs.table.Behind as behind;
ghost use Rattle.teco_verifier.specs.table.Closed as rules;
ghost use Rattle.teco_check.specs.Here.{node_at};
ghost use Rattle.teco_check.specs.Kept.{AreKept};
ghost use Rattle.teco_check.specs.Known.{known_since};
ghost use Rattle.teco_check.specs.Onward.{onward};
ghost use Rattle.teco_check.specs.Says.{IsBadAt, Says, SaysAt};

use crate::bad::Bad;
use crate::behind::{along, begins_turn, edges_at};
use crate::bodies::{begins_iteration, is_entered};
use crate::node::{element, iteration, way, ways};
use crate::same::{is_covered, is_entry};
use crate::table::Table;
use crate::transfer::Edges;
use std::alloc::{AllocError, Global};
use teco_expansion::Nodes;
use teco_facts::{FactFault, Facts};
use teco_model::{ArgumentRange, Element};

// Whether an edge is covered where it leads. Behind all nodes nothing is known; the return of the
// entry alone leads there.
fn arrives(
    nodes: &Nodes<'_>,
    table: &Table,
    read: &Option<Element<'_>>,
    target: usize,
    edge: Option<&Facts>,
) -> bool
    ensures { result ≡ rules.arrives nodes.now table.now (option_map elements.seen read.now)
        target (option_copied edge.entry) }
{
    match edge {
        None => true,
        Some(edge) => {
            if nodes.len() < target {
                read.is_none()
            } else {
                is_covered(table.facts(target), edge)
            }
        }
    }
}

// What is known on a way that begins no turn.
fn onward<'e>(read: &Option<Element<'_>>, way: usize, edges: &'e Edges) -> Option<&'e Facts>
    ensures { option_copied result ≡ onward (option_map elements.seen read.now) way edges.now }
{
    if begins_turn(read, way) {
        None
    } else {
        along(read, way, edges)
    }
}

// Does each way of a node arrive?
fn arrive(
    nodes: &Nodes<'_>,
    table: &Table,
    number: usize,
    read: &Option<Element<'_>>,
    edges: &Edges,
) -> bool
    requires one { 0 < number }
    requires last { number ≤ length nodes.now }
    ensures { result ≡ rules.arrive nodes.now table.now (option_map elements.seen read.now)
        edges.now 0 (node_at nodes.now number).ways }
{
    for at in 0..ways(nodes, number) {
        if let Some(target) = way(nodes, number, at) {
            if !arrives(nodes, table, read, target, onward(read, at, edges)) {
                return false;
            }
        }
    }
    true
}

// Whether what enters a node's body is so, and its ways arrive; told if there is memory.
fn closed_behind(
    nodes: &Nodes<'_>,
    table: &Table,
    number: usize,
    facts: &Facts,
    edges: Edges,
) -> Result<bool, AllocError>
    requires one { 0 < number }
    requires last { number ≤ length nodes.now }
    ensures { IfOk result (λ yes. yes ≡ rules.closed_behind nodes.now table.now number
        (node_at nodes.now number) facts.now (Ok edges)) }
{
    let read = element(nodes, number);
    let arrive = arrive(nodes, table, number, &read, &edges);
    let entered = !begins_iteration(&read) || is_entered(nodes, table, number, facts, edges.on)?;
    Ok(entered && arrive)
}

// Whether what is known at a node is known of the iterations that are open there.
#[tactic(auto, using(crate::proofs::Numbered::known_none, crate::proofs::Numbered::known_some))]
fn is_known(nodes: &Nodes<'_>, table: &Table, number: usize, facts: &Facts) -> bool
    requires one { 0 < number }
    requires last { number ≤ length nodes.now }
    ensures { result ≡ rules.is_known_in table.now
        (node_at nodes.now number).stand.iterations facts.now }
{
    match iteration(nodes, number, 0) {
        None => facts.open() == 0,
        Some(begin) => is_known_since(table, begin, facts),
    }
}

// Whether it is known of those at the start of a body.
fn is_known_since(table: &Table, begin: usize, facts: &Facts) -> bool
    ensures { result ≡ known_since table.now begin facts.now }
{
    match table.facts_behind(begin) {
        None => false,
        Some(start) => start.has_iterations_of(facts),
    }
}

// Whether a node that is reached is closed.
fn check_reached(nodes: &Nodes<'_>, table: &Table, number: usize, facts: &Facts) -> Result<(), Bad>
    requires one { 0 < number }
    requires last { number ≤ length nodes.now }
    requires kept { AreKept facts.now }
    ensures { SaysAt number (rules.closed_where nodes.now table.now number
        (node_at nodes.now number) (Some facts.now)) result }
{
    if !is_known(nodes, table, number, facts) {
        return Err(Bad::Edge { node: number });
    }
    match edges_at(nodes, number, facts) {
        Ok(edges) => match closed_behind(nodes, table, number, facts, edges) {
            Ok(true) => Ok(()),
            Ok(false) => Err(Bad::Edge { node: number }),
            Err(_) => Err(Bad::Memory),
        },
        Err(FactFault::Refused(_)) => Err(Bad::Edge { node: number }),
        Err(FactFault::Memory) => Err(Bad::Memory),
    }
}

// Whether nothing is known behind a < that is not reached.
fn is_unknown(nodes: &Nodes<'_>, table: &Table, number: usize) -> bool
    requires one { 0 < number }
    requires last { number ≤ length nodes.now }
    ensures { result ≡ rules.closed_where nodes.now table.now
        number (node_at nodes.now number) None }
{
    !begins_iteration(&element(nodes, number)) || table.facts_behind(number).is_none()
}

// Whether a node is closed.
fn check_at(nodes: &Nodes<'_>, table: &Table, number: usize) -> Result<(), Bad>
    requires one { 0 < number }
    requires last { number ≤ length nodes.now }
    ensures { SaysAt number (rules.closed_at nodes.now table.now number (node_at nodes.now number))
        result }
{
    match table.facts(number) {
        Some(facts) => check_reached(nodes, table, number, facts),
        None => {
            if is_unknown(nodes, table, number) {
                Ok(())
            } else {
                Err(Bad::Edge { node: number })
            }
        }
    }
}

/// Whether a table is closed for the argument of the entry; or else the number of the first node at
/// which a condition fails. It takes time by the nodes and registers, and at each node by the pairs
/// that were pushed since the entry and the parentheses that are open.
pub fn check(
    alloc: Global,
    argument: Option<ArgumentRange>,
    nodes: &Nodes<'_>,
    table: &Table,
) -> Result<(), Bad>
    ensures value { Says (rules.check argument nodes.now table.now) result }
    ensures told { 0 < length nodes.now → IsBadAt nodes.now result }
{
    let Ok(begins) = is_entry(alloc, argument, table.facts(1)) else {
        return Err(Bad::Memory);
    };
    if !begins {
        return Err(Bad::Edge { node: 1 });
    }
    for at in 0..nodes.len() {
        check_at(nodes, table, at + 1)?;
    }
    Ok(())
}
