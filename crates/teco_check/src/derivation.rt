//! A table that is derived in one pass over the nodes, where what is chosen for the iterations is
//! given.
ghost use Rattle.std.specs.Prelude.{◌≡◌, ◌-◌, ◌<◌, ◌≤◌, length, replicate, option_map, option_copied, slice_index_or};
ghost use Rattle.std.specs.Prelude.{IfOk, OnOk, None, Some, Ok, false};
ghost use Rattle.std.specs.List.{AllByRecursion, list_any};
ghost use Rattle.teco_model.specs.Element as elements;
ghost use Rattle.teco_verifier.specs.table.Deriving as rules;
ghost use Rattle.teco_verifier.specs.table.Written as writing;
ghost use Rattle.teco_verifier.specs.facts.Argument as given;
ghost use Rattle.teco_check.specs.Derived.{arrived_all, arrived_at, known_of, Derives, DerivesFrom, DerivesRow};
ghost use Rattle.teco_check.specs.Derived.{DerivesUpTo, IsLargeBy, IsNotLarge};
ghost use Rattle.teco_check.specs.Here.{node_at};
ghost use Rattle.teco_check.specs.Kept.{RowIsKept};
ghost use Rattle.teco_verifier.specs.table.Loops.{begins};

use crate::arrived::Arrived;
use crate::behind::{along, begins_turn, edges_at};
use crate::bodies::begins_iteration;
use crate::chosen::choice_for;
use crate::iterations::changes_in;
use crate::node::{element, way, ways};
use crate::table::{Row, Table, are_kept};
use crate::transfer::Edges;
use std::alloc::{AllocError, Global};
use teco_expansion::Nodes;
use teco_facts::{Choice, FactFault, Facts, body_start};
use teco_model::{ArgumentRange, Element};
use teco_verifier::{LoopLine, RefusalReason};

/// Why no table is derived.
#[derive(Clone, Copy)]
pub enum NotDerived {
    /// The rules refuse what is known at the node of this number, or behind it.
    Refused { why: RefusalReason, node: usize },
    /// At the node of this number a fall is larger, or more iterations are open, than a table may
    /// have.
    Large { node: usize },
    /// A growth was refused.
    Memory,
}

// At each node of a number that this divides, what is known is packed.
const SPAN: usize = 128;

// What is known at a node, which is packed now and then, if there is memory. Else what was pushed,
// one pair at a node each, would lie as far apart as all that is known at these nodes, and
// comparing it at each node would take long.
fn packed_at(number: usize, facts: Facts) -> Result<Facts, AllocError>
    ensures { IfOk result (λ packed. packed ≡ facts) }
{
    if number % SPAN == 0 {
        facts.packed()
    } else {
        Ok(facts)
    }
}

// The facts once more, if there are any and there is memory.
fn copied(facts: Option<&Facts>) -> Result<Option<Facts>, AllocError>
    ensures { IfOk result (λ copy. copy ≡ option_copied facts.entry) }
{
    match facts {
        None => Ok(None),
        Some(facts) => {
            let copy = facts.copied()?;
            Ok(Some(copy))
        }
    }
}

// What is chosen for the node of a number, if it begins an iteration.
#[derive(Drop)]
struct Chosen {
    number: usize,
    choice: Option<Choice>,
}

// The facts at the start of a body, where there is a choice for it and it is entered, if there is
// memory.
fn start_of_body(
    nodes: &Nodes<'_>,
    chosen: &Chosen,
    entering: Option<Facts>,
) -> Result<Option<Facts>, AllocError>
    ensures { IfOk result (λ start. start ≡ rules.start_of_body
        (writing.changes_in nodes.now chosen.now.number) chosen.now.choice entering) }
{
    let Some(choice) = &chosen.choice else {
        return Ok(None);
    };
    match entering {
        None => Ok(None),
        Some(entering) => {
            let start = body_start(choice, &changes_in(nodes, chosen.number), entering)?;
            Ok(Some(start))
        }
    }
}

// What arrives on a way, if there is memory. The way into a body leads to its start, and the way
// back to what was derived already.
#[tactic(auto, using(crate::proofs::Ways::arriving_is))]
fn arriving(
    nodes: &Nodes<'_>,
    chosen: &Chosen,
    read: &Option<Element<'_>>,
    way: usize,
    edges: &Edges,
) -> Result<Option<Facts>, AllocError>
    ensures { IfOk result (λ facts. facts
        ≡ rules.arriving (writing.changes_in nodes.now chosen.now.number) chosen.now.choice
        (option_map elements.seen read.now) way edges.now) }
{
    let begins = begins_turn(read, way);
    if begins && !begins_iteration(read) {
        return Ok(None);
    }
    let facts = copied(along(read, way, edges))?;
    if begins {
        start_of_body(nodes, chosen, facts)
    } else {
        Ok(facts)
    }
}

// The edges behind a node arrive, if there is memory.
fn arrive_behind(
    nodes: &Nodes<'_>,
    chosen: &Chosen,
    edges: &Edges,
    arrived: &mut Arrived,
) -> Result<(), AllocError>
    requires one { 0 < chosen.now.number }
    requires last { chosen.now.number ≤ length nodes.now }
    ensures { let node = node_at nodes.now chosen.now.number in
        OnOk result (arrived.new ≡ arrived_all
        (rules.arrivals_behind (writing.changes_in nodes.now chosen.now.number)
        chosen.now.choice node.element 0 node.ways edges.now)
        arrived.old) }
{
    let number = chosen.number;
    let read = element(nodes, number);
    for at in 0..ways(nodes, number) {
        if let Some(target) = way(nodes, number, at) {
            if let Some(facts) = arriving(nodes, chosen, &read, at, edges)? {
                arrived.put(target, facts)?;
            }
        }
    }
    Ok(())
}

// The row of a node that is reached.
fn row_reached(
    nodes: &Nodes<'_>,
    lines: &[LoopLine],
    number: usize,
    facts: Facts,
    arrived: &mut Arrived,
) -> Result<Row, NotDerived>
    requires one { 0 < number }
    requires last { number ≤ length nodes.now }
    ensures value { DerivesRow number (rules.derived_at nodes.now lines.now number
        (node_at nodes.now number) (Some facts)) arrived.old arrived.new result }
    ensures large { IsLargeBy (Some facts) result }
    ensures kept { IfOk result RowIsKept }
{
    if !are_kept(&facts) {
        return Err(NotDerived::Large { node: number });
    }
    let edges = match edges_at(nodes, number, &facts) {
        Ok(edges) => edges,
        Err(FactFault::Refused(why)) => return Err(NotDerived::Refused { why, node: number }),
        Err(FactFault::Memory) => return Err(NotDerived::Memory),
    };
    let choice = choice_for(number, lines, &facts);
    let chosen = Chosen { number, choice };
    match arrive_behind(nodes, &chosen, &edges, arrived) {
        Ok(()) => Ok(Row::of(Some(facts), chosen.choice)),
        Err(_) => Err(NotDerived::Memory),
    }
}

// The row of a node, from what arrived there.
fn row_of(
    nodes: &Nodes<'_>,
    chosen: &[LoopLine],
    number: usize,
    known: Option<Facts>,
    arrived: &mut Arrived,
) -> Result<Row, NotDerived>
    requires one { 0 < number }
    requires last { number ≤ length nodes.now }
    ensures value { DerivesRow number (rules.derived_at nodes.now chosen.now number
        (node_at nodes.now number) known) arrived.old arrived.new result }
    ensures large { IsLargeBy known result }
    ensures kept { IfOk result RowIsKept }
{
    match known {
        None => Ok(Row::of(None, None)),
        Some(facts) => match packed_at(number, facts) {
            Ok(facts) => row_reached(nodes, chosen, number, facts, arrived),
            Err(_) => Err(NotDerived::Memory),
        },
    }
}

// The row of a node.
fn row_at(
    nodes: &Nodes<'_>,
    chosen: &[LoopLine],
    number: usize,
    arrived: &mut Arrived,
) -> Result<Row, NotDerived>
    requires one { 0 < number }
    requires last { number ≤ length nodes.now }
    requires all { length arrived.old ≡ length nodes.now }
    ensures value { DerivesFrom nodes.now chosen.now number arrived.old arrived.new result }
    ensures large { IsLargeBy (known_of (slice_index_or arrived.old (number - 1) (Ok None)))
        result }
    ensures kept { IfOk result RowIsKept }
{
    match arrived.take(number) {
        Ok(known) => row_of(nodes, chosen, number, known, arrived),
        Err(why) => Err(NotDerived::Refused { why, node: number }),
    }
}

// Nothing but what is known at the entry has arrived at so many nodes, if there is memory.
fn begun(
    alloc: Global,
    argument: Option<ArgumentRange>,
    count: usize,
) -> Result<Arrived, AllocError>
    ensures { IfOk result (λ arrived. arrived ≡ arrived_at 1 (given.facts_given argument) (replicate
        count (Ok None))) }
{
    let mut arrived = Arrived::new(alloc, count)?;
    arrived.put(1, Facts::entry(alloc, argument)?)?;
    Ok(arrived)
}

/// The table that is derived with these choices, for the argument of the entry. It takes
/// time by the nodes and registers, and where ways meet by the pairs that were pushed since the
/// entry.
pub fn derive(
    alloc: Global,
    argument: Option<ArgumentRange>,
    nodes: &Nodes<'_>,
    chosen: &[LoopLine],
) -> Result<Table, NotDerived>
    ensures value { Derives (rules.derive argument nodes.now chosen.now) result }
    ensures told { DerivesUpTo argument nodes.now chosen.now result }
    ensures small { list_any begins nodes.now ≡ false → IsNotLarge result }
    ensures kept { IfOk result (AllByRecursion RowIsKept) }
{
    let Ok(mut arrived) = begun(alloc, argument, nodes.len()) else {
        return Err(NotDerived::Memory);
    };
    let mut table = Table::new(alloc);
    for at in 0..nodes.len() {
        let row = row_at(nodes, chosen, at + 1, &mut arrived)?;
        match table.push(row) {
            Ok(()) => {}
            Err(_) => return Err(NotDerived::Memory),
        }
    }
    Ok(table)
}
