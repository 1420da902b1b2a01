//! What is known behind a node, on each of its ways.
ghost use Rattle.std.specs.Prelude.{◌≡◌, ◌<◌, ◌≤◌, length, get_or, option_map, option_copied, Some, if◌then◌else◌};
ghost use Rattle.teco_model.specs.Element as elements;
ghost use Rattle.teco_verifier.specs.facts.Flows as flows;
ghost use Rattle.teco_facts.specs.Does.{Gives};
ghost use Rattle.teco_verifier.specs.table.Behind as rules;
ghost use Rattle.teco_check.specs.Here.{node_at};
ghost use Rattle.teco_check.specs.Kept.{AreKept};
ghost use Rattle.teco_check.specs.Ways as ways;

use crate::here::Here;
use crate::node::{depth, way};
use crate::transfer::Edges;
use teco_expansion::Nodes;
use teco_facts::{FactFault, Facts};
use teco_model::Element;
use teco_model::kind::{Flow, Kind};

// How many iterations are open at a number; behind all nodes there is none.
#[tactic(auto, using(crate::proofs::Numbered::open_is, crate::proofs::Numbered::open_outside))]
fn open_at(nodes: &Nodes<'_>, number: usize) -> usize
    ensures { result ≡ rules.open_at nodes.now number }
{
    if number == 0 || number > nodes.len() {
        0
    } else {
        depth(nodes, number)
    }
}

// The number that the first way leads to.
#[tactic(auto, using(crate::proofs::Numbered::first_is))]
fn first_way(nodes: &Nodes<'_>, number: usize) -> usize
    requires one { 0 < number }
    requires last { number ≤ length nodes.now }
    ensures { result ≡ get_or (node_at nodes.now number).ways 0 0 }
{
    way(nodes, number, 0).unwrap_or(0)
}

/// How many iterations a jump there leaves.
pub fn left_by(nodes: &Nodes<'_>, number: usize) -> usize
    requires one { 0 < number }
    requires last { number ≤ length nodes.now }
    ensures { result ≡ rules.left_by nodes.now (node_at nodes.now number) }
{
    let after = open_at(nodes, first_way(nodes, number));
    depth(nodes, number).saturating_sub(after)
}

/// What is known behind it, if there is memory.
pub fn edges_at(nodes: &Nodes<'_>, number: usize, facts: &Facts) -> Result<Edges, FactFault>
    requires one { 0 < number }
    requires last { number ≤ length nodes.now }
    requires kept { AreKept facts.now }
    ensures { Gives (rules.edges_at nodes.now (node_at nodes.now number) facts.now) result }
{
    let known = facts.copied().map_err(|_| FactFault::Memory)?;
    Here::at(nodes, number).edges(known)
}

// Whether a way of an element of flow takes the edge that goes on.
fn goes_on_by_flow(flow: Flow, first: bool) -> bool
    ensures { result ≡ ways.goes_on_by_flow flow first }
{
    match flow {
        Flow::EndTurn => !first,
        Flow::Otherwise | Flow::GoTo | Flow::GoAhead(_) => false,
        _ => first,
    }
}

/// Whether execution may go on behind an element of this kind.
pub fn goes_on(kind: Kind, first: bool) -> bool
    ensures { result ≡ ways.goes_on kind first }
{
    match kind {
        Kind::Flow(flow) => goes_on_by_flow(flow, first),
        _ => first,
    }
}

// Whether a way takes the edge that goes on.
#[tactic(auto, using(crate::proofs::Ways::along_is))]
fn takes_on(read: &Option<Element<'_>>, way: usize) -> bool
    ensures { (edges : flows.Edges) → rules.along (option_map elements.seen read.now) way edges
        ≡ (if result then edges.on else edges.away) }
{
    match read {
        None => true,
        Some(element) => goes_on(element.kind, way == 0),
    }
}

/// What is known on a way.
pub fn along<'e>(read: &Option<Element<'_>>, way: usize, edges: &'e Edges) -> Option<&'e Facts>
    ensures { option_copied result ≡ rules.along (option_map elements.seen read.now) way edges.now }
{
    if takes_on(read, way) {
        edges.on.as_ref()
    } else {
        edges.away.as_ref()
    }
}

/// Whether an element begins turns: < and > do.
pub fn turns(kind: Kind) -> bool
    ensures { result ≡ ways.turns kind }
{
    matches!(kind, Kind::Flow(Flow::Iterate | Flow::EndTurn))
}

/// Whether a way begins a turn: the first of < and of >.
#[tactic(auto, using(crate::proofs::Ways::begins_is))]
pub fn begins_turn(read: &Option<Element<'_>>, way: usize) -> bool
    ensures { result ≡ rules.begins_turn (option_map elements.seen read.now) way }
{
    match read {
        Some(element) => way == 0 && turns(element.kind),
        None => false,
    }
}
