//! What is read at a node, where it stands.
ghost use Rattle.std.specs.Prelude.{◌≡◌, ◌<◌, ◌≤◌, length, if◌then◌else◌};
ghost use Rattle.teco_verifier.specs.facts.Flows as flows;
ghost use Rattle.teco_verifier.specs.table.Behind as behind;
ghost use Rattle.teco_verifier.specs.table.Closed as closed;
ghost use Rattle.teco_facts.specs.Does.{Gives};
ghost use Rattle.teco_check.specs.Here.{edges_placed, element_of, node_at, placed_at};
ghost use Rattle.teco_check.specs.Kept.{AreKept};

use crate::behind::{goes_on, left_by, turns};
use crate::node::{colon, element, inside, names_macro};
use crate::transfer::{Edges, Placed, return_from, transfer_from};
use std::marker::Model;
use teco_expansion::Nodes;
use teco_facts::{FactFault, Facts};
use teco_model::kind::{Flow, Kind};

/// What is read at a node, where it stands. Nothing but the nodes decides that, so that one who
/// comes to a node many times reads it once.
#[derive(Drop)]
pub struct Here<'a> {
    // `None` at the end of a text
    placed: Option<Placed<'a>>,
}

impl<'a> Model for Here<'a> {
    ghost use Rattle.std.specs.Prelude.{◌≤◌, Option, option_map, length, IfSome};
    ghost use Rattle.teco_base.specs.declared.TheConstants.{LIMIT};
    ghost use Rattle.teco_verifier.specs.facts.Transfer as rules;
    ghost use Rattle.teco_check.specs.Placed.{seen};

    ghost Value = { Option rules.Placed };

    ghost view = { λ h. option_map seen h.placed };

    ghost invariant = { λ h. IfSome h.placed (λ p. (length p.element.text.now ≤ LIMIT)
        × (length p.element.second.now ≤ LIMIT)) };
}

impl<'a> Here<'a> {
    /// What is read at the node of a number.
    pub fn at(nodes: &Nodes<'a>, number: usize) -> Here<'a>
        requires one { 0 < number }
        requires last { number ≤ length nodes.now }
        ensures { result ≡ placed_at nodes.now (node_at nodes.now number) }
    {
        match element(nodes, number) {
            None => Here { placed: None },
            Some(element) => Here {
                placed: Some(Placed {
                    element,
                    library: names_macro(nodes, number),
                    inside: inside(nodes, number),
                    colon: colon(nodes, number),
                    leaves: left_by(nodes, number),
                }),
            },
        }
    }

    /// Whether it is a <.
    pub fn begins_iteration(&self) -> bool
        ensures { result ≡ closed.begins_iteration (element_of self.now) }
    {
        match &self.placed {
            None => false,
            Some(placed) => matches!(placed.element.kind, Kind::Flow(Flow::Iterate)),
        }
    }

    /// Whether a way begins a turn: the first of < and of >.
    #[tactic(auto, using(crate::proofs::Ways::begins_is))]
    pub fn begins_turn(&self, way: usize) -> bool
        ensures { result ≡ behind.begins_turn (element_of self.now) way }
    {
        match &self.placed {
            None => false,
            Some(placed) => way == 0 && turns(placed.element.kind),
        }
    }

    // Whether a way takes the edge that goes on.
    #[tactic(auto, using(crate::proofs::Ways::along_is))]
    fn takes_on(&self, way: usize) -> bool
        ensures { (edges : flows.Edges) → behind.along (element_of self.now) way edges
            ≡ (if result then edges.on else edges.away) }
    {
        match &self.placed {
            None => true,
            Some(placed) => goes_on(placed.element.kind, way == 0),
        }
    }

    /// Takes out what is known on a way.
    pub fn take_along(&self, way: usize, edges: &mut Edges) -> Option<Facts>
        ensures { result ≡ behind.along (element_of self.now) way edges.old }
    {
        if self.takes_on(way) {
            edges.on.take()
        } else {
            edges.away.take()
        }
    }

    /// What is known behind it, from what is known there, which is taken; if there is memory.
    pub fn edges(&self, facts: Facts) -> Result<Edges, FactFault>
        requires { AreKept facts }
        ensures { Gives (edges_placed self.now facts) result }
    {
        match &self.placed {
            None => Ok(return_from(facts)),
            Some(placed) => transfer_from(placed, facts),
        }
    }
}
