//! The nodes that a pass goes over, and what is read at each.
ghost use Rattle.std.specs.Prelude.{◌≡◌, ◌<◌, ◌≤◌, length, IfOk};

use std::alloc::{AllocError, Global};
use std::marker::Model;
use teco_check::Here;
use teco_expansion::Nodes;

// How many ways a node has at the most.
const WAYS: usize = 2;

// What is read at a node, and the numbers of the nodes that its ways lead to.
#[derive(Drop)]
struct NodeReading<'a> {
    here: Here<'a>,
    ways: [Option<usize>; WAYS],
}

/// The nodes, and what is read at each, since a pass may come to a node some hundred times. A node
/// takes much memory, so the little that each pass needs of them lies together.
#[derive(Drop)]
pub struct ReadNodes<'n, 'a> {
    pub nodes: &'n Nodes<'a>,
    stops: Vec<NodeReading<'a>>,
}

impl<'n, 'a> Model for ReadNodes<'n, 'a> {
    ghost use Rattle.std.specs.Prelude.{◌≡◌, List, length};
    ghost use Rattle.teco_verifier.specs.expansion.Node.{Node};

    ghost Value = { List Node };

    ghost view = { λ c. c.nodes.now };

    ghost invariant = { λ c. length c.stops.items ≡ length c.nodes.now };
}

impl<'n, 'a> ReadNodes<'n, 'a> {
    /// Reads each node, if there is memory.
    pub fn new(alloc: Global, nodes: &'n Nodes<'a>) -> Result<ReadNodes<'n, 'a>, AllocError>
        ensures { IfOk result (λ course. course ≡ nodes.now) }
    {
        let mut stops = Vec::new(alloc);
        for at in 0..nodes.len() {
            stops.push(NodeReading {
                here: Here::at(nodes, at + 1),
                ways: [nodes.way(at + 1, 0), nodes.way(at + 1, 1)],
            })?;
        }
        Ok(ReadNodes { nodes, stops })
    }

    /// What is read at the node of a number.
    pub fn here(&self, number: usize) -> &Here<'a>
        requires one { 0 < number }
        requires last { number ≤ length self.now }
    {
        &self.stops[number - 1].here
    }

    /// The numbers of the nodes that the ways of a node lead to.
    pub fn ways(&self, number: usize) -> &[Option<usize>]
        requires one { 0 < number }
        requires last { number ≤ length self.now }
    {
        &self.stops[number - 1].ways
    }
}
