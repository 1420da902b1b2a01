//! The edges that lead to nodes ahead, by these nodes.

use crate::meeting::may_meet;
use std::alloc::{AllocError, Global};
use teco_facts::Facts;

// An edge that leads to a node ahead.
#[derive(Drop)]
struct Arrival {
    target: usize,
    // until its node is passed, or others meet it
    facts: Option<Facts>,
    // the place of the one before it that leads to the same node
    before: Option<usize>,
}

/// The edges that lead to nodes ahead, in the order in which they came.
#[derive(Drop)]
pub struct PendingEdges {
    alloc: Global,
    arrivals: Vec<Arrival>,
    // for each number of a node, the place of the last that waits there
    newest: Vec<Option<usize>>,
}

impl PendingEdges {
    /// No edge leads to any of so many nodes, if there is memory.
    pub fn new(alloc: Global, nodes: usize) -> Result<PendingEdges, AllocError> {
        let mut newest = Vec::new(alloc);
        newest.push(None)?;
        for _at in 0..nodes {
            newest.push(None)?;
        }
        Ok(PendingEdges {
            alloc,
            arrivals: Vec::new(alloc),
            newest,
        })
    }

    /// How many edges came, those to nodes that are passed among them.
    pub fn len(&self) -> usize {
        self.arrivals.len()
    }

    // The place of the last that waits at a node.
    fn newest_at(&self, number: usize) -> Option<usize> {
        match self.newest.get(number) {
            None => None,
            Some(place) => *place,
        }
    }

    // Another one is the last that waits at a node.
    fn set_newest(&mut self, number: usize, place: Option<usize>) {
        if let Some(newest) = self.newest.get_mut(number) {
            *newest = place;
        }
    }

    /// An edge comes, if there is memory.
    pub fn put(&mut self, target: usize, facts: Facts) -> Result<(), AllocError> {
        let place = self.arrivals.len();
        let before = self.newest_at(target);
        let facts = Some(facts);
        self.arrivals.push(Arrival {
            target,
            facts,
            before,
        })?;
        self.set_newest(target, Some(place));
        Ok(())
    }

    /// Takes out what is known on the last edges that wait at a node, if they came behind so many,
    /// and others may meet them.
    pub fn take_newest(&mut self, target: usize, since: usize, others: &Facts) -> Option<Facts> {
        let place = self.newest_at(target)?;
        if place < since {
            return None;
        }
        let arrival = self.arrivals.get_mut(place)?;
        match &arrival.facts {
            Some(facts) if may_meet(facts, others) => {}
            _ => return None,
        }
        let (facts, before) = (arrival.facts.take(), arrival.before);
        self.set_newest(target, before);
        facts
    }

    /// Takes out what is known on the edges to a node, from the last that came to the first.
    pub fn take(&mut self, number: usize) -> Result<Vec<Facts>, AllocError> {
        let mut taken = Vec::new(self.alloc);
        let mut at = self.newest_at(number);
        self.set_newest(number, None);
        for _ in 0..self.arrivals.len() {
            let Some(place) = at else {
                break;
            };
            let Some(arrival) = self.arrivals.get_mut(place) else {
                break;
            };
            at = arrival.before;
            if let Some(facts) = arrival.facts.take() {
                taken.push(facts)?;
            }
        }
        Ok(taken)
    }

    /// Forgets the edges that came behind so many.
    pub fn truncate(&mut self, count: usize) {
        for _ in count..self.arrivals.len() {
            if let Some(arrival) = self.arrivals.pop() {
                if arrival.facts.is_some() {
                    self.set_newest(arrival.target, arrival.before);
                }
            }
        }
    }
}
