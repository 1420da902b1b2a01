//! Where paths are cut, and what is known there.
use crate::bounds::Bounds;
use crate::workspace::Workspace;
use std::alloc::Global;
use teco_rows::case::Shape;

// A flag: the place of the number of a register that is set to few numbers, or, where there are none, to
// quotients: then it is told by a power of 2 that it is below.
#[derive(Drop)]
pub struct Flag {
    pub place: u32,
    pub numbers: Vec<i64>,
}

// A key: the node, whether the pointer is at the buffer's end, as far as that is known, the numbers of
// flags, the shape, which measures there are, and of which bounds are kept.
#[derive(Drop)]
pub struct Key {
    pub number: usize,
    pub at_end: Option<bool>,
    pub flags: Vec<Option<i64>>,
    pub shape: Shape,
    pub present: Vec<bool>,
    pub told: Vec<u32>,
}

// Keys, and the facts of each; the first is that of the entry.
#[derive(Drop)]
pub struct Keys {
    pub keys: Vec<Key>,
    pub facts: Vec<Bounds>,
}

impl Keys {
    pub fn none(alloc: Global) -> Keys {
        Keys {
            keys: Vec::new(alloc),
            facts: Vec::new(alloc),
        }
    }

    // Adds a key with its facts.
    pub fn add(&mut self, key: Key, facts: Bounds, space: &mut Workspace) {
        space.push(&mut self.keys, key);
        space.push(&mut self.facts, facts);
    }
}
