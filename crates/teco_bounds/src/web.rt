//! The paths between keys, as programs need them.
use crate::bounds::Bounds;
use crate::forms::form_in;
use crate::record::Record;
use crate::reduced::Bounded;
use std::alloc::Global;
use teco_linear::Form;

// A path from a key to another, or to the end: the forms of the measures where it ends, its
// constraints, what these say without limits, and its last peak.
#[derive(Drop)]
pub struct Leg {
    pub source: usize,
    pub target: Option<usize>,
    pub forms: Vec<Option<Form>>,
    pub constraints: Vec<Form>,
    pub bounded: Bounded,
    pub peak: Option<usize>,
    pub passed: Option<usize>,
}

// Where paths begin at a key: its node, the forms of measures, the constraints, the measures that have
// their own symbols, and the bounds of these.
#[derive(Drop)]
pub struct LegStart {
    pub number: usize,
    pub forms: Vec<Option<Form>>,
    pub constraints: Vec<Form>,
    pub own: Vec<u32>,
    pub bounds: Bounds,
    // The iterations round it, the innermost first: where they begin and where they end.
    pub around: Vec<(usize, usize)>,
}

// All paths, and what was noted on them.
#[derive(Drop)]
pub struct Web {
    pub starts: Vec<LegStart>,
    pub legs: Vec<Leg>,
    pub record: Record,
}

impl Web {
    pub fn none(alloc: Global) -> Web {
        Web {
            starts: Vec::new(alloc),
            legs: Vec::new(alloc),
            record: Record::new(true, alloc),
        }
    }

    // The number of the node from a key of which most paths lead, or 0.
    pub fn busiest(&self) -> usize {
        let mut found = 0;
        let mut most = 0;
        for (key, start) in self.starts.iter().enumerate() {
            let count = self.legs.iter().filter(|leg| leg.source == key).count();
            if count > most {
                most = count;
                found = start.number;
            }
        }
        found
    }

    // The number of the node of a key, or 0.
    fn number(&self, key: usize) -> usize {
        self.starts.get(key).map_or(0, |start| start.number)
    }

    // Whether the measure in a place has a form where paths begin at a key.
    pub fn has_form(&self, key: usize, place: u32) -> bool {
        match self.starts.get(key) {
            Some(start) => form_in(&start.forms, place).is_some(),
            None => false,
        }
    }

    // How many iterations are open at a key at most.
    pub fn depth(&self) -> usize {
        let mut most = 0;
        for start in &self.starts {
            most = most.max(start.around.len());
        }
        most
    }

    // Whether a path goes from a key in a span of nodes to another one there.
    pub fn is_within(&self, leg: &Leg, span: (usize, usize)) -> bool {
        let (first, last) = span;
        let is_inside = |key: usize| {
            let number = self.number(key);
            first < number && number <= last
        };
        is_inside(leg.source) && leg.target.is_some_and(is_inside)
    }

    // Whether a path goes from a node to itself.
    pub fn is_round(&self, leg: &Leg, number: usize) -> bool {
        let is_there = |key: usize| self.number(key) == number;
        is_there(leg.source) && leg.target.is_some_and(is_there)
    }
}
