//! Multipliers of constraints that bound differences: chains of them.

use crate::fault::ImpliedFault;
use crate::kinds::{CONSTANT, Monomial, placed};
use std::alloc::Global;
use teco_linear::Form;

// That one kind is above another by at most a number: what a constraint says, or is to be shown.
#[derive(Clone, Copy)]
struct Edge {
    from: usize,
    to: usize,
    most: i128,
    constraint: usize,
}

/// The kinds that differences are of, and what constraints say of these.
#[derive(Drop)]
pub struct Graph {
    kinds: Vec<Monomial>,
    edges: Vec<Edge>,
}

/// Whether a form bounds a difference, or is a number.
pub fn is_difference(form: &Form) -> bool {
    let mut above = 0usize;
    let mut below = 0usize;
    for term in form.terms() {
        if Monomial::of(term) == CONSTANT {
            continue;
        }
        match term.coefficient {
            1 => above = above.saturating_add(1),
            -1 => below = below.saturating_add(1),
            _ => return false,
        }
    }
    above <= 1 && below <= 1
}

// What a form says, if it bounds a difference.
fn edge_of(
    kinds: &mut Vec<Monomial>,
    form: &Form,
    constraint: usize,
) -> Result<Option<Edge>, ImpliedFault> {
    let mut most = 0;
    let mut from = None;
    let mut to = None;
    for term in form.terms() {
        let kind = Monomial::of(term);
        if kind == CONSTANT {
            most = term.coefficient;
        } else if term.coefficient == 1 && from.is_none() {
            from = Some(kind);
        } else if term.coefficient == -1 && to.is_none() {
            to = Some(kind);
        } else {
            return Ok(None);
        }
    }
    Ok(Some(Edge {
        from: placed(kinds, from.unwrap_or(CONSTANT))?,
        to: placed(kinds, to.unwrap_or(CONSTANT))?,
        most,
        constraint,
    }))
}

// How far kinds are above where a search began at most, and by which edge.
#[derive(Drop)]
struct ChainDistances {
    least: Vec<Option<i128>>,
    by: Vec<Option<usize>>,
}

impl ChainDistances {
    fn far(&self, kind: usize) -> Option<i128> {
        match self.least.get(kind) {
            Some(least) => *least,
            None => None,
        }
    }

    fn edge(&self, kind: usize) -> Option<usize> {
        match self.by.get(kind) {
            Some(by) => *by,
            None => None,
        }
    }

    // Lowers the distance of where an edge leads, and says whether it did.
    fn lower(&mut self, edge: &Edge, place: usize) -> bool {
        let Some(from) = self.far(edge.from) else {
            return false;
        };
        let Some(through) = from.checked_add(edge.most) else {
            return false;
        };
        if self.far(edge.to).is_some_and(|known| known <= through) {
            return false;
        }
        if let Some(least) = self.least.get_mut(edge.to) {
            *least = Some(through);
        }
        if let Some(by) = self.by.get_mut(edge.to) {
            *by = Some(place);
        }
        true
    }

    // Lowers them by all edges, and tells a kind whose distance was lowered.
    fn pass(&mut self, edges: &[Edge]) -> Option<usize> {
        let mut last = None;
        for place in 0..edges.len() {
            if self.lower(&edges[place], place) {
                last = Some(edges[place].to);
            }
        }
        last
    }
}

impl Graph {
    /// What those of the constraints at these places say that bound differences.
    pub fn of(
        constraints: &[Form],
        places: &[usize],
        alloc: Global,
    ) -> Result<Graph, ImpliedFault> {
        let mut kinds = Vec::with_capacity(alloc, places.len())?;
        kinds.push(CONSTANT)?;
        let mut edges = Vec::with_capacity(alloc, places.len())?;
        for place in places {
            if let Some(form) = constraints.get(*place) {
                if let Some(edge) = edge_of(&mut kinds, form, *place)? {
                    edges.push(edge)?;
                }
            }
        }
        Ok(Graph { kinds, edges })
    }

    /// The constraints whose sum shows a bound on a difference, or that they can't all hold, where the
    /// target is -1.
    pub fn chain(
        &mut self,
        target: &Form,
        alloc: Global,
    ) -> Result<Option<Vec<usize>>, ImpliedFault> {
        let Some(wanted) = edge_of(&mut self.kinds, target, 0)? else {
            return Ok(None);
        };
        if wanted.from == wanted.to {
            self.circle(alloc)
        } else {
            self.path(&wanted, alloc)
        }
    }

    // The constraints by which a kind was reached, back to another, if their sum shows what is wanted:
    // where all can't hold, it may not.
    fn back(
        &self,
        distances: &ChainDistances,
        wanted: &Edge,
        alloc: Global,
    ) -> Result<Option<Vec<usize>>, ImpliedFault> {
        let mut places = Vec::new(alloc);
        let mut at = wanted.to;
        let mut total: i128 = 0;
        for _ in 0..=self.kinds.len() {
            let Some(edge) = distances.edge(at).and_then(|place| self.edges.get(place)) else {
                return Ok(None);
            };
            let Some(sum) = total.checked_add(edge.most) else {
                return Ok(None);
            };
            places.push(edge.constraint)?;
            total = sum;
            at = edge.from;
            if at == wanted.from {
                return Ok(if total <= wanted.most {
                    Some(places)
                } else {
                    None
                });
            }
        }
        Ok(None)
    }

    // Distances before the search.
    fn begun(&self, least: Option<i128>, alloc: Global) -> Result<ChainDistances, ImpliedFault> {
        Ok(ChainDistances {
            least: Vec::from_elem(alloc, least, self.kinds.len())?,
            by: Vec::from_elem(alloc, None, self.kinds.len())?,
        })
    }

    // A chain that shows that a difference is within a bound.
    fn path(&self, wanted: &Edge, alloc: Global) -> Result<Option<Vec<usize>>, ImpliedFault> {
        let mut distances = self.begun(None, alloc)?;
        if let Some(least) = distances.least.get_mut(wanted.from) {
            *least = Some(0);
        }
        for _ in 0..self.kinds.len() {
            if distances.pass(&self.edges).is_none() {
                break;
            }
        }
        match distances.far(wanted.to) {
            Some(far) if far <= wanted.most => self.back(&distances, wanted, alloc),
            _ => Ok(None),
        }
    }

    // A chain that comes back to where it began, below it.
    fn circle(&self, alloc: Global) -> Result<Option<Vec<usize>>, ImpliedFault> {
        let mut distances = self.begun(Some(0), alloc)?;
        let mut lowered = None;
        for _ in 0..=self.kinds.len() {
            lowered = distances.pass(&self.edges);
            if lowered.is_none() {
                return Ok(None);
            }
        }
        let Some(mut at) = lowered else {
            return Ok(None);
        };
        for _ in 0..self.kinds.len() {
            match distances.edge(at).and_then(|place| self.edges.get(place)) {
                Some(edge) => at = edge.from,
                None => return Ok(None),
            }
        }
        let below = Edge {
            from: at,
            to: at,
            most: -1,
            constraint: 0,
        };
        self.back(&distances, &below, alloc)
    }
}
