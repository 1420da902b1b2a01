//! What is known at the nodes, as far as the pass that finds the choices comes.
ghost use Rattle.std.specs.Prelude.{◌<◌, ◌≤◌, length, IfOk};

use crate::course::ReadNodes;
use crate::search::{NodePass, most_passed};
use crate::unfit::Unfit;
use std::alloc::{AllocError, Global};
use teco_check::{Row, Table, are_kept, choice_for};
use teco_expansion::Nodes;
use teco_facts::Facts;
use teco_model::ArgumentRange;
use teco_verifier::LoopLine;

// What was known at each node that was passed, in the order of their numbers.
#[derive(Drop)]
struct PassedNodes {
    known: Vec<Option<Facts>>,
}

impl PassedNodes {
    // Forgets what was known at a node, and behind it.
    fn forget_from(&mut self, number: usize) {
        self.known.truncate(number.saturating_sub(1));
    }

    // This is known at the next node.
    fn put(&mut self, known: &Option<Facts>) -> Result<(), AllocError> {
        let copy = match known {
            None => None,
            Some(facts) => Some(facts.copied()?),
        };
        self.known.push(copy)?;
        Ok(())
    }

    // What was known, and what is chosen.
    fn into_table(self, alloc: Global, chosen: &[LoopLine]) -> Result<Table, AllocError> {
        let mut table = Table::new(alloc);
        let mut number = 0_usize;
        for known in self.known {
            number = number.saturating_add(1);
            table.push(row_of(number, known, chosen))?;
        }
        Ok(table)
    }
}

// What is known at a node, if a table may have it, and what is chosen.
fn row_of(number: usize, known: Option<Facts>, chosen: &[LoopLine]) -> Row {
    match known {
        None => Row::of(None, None),
        Some(facts) => {
            if !are_kept(&facts) {
                return Row::of(None, None);
            }
            let choice = choice_for(number, chosen, &facts);
            Row::of(Some(facts), choice)
        }
    }
}

impl NodePass {
    // Passes a node, and keeps what is known there.
    fn pass_seen(
        &mut self,
        course: &ReadNodes<'_, '_>,
        number: usize,
        trail: &mut PassedNodes,
    ) -> Result<usize, Unfit>
        requires one { 0 < number }
        requires last { number ≤ length course.now }
        ensures { IfOk result (λ next. 0 < next) }
    {
        trail.forget_from(number);
        let known = self.met(number)?;
        trail.put(&known)?;
        self.leave(course, number, known)
    }

    // Passes the nodes up to the end or the first refusal, and keeps what is known.
    fn follow(&mut self, course: &ReadNodes<'_, '_>, trail: &mut PassedNodes) -> Result<(), Unfit> {
        let count = course.nodes.len();
        let mut number = 1;
        for _ in 0..most_passed(count) {
            if number > count {
                return Ok(());
            }
            number = self.pass_seen(course, number, trail)?;
        }
        Ok(())
    }
}

// Follows the pass to its end, or to the refusal that ends it.
fn followed(
    alloc: Global,
    argument: Option<ArgumentRange>,
    nodes: &Nodes<'_>,
    given: Vec<LoopLine>,
) -> Result<Table, Unfit> {
    let course = ReadNodes::new(alloc, nodes)?;
    let mut search = NodePass::new(alloc, argument, nodes.len(), given)?;
    let mut trail = PassedNodes {
        known: Vec::new(alloc),
    };
    if let Err(Unfit::Memory) = search.follow(&course, &mut trail) {
        return Err(Unfit::Memory);
    }
    let chosen = search.into_chosen()?;
    Ok(trail.into_table(alloc, &chosen)?)
}

/// What is known at each node as the choices are searched, up to the last node that is passed: in
/// the last try, where a body is tried again; and what is chosen so far. Where the choices are given
/// with which an earlier search ended, each node is passed once.
pub fn watch(
    alloc: Global,
    argument: Option<ArgumentRange>,
    nodes: &Nodes<'_>,
    given: Vec<LoopLine>,
) -> Result<Table, AllocError> {
    match followed(alloc, argument, nodes, given) {
        Ok(table) => Ok(table),
        Err(_) => Err(AllocError),
    }
}
