//! The pass over the nodes that finds the choices.
ghost use Rattle.std.specs.Prelude.{◌≡◌, ◌<◌, ◌≤◌, length, IfOk};
ghost use Rattle.std.specs.Result.{IfErr};
ghost use Rattle.teco_check.specs.Kept.{AreKept};
ghost use Rattle.teco_verify.specs.Unfit.{IsAt, IsIn};

use crate::attempt::{Attempt, Judgement};
use crate::course::ReadNodes;
use crate::meeting::met;
use crate::memo::Memo;
use crate::pending::PendingEdges;
use crate::unfit::{Unfit, Unfound};
use std::alloc::{AllocError, Global};
use teco_check::{Edges, are_kept, turns};
use teco_expansion::Nodes;
use teco_facts::Facts;
use teco_model::ArgumentRange;
use teco_poly::Poly;
use teco_verifier::{LoopLine, RefusalReason};

// How often the body of the innermost of six iterations may be passed: three times for each of
// them.
const PASSES: u64 = 729;

/// How many nodes a search can pass, of so many.
pub fn most_passed(nodes: usize) -> u64 {
    PASSES.saturating_mul(nodes as u64)
}

// A pass over the nodes, in their order, with what is tried for the iterations that are open.
#[derive(Drop)]
pub struct NodePass {
    alloc: Global,
    // what comes from the node before
    carried: Option<Facts>,
    pending: PendingEdges,
    memo: Memo,
    attempts: Vec<Attempt>,
    found: Vec<LoopLine>,
    // the choices that are not searched
    given: Vec<LoopLine>,
}

impl NodePass {
    /// None of so many nodes is passed. Choices that are given are the only ones that are tried for
    /// their iterations.
    pub fn new(
        alloc: Global,
        argument: Option<ArgumentRange>,
        nodes: usize,
        given: Vec<LoopLine>,
    ) -> Result<NodePass, AllocError> {
        Ok(NodePass {
            alloc,
            carried: Some(Facts::entry(alloc, argument)?),
            pending: PendingEdges::new(alloc, nodes)?,
            memo: Memo::new(alloc, nodes)?,
            attempts: Vec::new(alloc),
            found: Vec::new(alloc),
            given,
        })
    }

    /// What is known at a node, where edges lead to it.
    pub fn met(&mut self, number: usize) -> Result<Option<Facts>, Unfit>
        ensures { IfErr result (IsAt number) }
    {
        let mut arrived = self.pending.take(number)?;
        let mut known: Option<Facts> = None;
        for _ in 0..arrived.len() {
            if let Some(facts) = arrived.pop() {
                known = Some(joined(self.alloc, known, facts, number)?);
            }
        }
        match self.carried.take() {
            None => Ok(known),
            Some(last) => Ok(Some(joined(self.alloc, known, last, number)?)),
        }
    }

    // How many edges had come as the innermost try began; the later ones are dropped with it.
    fn since(&self) -> usize {
        match self.attempts.last() {
            None => 0,
            Some(attempt) => attempt.pending,
        }
    }

    // An edge leads to a node ahead. Where one of this try waits there, they meet at once, unless
    // that is refused: then it is where the node is passed.
    fn arrive(&mut self, number: usize, target: usize, facts: Facts) -> Result<(), Unfit>
        ensures { IfErr result (IsAt number) }
    {
        if number < target && target - number == 1 && self.carried.is_none() {
            self.carried = Some(facts);
            return Ok(());
        }
        let since = self.since();
        match self.pending.take_newest(target, since, &facts) {
            None => self.pending.put(target, facts)?,
            Some(others) => {
                let both = joined(self.alloc, Some(facts), others, number)?;
                self.pending.put(target, both)?;
            }
        }
        Ok(())
    }

    // The body of an iteration is entered. Out of line, as `turn` is.
    #[inline(never)]
    fn begin(
        &mut self,
        nodes: &Nodes<'_>,
        number: usize,
        turns: Poly,
        entering: Facts,
    ) -> Result<(), AllocError> {
        self.memo.learn(nodes, number)?;
        let body = self.memo.body(nodes, number);
        let attempt = Attempt::first(number, &body, turns, entering)
            .recalling(&self.memo)?
            .given(&self.given)
            .behind(self.pending.len(), self.found.len());
        self.carried = Some(attempt.start()?);
        self.attempts.push(attempt)?;
        Ok(())
    }

    // Whether the > of the innermost try has this number.
    fn is_end(&self, number: usize) -> bool {
        match self.attempts.last() {
            None => false,
            Some(attempt) => attempt.end == number,
        }
    }

    // The > of the innermost try is passed: the choice stands, or the body is passed again, from
    // the number that is answered. Out of line, since each call clears room for an attempt.
    #[inline(never)]
    fn turn(&mut self, number: usize, known: &mut Option<Facts>) -> Result<Option<usize>, Unfit>
        ensures { IfErr result (IsAt number) }
    {
        let Some(mut attempt) = self.attempts.pop() else {
            return Ok(None);
        };
        let verdict = match known {
            None => Judgement::Stands,
            Some(end) => match attempt.judged(end) {
                Ok(verdict) => verdict,
                Err(why) => {
                    // This attempt stays the one that is tried where the pass ends.
                    self.attempts.push(attempt)?;
                    return Err(Unfit::at(why, number));
                }
            },
        };
        match verdict {
            Judgement::Stands => self.settle(&attempt)?,
            Judgement::Again => return Ok(Some(self.again(attempt)?)),
        }
        Ok(None)
    }

    // A choice is found; it stands before those for the iterations inside.
    fn settle(&mut self, attempt: &Attempt) -> Result<(), AllocError> {
        attempt.keep(&mut self.memo)?;
        let line = attempt.line(self.alloc)?;
        self.found
            .insert(attempt.found.min(self.found.len()), line)?;
        Ok(())
    }

    // The body is passed again, from the number that is answered, and all that came of it is
    // dropped.
    fn again(&mut self, attempt: Attempt) -> Result<usize, AllocError> {
        self.pending.truncate(attempt.pending);
        self.found.truncate(attempt.found);
        self.carried = Some(attempt.start()?);
        let begin = attempt.begin;
        self.attempts.push(attempt)?;
        Ok(begin.saturating_add(1))
    }

    // Follows the ways of a node that is reached, but for those that begin a turn.
    fn depart(
        &mut self,
        course: &ReadNodes<'_, '_>,
        number: usize,
        edges: &mut Edges,
    ) -> Result<(), Unfit>
        requires one { 0 < number }
        requires last { number ≤ length course.now }
        ensures { IfErr result (IsAt number) }
    {
        let here = course.here(number);
        for (at, way) in course.ways(number).iter().enumerate() {
            if here.begins_turn(at) {
                continue;
            }
            let Some(target) = way else {
                continue;
            };
            if let Some(edge) = here.take_along(at, edges) {
                self.arrive(number, *target, edge)?;
            }
        }
        Ok(())
    }

    // Goes on from a node that is reached.
    fn go_on(
        &mut self,
        course: &ReadNodes<'_, '_>,
        number: usize,
        facts: Facts,
    ) -> Result<(), Unfit>
        requires one { 0 < number }
        requires last { number ≤ length course.now }
        requires kept { AreKept facts }
        ensures { IfErr result (IsAt number) }
    {
        let here = course.here(number);
        let turns = if here.begins_iteration() {
            Some(turns(&facts))
        } else {
            None
        };
        let mut edges = here.edges(facts).map_err(|fault| Unfit::by(fault, number))?;
        self.depart(course, number, &mut edges)?;
        match (edges.on.take(), turns) {
            (Some(entering), Some(turns)) => {
                let turns = turns.map_err(|why| Unfit::at(why, number))?;
                Ok(self.begin(course.nodes, number, turns, entering)?)
            }
            _ => Ok(()),
        }
    }

    // Passes a node, and answers the number of the next.
    fn pass(&mut self, course: &ReadNodes<'_, '_>, number: usize) -> Result<usize, Unfit>
        requires one { 0 < number }
        requires last { number ≤ length course.now }
        ensures next { IfOk result (λ next. 0 < next) }
        ensures told { IfErr result (IsAt number) }
    {
        let known = self.met(number)?;
        self.leave(course, number, known)
    }

    /// Goes on from a node at which this is known, if it is reached, and answers the number of the
    /// next.
    pub fn leave(
        &mut self,
        course: &ReadNodes<'_, '_>,
        number: usize,
        mut known: Option<Facts>,
    ) -> Result<usize, Unfit>
        requires one { 0 < number }
        requires last { number ≤ length course.now }
        ensures next { IfOk result (λ next. 0 < next) }
        ensures told { IfErr result (IsAt number) }
    {
        if self.is_end(number) {
            if let Some(next) = self.turn(number, &mut known)? {
                return Ok(next.max(1));
            }
        }
        if let Some(facts) = known {
            if !are_kept(&facts) {
                return Err(Unfit::at(RefusalReason::Bound, number));
            }
            self.go_on(course, number, facts)?;
        }
        Ok(number.saturating_add(1))
    }

    // Passes all nodes, up to the end or to the first refusal, but no more than so many in all.
    fn pass_all(&mut self, course: &ReadNodes<'_, '_>, most: u64) -> Result<(), Unfit>
        ensures { IfErr result (IsIn course.now) }
    {
        let count = course.nodes.len();
        let mut number = 1;
        for _ in 0..most {
            if number > count {
                return Ok(());
            }
            number = self.pass(course, number)?;
        }
        if number > count {
            return Ok(());
        }
        Err(Unfit::GivenUp { number })
    }

    /// What is chosen: what was found, and what is tried where the search stopped.
    pub fn into_chosen(self) -> Result<Vec<LoopLine>, AllocError> {
        let mut chosen = self.found;
        for attempt in &self.attempts {
            chosen.push(attempt.line(self.alloc)?)?;
        }
        Ok(chosen)
    }

    // Why the search ended, and with which choices; without them where memory is refused.
    fn into_unfound(self, why: Unfit) -> Unfound
        ensures { result.why ≡ why }
    {
        let alloc = self.alloc;
        match self.into_chosen() {
            Ok(chosen) => Unfound { why, chosen },
            Err(_) => Unfound {
                why,
                chosen: Vec::new(alloc),
            },
        }
    }
}

// What is known where another edge leads to a node.
fn joined(alloc: Global, known: Option<Facts>, more: Facts, number: usize) -> Result<Facts, Unfit>
    ensures { IfErr result (IsAt number) }
{
    match known {
        None => Ok(more),
        Some(facts) => met(alloc, facts, more).map_err(|fault| Unfit::by(fault, number)),
    }
}

/// Finds a choice for each iteration whose body is reached, by the numbers of their `<`.
///
/// The body of each iteration is passed at most three times for each pass of the one round it.
pub fn choose(
    alloc: Global,
    argument: Option<ArgumentRange>,
    nodes: &Nodes<'_>,
) -> Result<Vec<LoopLine>, Unfound>
    ensures { IfErr result (λ unfound. IsIn nodes.now unfound.why) }
{
    let Ok(course) = ReadNodes::new(alloc, nodes) else {
        return Err(Unfound::memory(alloc));
    };
    let Ok(mut search) = NodePass::new(alloc, argument, nodes.len(), Vec::new(alloc)) else {
        return Err(Unfound::memory(alloc));
    };
    match search.pass_all(&course, most_passed(nodes.len())) {
        Ok(()) => Ok(search.found),
        Err(why) => Err(search.into_unfound(why)),
    }
}
