//! To which node a step leads.
ghost use Rattle.std.specs.Prelude.{◌<◌, ◌≤◌, length, IfOk, IfSome};
ghost use Rattle.std.specs.Bool.{OnTrue};
ghost use Rattle.teco_paths.specs.Steps.{IsOpenAt, IsTarget, IsTest, IsToldApart};

use crate::fault::PathFault;
use teco_expansion::Nodes;
use teco_model::Kind;
use teco_model::kind::Flow;
use teco_rows::case::Case;

// Whether a conditional stands at a node.
fn is_test(nodes: &Nodes<'_>, number: usize) -> bool
    requires one { 0 < number }
    requires last { number ≤ length nodes.now }
    ensures { OnTrue result (IsTest nodes.now number) }
{
    match nodes.element(number) {
        Some(element) => matches!(element.kind, Kind::Flow(Flow::Test(_))),
        None => false,
    }
}

// How many iterations are open at a node.
fn open_at(nodes: &Nodes<'_>, number: usize) -> Option<usize>
    ensures { IfSome result (λ iterations. IsOpenAt nodes.now number iterations) }
{
    if number == 0 || number > nodes.len() {
        None
    } else {
        Some(nodes.open(number))
    }
}

// Of two nodes that at which as many iterations are open.
fn by_iterations(nodes: &Nodes<'_>, first: usize, second: usize, iterations: usize) -> Option<usize>
    ensures { IfSome result (λ target. IsToldApart nodes.now iterations first second target) }
{
    let one = open_at(nodes, first)?;
    let other = open_at(nodes, second)?;
    if one == other {
        None
    } else if iterations == one {
        Some(first)
    } else if iterations == other {
        Some(second)
    } else {
        None
    }
}

/// The node at which a state stands a step after this one, where a case describes it: behind the
/// element, or elsewhere. It is not told where two ways are not told apart.
pub fn target(
    nodes: &Nodes<'_>,
    number: usize,
    is_away: bool,
    case: &Case,
) -> Result<usize, PathFault>
    requires one { 0 < number }
    requires last { number ≤ length nodes.now }
    ensures { IfOk result (λ target. IsTarget nodes.now number is_away case.now target) }
{
    teco_law_runs::laws::steps_go_along_nodes();
    teco_law_runs::laws::iterations_are_open();
    let fault = PathFault::NotTold(number);
    let Some(first) = nodes.way(number, 0) else {
        return Err(fault);
    };
    let Some(second) = nodes.way(number, 1) else {
        return Ok(first);
    };
    if nodes.ways(number) > 2 {
        return Err(fault);
    }
    if is_test(nodes, number) {
        return Ok(if is_away { second } else { first });
    }
    match by_iterations(nodes, first, second, case.shape.iterations) {
        Some(target) => Ok(target),
        None => Err(fault),
    }
}
