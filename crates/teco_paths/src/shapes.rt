//! Which shapes states have at the nodes of a macro, and which measures: what paths come to, where
//! nothing is asked of numbers. Nothing is promised of what is found.
ghost use Rattle.std.specs.Prelude.{◌<◌, ◌≤◌, length};

use crate::course::MacroGraph;
use crate::cut::{CutState, copied_shape, is_same_shape};
use crate::fault::PathFault;
use crate::outcomes::{outcomes_at, passing};
use crate::spot::NodeCase;
use crate::targets::target;
use std::alloc::Global;
use teco_expansion::Nodes;
use teco_linear::Form;
use teco_model::Kind;
use teco_rows::case::Case;
use teco_rows::outcomes::Outcomes;

// The most nodes with shapes that are gone through.
const MOST_SHAPES: usize = 20_000;

// The most pushes of a shape: a body that pushes more than it pops has ever longer ones.
const MOST_PUSHES: usize = 256;

// Which measures a case has.
fn present_in(forms: &[Option<Form>], alloc: Global) -> Result<Vec<bool>, PathFault> {
    let mut present = Vec::new(alloc);
    for form in forms {
        present.push(form.is_some())?;
    }
    Ok(present)
}

// Whether two have the same measures.
fn are_same(one: &[bool], other: &[bool]) -> bool {
    for place in 0..one.len().max(other.len()) {
        let here = one.get(place) == Some(&true);
        let there = other.get(place) == Some(&true);
        if here != there {
            return false;
        }
    }
    true
}

// The cut point of a spot, at which nothing is claimed.
fn stand_of(spot: &NodeCase, alloc: Global) -> Result<CutState, PathFault> {
    Ok(CutState {
        number: spot.number,
        shape: copied_shape(&spot.case.shape, alloc)?,
        present: present_in(&spot.case.forms, alloc)?,
        told: Vec::new(alloc),
        claims: Vec::new(alloc),
    })
}

// Whether the cut point of a spot is a new one among those that were found, where it is added.
fn is_added(found: &mut Vec<CutState>, spot: &NodeCase, alloc: Global) -> Result<bool, PathFault> {
    let stand = stand_of(spot, alloc)?;
    let is_known = found.iter().any(|other| {
        other.number == stand.number
            && is_same_shape(&other.shape, &stand.shape)
            && are_same(&other.present, &stand.present)
    });
    if !is_known {
        found.push(stand)?;
    }
    Ok(!is_known)
}

// What comes of the element of a node, or of the end of a text.
fn outcomes_behind(
    course: &MacroGraph<'_>,
    number: usize,
    case: &Case,
    alloc: Global,
) -> Result<Outcomes, PathFault>
    requires one { 0 < number }
    requires last { number ≤ length course.now.nodes }
{
    match course.nodes.element(number) {
        Some(element) => match element.kind {
            Kind::Call(_) => Ok(passing(case, alloc)?),
            _ => outcomes_at(course, number, case, &element, alloc),
        },
        None => Ok(passing(case, alloc)?),
    }
}

// Adds the spot of a case. Where it is not told to which node a way leads, it is left out.
fn add_spot(
    spots: &mut Vec<NodeCase>,
    nodes: &Nodes<'_>,
    number: usize,
    is_away: bool,
    case: Case,
) -> Result<(), PathFault>
    requires one { 0 < number }
    requires last { number ≤ length nodes.now }
{
    let Ok(number) = target(nodes, number, is_away, &case) else {
        return Ok(());
    };
    let mut case = case;
    case.constraints.clear();
    spots.push(NodeCase { number, case })?;
    Ok(())
}

// Adds the spots of outcomes.
fn add_spots(
    spots: &mut Vec<NodeCase>,
    nodes: &Nodes<'_>,
    number: usize,
    outcomes: &mut Outcomes,
) -> Result<(), PathFault>
    requires one { 0 < number }
    requires last { number ≤ length nodes.now }
{
    for case in outcomes.cases.drain(..) {
        add_spot(spots, nodes, number, false, case)?;
    }
    for case in outcomes.away.drain(..) {
        add_spot(spots, nodes, number, true, case)?;
    }
    Ok(())
}

// Adds the spots behind one.
fn add_behind(
    spots: &mut Vec<NodeCase>,
    course: &MacroGraph<'_>,
    spot: &NodeCase,
    alloc: Global,
) -> Result<(), PathFault>
    requires one { 0 < spot.now.number }
    requires last { spot.now.number ≤ length course.now.nodes }
{
    match outcomes_behind(course, spot.number, &spot.case, alloc) {
        Ok(mut outcomes) => add_spots(spots, course.nodes, spot.number, &mut outcomes),
        Err(PathFault::Memory) => Err(PathFault::Memory),
        // no shapes are known behind it
        Err(_) => Ok(()),
    }
}

// Adds what a spot leads to: its cut point, and, where that is a new one, the spots behind it.
fn visit(
    course: &MacroGraph<'_>,
    spot: &NodeCase,
    found: &mut Vec<CutState>,
    ahead: &mut Vec<NodeCase>,
    alloc: Global,
) -> Result<(), PathFault> {
    if spot.number == 0 || spot.number > course.nodes.len() {
        return Ok(());
    }
    if spot.case.shape.pushes > MOST_PUSHES {
        return Err(PathFault::TooLong);
    }
    if is_added(found, spot, alloc)? {
        add_behind(ahead, course, spot, alloc)?;
    }
    Ok(())
}

/// Goes through a macro from a case at its first node, and tells each node that is come to with its
/// shapes.
pub fn shapes(
    course: &MacroGraph<'_>,
    first: Case,
    alloc: Global,
) -> Result<Vec<CutState>, PathFault> {
    let mut found = Vec::new(alloc);
    let mut ahead = Vec::new(alloc);
    ahead.push(NodeCase {
        number: 1,
        case: first,
    })?;
    for _ in 0..MOST_SHAPES {
        let Some(spot) = ahead.pop() else {
            return Ok(found);
        };
        visit(course, &spot, &mut found, &mut ahead, alloc)?;
    }
    Err(PathFault::TooLong)
}
