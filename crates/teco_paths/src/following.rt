//! Paths, from cut point to cut point.
ghost use Rattle.std.specs.Prelude.{◌++◌, [], IfOk, OnOk};
ghost use Rattle.std.specs.Bool.{OnTrue};
ghost use Rattle.std.specs.List.{All};
ghost use Rattle.teco_paths.specs.Claims.{AreSaid, HasNoCut};
ghost use Rattle.teco_paths.specs.Paths.{Arrives, IsFollowed, Leads, LeadsOn};
ghost use Rattle.teco_paths.specs.Steps.{IsSharper};

use crate::course::MacroGraph;
use crate::cut::{CutState, case_of, comes_to};
use crate::fault::PathFault;
use crate::halves::halves;
use crate::light::lighter;
use crate::room::with_room;
use crate::sharp::sharpened;
use crate::spot::NodeCase;
use crate::steps::{behind, is_in_time, is_small, types_no_more};
use std::alloc::Global;
use teco_rows::case::Case;

/// The most spots that paths may come to from a cut point.
pub const MOST_SPOTS: usize = 20_000;

// Whether no cut point is at a node.
fn is_no_cut(course: &MacroGraph<'_>, number: usize) -> bool
    ensures { OnTrue result (HasNoCut course.now.cuts number) }
{
    for cut in course.cuts {
        if cut.number == number {
            return false;
        }
    }
    true
}

// Whether a path is at the end, in time.
fn is_over(course: &MacroGraph<'_>, spot: &NodeCase, alloc: Global) -> Result<bool, PathFault>
    ensures { IfOk result (λ answer. OnTrue answer (LeadsOn course.now spot.now)) }
{
    teco_law_runs::laws::runs_end();
    if spot.number == 0 || spot.number - 1 != course.nodes.len() {
        return Ok(false);
    }
    if !is_no_cut(course, spot.number) {
        return Ok(false);
    }
    let is_timely = is_in_time(course, &spot.case, alloc)?;
    let is_within = is_small(course, &spot.case, alloc)?;
    let is_quiet = types_no_more(course, &spot.case, alloc)?;
    Ok(is_timely && is_within && is_quiet)
}

// Why a path may not be over at the end.
fn not_over(
    course: &MacroGraph<'_>,
    spot: &NodeCase,
    alloc: Global,
) -> Result<PathFault, PathFault> {
    let is_quiet = types_no_more(course, &spot.case, alloc)?;
    if is_quiet {
        Ok(PathFault::Commands(spot.number))
    } else {
        Ok(PathFault::Types)
    }
}

// Whether it has come to a cut point behind the first element, in time.
fn is_arrived(
    course: &MacroGraph<'_>,
    spot: &NodeCase,
    cut: &CutState,
    alloc: Global,
) -> Result<bool, PathFault>
    ensures { IfOk result (λ answer. OnTrue answer (Arrives course.now spot.now cut.now)) }
{
    if spot.number != cut.number || cut.number == 1 {
        return Ok(false);
    }
    let is_claimed = comes_to(&spot.case, cut, alloc)?;
    if !is_claimed {
        return Ok(false);
    }
    let is_timely = is_in_time(course, &spot.case, alloc)?;
    Ok(is_timely)
}

// Whether it has come to one of the cut points.
fn is_at_cut(course: &MacroGraph<'_>, spot: &NodeCase, alloc: Global) -> Result<bool, PathFault>
    ensures { IfOk result (λ answer. OnTrue answer (LeadsOn course.now spot.now)) }
{
    for cut in course.cuts {
        if is_arrived(course, spot, cut, alloc)? {
            return Ok(true);
        }
    }
    Ok(false)
}

// The spots behind one at which a path is neither over nor at a cut point.
fn spots_ahead(
    course: &MacroGraph<'_>,
    spot: &NodeCase,
    alloc: Global,
) -> Result<Vec<NodeCase>, PathFault>
    ensures { IfOk result (λ spots.
        All (LeadsOn course.now) spots.items → LeadsOn course.now spot.now) }
{
    let is_ended = is_over(course, spot, alloc)?;
    if is_ended {
        return Ok(Vec::new(alloc));
    }
    let is_cut = is_at_cut(course, spot, alloc)?;
    if is_cut {
        return Ok(Vec::new(alloc));
    }
    if spot.number > course.nodes.len() {
        let refused = not_over(course, spot, alloc)?;
        return Err(refused);
    }
    if !is_no_cut(course, spot.number) {
        return halves(spot, alloc);
    }
    behind(course, spot.number, &spot.case, alloc)
}

// The case with what is shown of how much is held, where a path goes on.
fn noted(
    course: &MacroGraph<'_>,
    number: usize,
    case: Case,
    alloc: Global,
) -> Result<Case, PathFault>
    ensures { IfOk result (λ more. IsSharper case more) }
{
    if number <= course.nodes.len() && is_no_cut(course, number) {
        with_room(course, case, alloc)
    } else {
        Ok(case)
    }
}

// The spots behind one, of whose case all is taken that is known, and no more than is of use.
fn onward(
    course: &MacroGraph<'_>,
    spot: NodeCase,
    alloc: Global,
) -> Result<Vec<NodeCase>, PathFault>
    ensures { IfOk result (λ spots.
        All (LeadsOn course.now) spots.items → LeadsOn course.now spot) }
{
    let NodeCase { number, case } = spot;
    let sharp = sharpened(case, alloc)?;
    let light = lighter(sharp, alloc)?;
    let known = noted(course, number, light, alloc)?;
    let spot = NodeCase {
        number,
        case: known,
    };
    spots_ahead(course, &spot, alloc)
}

// Follows all paths from some spots, to cut points and to the end.
fn follow(course: &MacroGraph<'_>, spots: Vec<NodeCase>, alloc: Global) -> Result<(), PathFault>
    ensures { OnOk result (All (LeadsOn course.now) spots.items) }
{
    let mut ahead = spots;
    'spots: for _ in 0..MOST_SPOTS {
        let Some(spot) = ahead.pop() else {
            return Ok(());
        };
        let mut more = onward(course, spot, alloc)?;
        ahead.append(&mut more)?;
    }
    Err(PathFault::TooLong)
}

/// Follows all paths from a case at a node.
pub fn follow_case(
    course: &MacroGraph<'_>,
    number: usize,
    case: &Case,
    alloc: Global,
) -> Result<(), PathFault>
    ensures { OnOk result (Leads course.now number case.now) }
{
    let spots = behind(course, number, case, alloc)?;
    follow(course, spots, alloc)
}

/// Whether each state that a case describes is as is said at a node.
pub fn is_said(
    course: &MacroGraph<'_>,
    number: usize,
    case: &Case,
    alloc: Global,
) -> Result<bool, PathFault>
    ensures { IfOk result (λ answer. OnTrue answer (AreSaid course.now.cuts number case.now)) }
{
    for cut in course.cuts {
        if cut.number == number && comes_to(case, cut, alloc)? {
            return Ok(true);
        }
    }
    Ok(is_no_cut(course, number))
}

// Follows all paths from a cut point. From the first element they are followed from the entry.
fn follow_cut(course: &MacroGraph<'_>, cut: &CutState, alloc: Global) -> Result<(), PathFault>
    ensures { OnOk result (IsFollowed course.now cut.now) }
{
    if cut.number == 1 {
        return Ok(());
    }
    let case = case_of(course.size, cut, alloc)?;
    follow_case(course, cut.number, &case, alloc)
}

/// Follows all paths from all cut points.
pub fn follow_cuts(course: &MacroGraph<'_>, alloc: Global) -> Result<(), PathFault>
    ensures { OnOk result (All (IsFollowed course.now) course.now.cuts) }
{
    for cut in course.cuts {
        follow_cut(course, cut, alloc)?;
    }
    Ok(())
}
