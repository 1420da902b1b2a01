//! Whether claims hang together.
ghost use Rattle.std.specs.Prelude.{OnOk};
ghost use Rattle.teco_paths.specs.Sure.{IsCertain, bounds_of};

use crate::course::MacroGraph;
use crate::cut::case_of;
use crate::entry::entry_cut;
use crate::fault::PathFault;
use crate::following::{follow_case, follow_cuts, is_said};
use std::alloc::Global;
use teco_model::ArgumentRange;

/// Follows all paths of a macro that may be declared to take an argument: from its entry and from
/// each cut point to the next, or to the end. Where nothing is refused, every run of it ends in time, and
/// wherever one stands at an element with cut points, all is as one of these says.
pub fn check_claims(
    course: &MacroGraph<'_>,
    argument: Option<ArgumentRange>,
    alloc: Global,
) -> Result<(), PathFault>
    ensures { OnOk result (IsCertain course.now.nodes course.now.lengths argument course.now.needs
        (bounds_of course.now) course.now.cuts) }
{
    let cut = entry_cut(course.lengths, argument, course.used, alloc)?;
    let case = case_of(course.size, &cut, alloc)?;
    let is_as_said = is_said(course, 1, &case, alloc)?;
    if !is_as_said {
        return Err(PathFault::Claims(1));
    }
    follow_cuts(course, alloc)?;
    follow_case(course, 1, &case, alloc)
}
