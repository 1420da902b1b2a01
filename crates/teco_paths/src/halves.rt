//! What is known of a case where its pointer is at the end of the buffer, and where it is not.
ghost use Rattle.std.specs.Prelude.{◌≡◌, IfOk};
ghost use Rattle.std.specs.List.{All};
ghost use Rattle.teco_paths.specs.Paths.{Course, LeadsOn};
ghost use Rattle.teco_paths.specs.Steps.{AreHalves, IsWith};

use crate::cut::copied_shape;
use crate::fault::PathFault;
use crate::sharp::beyond;
use crate::spot::NodeCase;
use std::alloc::Global;
use teco_implied::is_so_nearby;
use teco_linear::Form;
use teco_rows::applied::{copied_constraints, copied_forms};
use teco_rows::case::Case;
use teco_rows::forms::single;
use teco_rows::measure::Single;

// Two forms of which one is at least 0.
#[derive(Drop)]
struct Apart {
    ahead: Form,
    end: Form,
}

// How far the end of the buffer is ahead of the pointer, less 1; and how far the pointer is ahead of it.
fn halves_of(case: &Case, alloc: Global) -> Result<Apart, PathFault>
    ensures { IfOk result (λ apart. AreHalves apart.ahead apart.end) }
{
    let pointer = single(case, Single::Pointer, alloc)?;
    let size = single(case, Single::Size, alloc)?;
    let ahead = beyond(&size, &pointer, alloc)?;
    let end = pointer.sub(&size, alloc)?;
    Ok(Apart { ahead, end })
}

// Whether one of both is known.
fn is_known(case: &Case, apart: &Apart, alloc: Global) -> Result<bool, PathFault> {
    let is_ahead = is_so_nearby(case, &apart.ahead, alloc)?;
    let is_end = is_so_nearby(case, &apart.end, alloc)?;
    Ok(is_ahead || is_end)
}

// The case once more, with one constraint more.
fn case_with(case: &Case, form: Form, alloc: Global) -> Result<Case, PathFault>
    ensures { IfOk result (λ more. IsWith case.now form more) }
{
    let forms = copied_forms(&case.forms, alloc)?;
    let mut constraints = copied_constraints(&case.constraints, alloc)?;
    constraints.push(form)?;
    let shape = copied_shape(&case.shape, alloc)?;
    Ok(Case {
        symbols: case.symbols,
        forms,
        constraints,
        shape,
    })
}

// The spot with one constraint more.
fn spot_with(spot: &NodeCase, form: Form, alloc: Global) -> Result<NodeCase, PathFault>
    ensures number { IfOk result (λ more. more.number ≡ spot.now.number) }
    ensures case { IfOk result (λ more. IsWith spot.now.case form more.case) }
{
    let case = case_with(&spot.case, form, alloc)?;
    Ok(NodeCase {
        number: spot.number,
        case,
    })
}

// The spot twice, each time with one of both as a constraint more.
fn spots_with(spot: &NodeCase, apart: Apart, alloc: Global) -> Result<Vec<NodeCase>, PathFault>
    ensures { IfOk result (λ spots. AreHalves apart.ahead apart.end → (course : Course)
        → All (LeadsOn course) spots.items → LeadsOn course spot.now) }
{
    let Apart { ahead, end } = apart;
    let mut spots = Vec::new(alloc);
    spots.push(spot_with(spot, ahead, alloc)?)?;
    spots.push(spot_with(spot, end, alloc)?)?;
    Ok(spots)
}

/// The spot where its pointer is in front of the end of the buffer, and where it is there. Where one of
/// both is known, there is nothing to tell apart, and what is claimed at the node is not implied.
pub fn halves(spot: &NodeCase, alloc: Global) -> Result<Vec<NodeCase>, PathFault>
    ensures { IfOk result (λ spots. (course : Course) → All (LeadsOn course) spots.items
        → LeadsOn course spot.now) }
{
    let apart = halves_of(&spot.case, alloc)?;
    if is_known(&spot.case, &apart, alloc)? {
        return Err(PathFault::Claims(spot.number));
    }
    spots_with(spot, apart, alloc)
}
