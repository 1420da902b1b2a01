//! What comes of a command that may go several ways.
ghost use Rattle.std.specs.Prelude.{IfOk};
ghost use Rattle.teco_query_outcomes.specs.Ways.{GoesAnyWay};

use std::alloc::Global;
use teco_linear::Form;
use teco_rows::case::Case;
use teco_rows::commands::{Way, commands};
use teco_rows::fault::RowFault;
use teco_rows::levels::at_level;
use teco_rows::outcomes::Outcomes;

/// What comes of a command that goes one of these ways, and asks for no condition.
pub fn any_way(
    case: &Case,
    ways: &[Way],
    given: &[Form],
    alloc: Global,
) -> Result<Outcomes, RowFault>
    ensures { IfOk result (λ all. GoesAnyWay case.now ways.now given.now all) }
{
    let here = at_level(case)?;
    let cases = commands(case, ways, given, here, alloc)?;
    Ok(Outcomes {
        conditions: Vec::new(alloc),
        guarded: Vec::new(alloc),
        cases,
        away: Vec::new(alloc),
    })
}
