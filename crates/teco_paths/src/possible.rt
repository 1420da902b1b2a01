//! Of cases those that may be.
ghost use Rattle.std.specs.Prelude.{IfOk};
ghost use Rattle.teco_paths.specs.Steps.{ArePossible};

use crate::fault::PathFault;
use std::alloc::Global;
use teco_implied::is_impossible;
use teco_rows::case::Case;

/// The most cases that an element may have.
pub const MOST_CASES: usize = 4096;

/// The cases as which a state may be. So many constraints of each are known to hold together.
pub fn possible(cases: Vec<Case>, known: usize, alloc: Global) -> Result<Vec<Case>, PathFault>
    ensures { IfOk result (λ found. ArePossible cases.items found.items) }
{
    let mut rest = cases;
    let mut found = Vec::new(alloc);
    'cases: for _ in 0..MOST_CASES {
        let Some(case) = rest.pop() else {
            return Ok(found);
        };
        let is_none = is_impossible(&case, known, alloc)?;
        if !is_none {
            found.push(case)?;
        }
    }
    Err(PathFault::TooLong)
}
