//! What follows from what is promised of edits.
ghost use Rattle.teco_jobs.specs.Strict.{StrictRunsAreSure};

use teco_poly::laws::values_grow;

/// A run that strict terms admit ends within the printed number of commands, and without a code; or
/// want of memory stops it, or the host.
pub fn strict_runs_are_sure()
    ensures { StrictRunsAreSure }
{
    values_grow();
}
