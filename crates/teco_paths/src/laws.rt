//! What is so of a macro whose claims hang together.
ghost use Rattle.teco_paths.specs.Sure.{CertainEnd};

/// Where every run of a macro ends in time from where its argument is pending, it does so from the call,
/// leaves what the macro does not name, and changes the text by no more than its elements can do.
pub fn certain_ends()
    ensures { CertainEnd }
{
    teco_law_runs::laws::steps_are_alike();
    teco_law_runs::laws::runs_are_alike();
    teco_law_runs::laws::readings_are_alike();
    teco_law_runs::laws::numbers_are_pending();
    teco_law_runs::laws::steps_keep();
    teco_law_runs::laws::steps_shift();
    teco_law_changes::laws::ends_are_told();
}
