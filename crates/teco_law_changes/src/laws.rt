//! Laws of what a run changes.
ghost use Rattle.teco_law_changes.specs.Runs.{EndsAreTold, RunsAreTold};
ghost use Rattle.teco_law_changes.specs.Steps.{StepsAreTold, StepsAreToldWith, StepsGiveNoFirst};
ghost use Rattle.teco_law_changes.specs.Steps.{StepsGoOn, StepsLeaveArguments, StepsLeaveNear};

/// Each step changes the text by what is told of its element.
pub fn steps_are_told()
    ensures { StepsAreTold }
{}

/// Where something is known of the numeric argument, it changes the text by what is told with that.
pub fn steps_are_told_with()
    ensures { StepsAreToldWith }
{}

/// Behind each element that is known which it leaves.
pub fn steps_leave_arguments()
    ensures { StepsLeaveArguments }
{}

/// So it is of what is known near the pointer.
pub fn steps_leave_near()
    ensures { StepsLeaveNear }
{}

/// An element of several steps that goes on is read again, and a search looks for its own text.
pub fn steps_go_on()
    ensures { StepsGoOn }
{}

/// No first argument is pending behind an element that gives none, if none was before it.
pub fn steps_give_no_first()
    ensures { StepsGiveNoFirst }
{}

/// A run of a macro changes the text by what is told of the elements of its nodes.
pub fn runs_are_told()
    ensures { RunsAreTold }
{
    teco_law_runs::laws::stays_loaded();
}

/// At the end of such a run the text is changed so.
pub fn ends_are_told()
    ensures { EndsAreTold }
{
    teco_law_runs::laws::stays_loaded();
}
