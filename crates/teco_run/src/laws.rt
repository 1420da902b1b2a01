//! What follows from what is promised of runs.
ghost use Rattle.teco_run.specs.Determined.{RunsAreDetermined};

/// Two runs from one state that end, over any store and host, answer the same and leave one world.
pub fn runs_are_determined()
    ensures { RunsAreDetermined }
{}
