//! The law of the codes of steps.
ghost use Rattle.teco_model.specs.laws.StepCodes.{StepsTellTheirCodes};

/// A step is never LIM, MEM, FNF, INP or OUT: these are typed for stops that are no command's
/// fault.
pub fn codes_of_steps()
    ensures { StepsTellTheirCodes }
{}
