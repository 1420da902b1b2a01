//! Laws of runs over tables.
ghost use Rattle.teco_law_turns.specs.Edges.{EdgesGo};
ghost use Rattle.teco_law_turns.specs.Listed.{CommandsAreSum};
ghost use Rattle.teco_law_turns.specs.Machines.{MachinesEnd};
ghost use Rattle.teco_law_turns.specs.Moves.{RunsAreBounded};
ghost use Rattle.teco_law_turns.specs.Needed.{GrowthIsNeeded, OwnFallIsNeeded};
ghost use Rattle.teco_law_turns.specs.Nests.{NodesNest};
ghost use Rattle.teco_law_turns.specs.Turns.{RunsAreCovered, TurnsAreBounded};
ghost use Rattle.teco_law_turns.specs.Worked.{WorkedIsTight};

/// In a closed table every run takes at most the printed number of steps.
pub fn runs_are_bounded()
    ensures { RunsAreBounded }
{}

/// A machine that follows a closed table has ended after the printed number of steps.
pub fn machines_end<M>()
    ensures { MachinesEnd M }
{}

/// In a closed table every state that a run comes to is covered.
pub fn runs_are_covered()
    ensures { RunsAreCovered }
{}

/// In a closed table a loop takes, each time that it is entered, at most the turns that the table
/// has.
pub fn turns_are_bounded()
    ensures { TurnsAreBounded }
{}

/// An element that does no more than its edge says goes on.
pub fn edges_go()
    ensures { EdgesGo }
{}

/// Where one pass over the nodes tells the loops round them, each loop lies as a closed table wants
/// it.
pub fn nodes_nest()
    ensures { NodesNest }
{}

/// What is printed of a list of nodes is the sum over its nodes.
pub fn commands_are_sum()
    ensures { CommandsAreSum }
{}

/// There is a table and a run that takes all the steps that are printed.
pub fn worked_is_tight()
    ensures { WorkedIsTight }
{}

/// Without an own fall of at least 0 a kept loop may go on without end, whatever else a closed
/// table says.
pub fn own_fall_is_needed()
    ensures { OwnFallIsNeeded }
{}

/// Where a loop grows more in a turn than its growth, a run may take more steps than are printed,
/// whatever else a closed table says.
pub fn growth_is_needed()
    ensures { GrowthIsNeeded }
{}
