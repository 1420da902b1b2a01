//! Laws of closed tables.
ghost use Rattle.teco_law_tables.specs.Bounded.{IterationsAreBounded, RunsAreDescribed};
ghost use Rattle.teco_law_tables.specs.Ending.{RunsEndInTime};
ghost use Rattle.teco_law_tables.specs.Framing.{RunsAreFramed, RunsChangeAsTold, RunsLeaveBelow};
ghost use Rattle.teco_law_tables.specs.Laws.{CommandsAreSteps, TablesAreClosed};
ghost use Rattle.teco_law_tables.specs.Moving.{StepsMove};
ghost use Rattle.teco_law_tables.specs.Rows.{WorkedTables};
ghost use Rattle.teco_law_tables.specs.Verified.{RunsAreVerified};

/// The definition gives what is worked by hand.
pub fn worked_tables()
    ensures { WorkedTables }
{}

/// The printed number of commands is that of the table of numbers, and of the digits before the
/// call.
pub fn commands_are_steps()
    ensures { CommandsAreSteps }
{}

/// A closed table is closed as a table of numbers.
pub fn tables_are_closed()
    ensures { TablesAreClosed }
{
    teco_law_runs::laws::iterations_are_open();
    teco_law_runs::laws::iterations_end();
    teco_law_turns::laws::nodes_nest();
}

/// A step from where a run is described is a move, to where it is described again.
pub fn steps_move()
    ensures { StepsMove }
{
    teco_law_runs::laws::iterations_are_open();
    teco_law_runs::laws::iterations_end();
    teco_law_runs::laws::left_have_ended();
    teco_law_runs::laws::ways_lead();
}

/// A run of a macro ends without a code within the steps that its table tells, where each element
/// does what the laws of facts say.
pub fn runs_end_in_time()
    ensures { RunsEndInTime }
{
    teco_law_turns::laws::runs_are_bounded();
    teco_law_turns::laws::runs_are_covered();
    teco_law_runs::laws::runs_end();
    tables_are_closed();
    steps_move();
}

/// A macro with a closed table runs to its end without a code, within the printed number of
/// commands, where the files that it needs are open at the start, whatever argument in the declared
/// range it is called with; it opens and closes none.
pub fn runs_are_verified()
    ensures { RunsAreVerified }
{
    teco_law_facts::sound::steps_are_sound();
    teco_law_facts::sound::later_steps_are_sound();
    teco_law_facts::sound::elements_are_named();
    teco_law_runs::laws::whole_is_kept();
    teco_law_runs::laws::steps_go_along_nodes();
    teco_law_runs::laws::stays_loaded();
    teco_law_runs::laws::nodes_are_sound();
    teco_law_runs::laws::iterations_end();
    teco_law_runs::laws::steps_are_alike();
    teco_law_runs::laws::runs_are_alike();
    teco_law_runs::laws::readings_are_alike();
    teco_law_runs::laws::numbers_are_pending();
    teco_law_runs::laws::files_stay_open();
    runs_end_in_time();
}

/// Wherever an element begins in a run of a macro with a closed table, what the table knows there
/// describes the run; or the run is over.
pub fn runs_are_described()
    ensures { RunsAreDescribed }
{
    teco_law_facts::sound::steps_are_sound();
    teco_law_facts::sound::later_steps_are_sound();
    teco_law_facts::sound::elements_are_named();
    teco_law_runs::laws::whole_is_kept();
    teco_law_runs::laws::steps_go_along_nodes();
    teco_law_runs::laws::stays_loaded();
    teco_law_runs::laws::nodes_are_sound();
    teco_law_runs::laws::iterations_end();
    teco_law_runs::laws::runs_end();
    teco_law_turns::laws::runs_are_bounded();
    teco_law_turns::laws::runs_are_covered();
    teco_law_runs::laws::files_stay_open();
    tables_are_closed();
    steps_move();
}

/// Wherever a run of a macro with a closed table comes to, the registers that no element of the macro
/// names are as they were, and so is the search mode, where none may set it.
pub fn runs_are_framed()
    ensures { RunsAreFramed }
{
    teco_law_facts::sound::steps_are_sound();
    teco_law_facts::sound::later_steps_are_sound();
    teco_law_facts::sound::elements_are_named();
    teco_law_runs::laws::whole_is_kept();
    teco_law_runs::laws::steps_go_along_nodes();
    teco_law_runs::laws::stays_loaded();
    teco_law_runs::laws::nodes_are_sound();
    teco_law_runs::laws::iterations_end();
    teco_law_runs::laws::runs_end();
    teco_law_runs::laws::steps_keep();
    teco_law_runs::laws::steps_are_alike();
    teco_law_runs::laws::runs_are_alike();
    teco_law_runs::laws::readings_are_alike();
    teco_law_runs::laws::numbers_are_pending();
    teco_law_turns::laws::runs_are_bounded();
    teco_law_turns::laws::runs_are_covered();
    teco_law_runs::laws::files_stay_open();
    tables_are_closed();
    steps_move();
}

/// At the end of such a run the push-down list of its entry lies below what it pushed and did not
/// pop.
pub fn runs_leave_below()
    ensures { RunsLeaveBelow }
{
    teco_law_facts::sound::steps_are_sound();
    teco_law_facts::sound::later_steps_are_sound();
    teco_law_facts::sound::elements_are_named();
    teco_law_runs::laws::whole_is_kept();
    teco_law_runs::laws::steps_go_along_nodes();
    teco_law_runs::laws::stays_loaded();
    teco_law_runs::laws::nodes_are_sound();
    teco_law_runs::laws::iterations_end();
    teco_law_runs::laws::runs_end();
    teco_law_runs::laws::steps_are_alike();
    teco_law_runs::laws::runs_are_alike();
    teco_law_runs::laws::readings_are_alike();
    teco_law_runs::laws::numbers_are_pending();
    teco_law_turns::laws::runs_are_bounded();
    teco_law_turns::laws::runs_are_covered();
    teco_law_runs::laws::files_stay_open();
    tables_are_closed();
    steps_move();
}

/// At the end of such a run the text is changed by what is told of the nodes.
pub fn runs_change_as_told()
    ensures { RunsChangeAsTold }
{
    teco_law_facts::sound::steps_are_sound();
    teco_law_facts::sound::later_steps_are_sound();
    teco_law_facts::sound::elements_are_named();
    teco_law_runs::laws::whole_is_kept();
    teco_law_runs::laws::steps_go_along_nodes();
    teco_law_runs::laws::stays_loaded();
    teco_law_runs::laws::nodes_are_sound();
    teco_law_runs::laws::iterations_end();
    teco_law_runs::laws::runs_end();
    teco_law_runs::laws::steps_are_alike();
    teco_law_runs::laws::runs_are_alike();
    teco_law_runs::laws::readings_are_alike();
    teco_law_runs::laws::numbers_are_pending();
    teco_law_turns::laws::runs_are_bounded();
    teco_law_turns::laws::runs_are_covered();
    teco_law_runs::laws::files_stay_open();
    teco_law_changes::laws::ends_are_told();
    tables_are_closed();
    steps_move();
}

/// Each iteration that a run of a macro with a closed table enters takes at most the turns that the
/// table tells.
pub fn turns_are_bounded()
    ensures { IterationsAreBounded }
{
    teco_law_facts::sound::steps_are_sound();
    teco_law_facts::sound::later_steps_are_sound();
    teco_law_facts::sound::elements_are_named();
    teco_law_runs::laws::whole_is_kept();
    teco_law_runs::laws::steps_go_along_nodes();
    teco_law_runs::laws::stays_loaded();
    teco_law_runs::laws::nodes_are_sound();
    teco_law_runs::laws::iterations_end();
    teco_law_runs::laws::runs_end();
    teco_law_turns::laws::runs_are_bounded();
    teco_law_turns::laws::runs_are_covered();
    teco_law_turns::laws::turns_are_bounded();
    teco_law_runs::laws::files_stay_open();
    tables_are_closed();
    steps_move();
}
