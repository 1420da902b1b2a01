//! Laws of expansions, and of the runs along them.
ghost use Rattle.teco_law_runs.specs.Alike.{ReadingsAreAlike, RunsAreAlike, StepsAreAlike};
ghost use Rattle.teco_law_runs.specs.Ends.{IterationsEnd, LeftHaveEnded};
ghost use Rattle.teco_law_runs.specs.Framing.{StepsShift};
ghost use Rattle.teco_law_runs.specs.Given.{NumbersArePending};
ghost use Rattle.teco_law_runs.specs.Iterations.{IterationsAreOpen};
ghost use Rattle.teco_law_runs.specs.Keeping.{RunsLeaveOpen};
ghost use Rattle.teco_law_runs.specs.Leading.{WaysLead};
ghost use Rattle.teco_law_runs.specs.Linked.{ExpansionsAreLinked, ExpansionsAreSmall, NodesAreSound};
ghost use Rattle.teco_law_runs.specs.Linked.{NodesHaveTexts};
ghost use Rattle.teco_law_runs.specs.Loaded.{LoadingLoads, StaysLoaded, StepsKeep};
ghost use Rattle.teco_law_runs.specs.Places.{NodesHavePlaces};
ghost use Rattle.teco_law_runs.specs.Rows.{WorkedExpansions};
ghost use Rattle.teco_law_runs.specs.Run.{RunsComeToNodes, RunsEnd, StepsGoAlongNodes};
ghost use Rattle.teco_law_runs.specs.Staying.{FilesStayOpen};
ghost use Rattle.teco_law_runs.specs.Steps.{StepsGoWays};
ghost use Rattle.teco_law_runs.specs.Sure.{RunsAreSure, RunsEndOnce};
ghost use Rattle.teco_law_runs.specs.Wholeness.{WholeIsKept};

/// The definition gives the expansions that are worked by hand.
pub fn worked_expansions()
    ensures { WorkedExpansions }
{}

/// A step goes one of the ways from where it stands, or stays at an element of several steps.
pub fn steps_go_ways()
    ensures { StepsGoWays }
{}

/// A library is loaded where its texts are put into their registers.
pub fn loading_loads()
    ensures { LoadingLoads }
{}

/// A step keeps each register that its element does not name, each text that it does not write, and
/// the search mode, unless it is set.
pub fn steps_keep()
    ensures { StepsKeep }
{}

/// A step with `[` puts a pair on the push-down list, one with `]` takes one off, and any other keeps it.
pub fn steps_shift()
    ensures { StepsShift }
{}

/// A library stays loaded through each step that writes none of its registers.
pub fn stays_loaded()
    ensures { StaysLoaded }
{}

/// The nodes of an expansion are linked.
pub fn expansions_are_linked()
    ensures { ExpansionsAreLinked }
{}

/// An expansion has no more elements, open calls and open iterations than there may be.
pub fn expansions_are_small()
    ensures { ExpansionsAreSmall }
{}

/// What is read at a linked node is an element of its text, or its end, and a search text there
/// says a pattern.
pub fn nodes_are_sound()
    ensures { NodesAreSound }
{}

/// A node has the register of its text.
pub fn nodes_have_texts()
    ensures { NodesHaveTexts }
{}

/// A node has the place of its element, and a return that of the end of its text.
pub fn nodes_have_places()
    ensures { NodesHavePlaces }
{}

/// A node has the numbers of the iterations that are open where it stands.
pub fn iterations_are_open()
    ensures { IterationsAreOpen }
{}

/// An iteration that is open at a node ends there or ahead, by one `>` alone.
pub fn iterations_end()
    ensures { IterationsEnd }
{}

/// Iterations that are left on the way to a later number have ended before it.
pub fn left_have_ended()
    ensures { LeftHaveEnded }
{}

/// A way leads to the number, and with the iterations open, that its element says.
pub fn ways_lead()
    ensures { WaysLead }
{}

/// From a linked node each step goes one of the node's ways, to where the machine stands then.
pub fn steps_go_along_nodes()
    ensures { StepsGoAlongNodes }
{}

/// A run of a macro stands at linked nodes alone, and at the end.
pub fn runs_come_to_nodes()
    ensures { RunsComeToNodes }
{}

/// Where a run stands at the end, the next step is the end of the command string.
pub fn runs_end()
    ensures { RunsEnd }
{}

/// States that differ in the text of the command string alone, which only waits or calls, step to
/// such.
pub fn steps_are_alike()
    ensures { StepsAreAlike }
{}

/// Runs from such states go alike.
pub fn runs_are_alike()
    ensures { RunsAreAlike }
{}

/// They read elements of the same kind.
pub fn readings_are_alike()
    ensures { ReadingsAreAlike }
{}

/// A number before a call is like one that is pending.
pub fn numbers_are_pending()
    ensures { NumbersArePending }
{}

/// What always holds of a state holds at the begin of a run, and each step keeps it.
pub fn whole_is_kept()
    ensures { WholeIsKept }
{}

/// Files stay as open as they are, through each step whose element is no command of files.
pub fn files_stay_open()
    ensures { FilesStayOpen }
{}

/// A run has one end: it comes to no other, nor to a code or a limit of steps; but want of memory
/// may stop it before, or the host.
pub fn runs_end_once()
    ensures { RunsEndOnce }
{}

/// A run that ends within some steps, none of them a command of files, stops for nothing but its
/// end, want of memory, or a fault of the host in reading or in writing.
pub fn runs_are_sure()
    ensures { RunsAreSure }
{}

/// At the end of such a run the files are as open as they were, and no more is unread.
pub fn runs_leave_open()
    ensures { RunsLeaveOpen }
{}
