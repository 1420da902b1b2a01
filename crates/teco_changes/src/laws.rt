//! Laws of changes.
ghost use Rattle.teco_changes.specs.Laws.{ChangesAreAmong, ChangesFollow, ChangesStandAnywhere};
ghost use Rattle.teco_changes.specs.Rows.{ElementRows};
ghost use Rattle.teco_changes.specs.Told.{CommandsAreTold, QueriesAreTold, ReplacementsAreTold};

/// What changes do to a text they can do to it within a longer one.
pub fn changes_stand_anywhere()
    ensures { ChangesStandAnywhere }
{}

/// Changes follow one another.
pub fn changes_follow()
    ensures { ChangesFollow }
{}

/// The changes of a list are among those of a longer one.
pub fn changes_are_among()
    ensures { ChangesAreAmong }
{}

/// The definition tells of elements what is worked by hand.
pub fn element_rows()
    ensures { ElementRows }
{}

/// Each command does to the buffer what is told of it.
pub fn commands_are_told()
    ensures { CommandsAreTold }
{}

/// FS does, where it finds.
pub fn replacements_are_told()
    ensures { ReplacementsAreTold }
{}

/// A number that is put is written with digits and a minus.
pub fn queries_are_told()
    ensures { QueriesAreTold }
{}
