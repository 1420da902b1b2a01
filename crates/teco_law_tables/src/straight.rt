//! Laws of straight text.
ghost use Rattle.teco_law_tables.specs.straight_text.Accepted.{StraightTablesAreClosed, StraightTablesPrint};
ghost use Rattle.teco_law_tables.specs.straight_text.Accepted.{StraightTextsAreAccepted};
ghost use Rattle.teco_law_tables.specs.straight_text.Facts.{StraightTablesAreDerived};
ghost use Rattle.teco_law_tables.specs.straight_text.Nodes.{StraightTextsAreExpanded};
ghost use Rattle.teco_law_tables.specs.straight_text.Rows.{WorkedStraightText};

/// The definition takes a text as straight that is so by hand.
pub fn worked_straight_text()
    ensures { WorkedStraightText }
{}

/// A straight text is expanded to its elements, one after another.
pub fn straight_texts_are_expanded()
    ensures { StraightTextsAreExpanded }
{}

/// What is known along it is derived, with nothing chosen.
pub fn straight_tables_are_derived()
    ensures { StraightTablesAreDerived }
{}

/// That table is closed.
pub fn straight_tables_are_closed()
    ensures { StraightTablesAreClosed }
{}

/// Two commands more than it has elements are printed of it, and N with what it inserts.
pub fn straight_tables_print()
    ensures { StraightTablesPrint }
{}

/// Straight text is accepted.
pub fn straight_texts_are_accepted()
    ensures { StraightTextsAreAccepted }
{}
