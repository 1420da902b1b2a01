//! Laws of facts alone: what they say of a state, and rows of them.
ghost use Rattle.teco_law_facts.specs.Laws.{WaysAreSound, CoversAreSound, JoinsAreSound, EntryIsSound};
ghost use Rattle.teco_law_facts.specs.Laws.{BodyStartsAreSound, ReturnsAreSound, TurnsFall, RoomIsSound, LibraryStays};
ghost use Rattle.teco_law_facts.specs.Rows.{FactRows};

/// The way that a number takes is reached, and what is known on it holds.
pub fn ways_are_sound()
    ensures { WaysAreSound }
{}

/// What covers facts that describe a state describes it.
pub fn covers_are_sound()
    ensures { CoversAreSound }
{}

/// Where ways meet, what is known of both describes what either describes.
pub fn joins_are_sound()
    ensures { JoinsAreSound }
{}

/// What is known at the entry is true.
pub fn entry_is_sound()
    ensures { EntryIsSound }
{}

/// The start of a body, where its choice begins, describes what enters it.
pub fn body_starts_are_sound()
    ensures { BodyStartsAreSound }
{}

/// Where a choice returns, the start of the body describes the state behind the end of a turn.
pub fn returns_are_sound()
    ensures { ReturnsAreSound }
{}

/// Without a count less is ahead behind each turn.
pub fn turns_fall()
    ensures { TurnsFall }
{}

/// Where there is room, at the start of the last turn no more is held than was chosen.
pub fn room_is_sound()
    ensures { RoomIsSound }
{}

/// What is known along texts that were worked by hand.
pub fn fact_rows()
    ensures { FactRows }
{}

/// No text of the library is written.
pub fn library_stays()
    ensures { LibraryStays }
{}
