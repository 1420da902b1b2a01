//! Laws of what hosts note.
ghost use Rattle.teco_hosts.specs.Possible.{NotesFit};

/// Some files of bytes fit what was noted of bytes, whatever output was open, where nothing is read
/// behind the end of an input and no input is opened that was opened before.
pub fn notes_fit()
    ensures { NotesFit }
{}
