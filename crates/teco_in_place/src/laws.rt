//! What becomes of files that are edited in place.
ghost use Rattle.teco_in_place.specs.InPlace.{FilesAreReplaced};

/// Whatever files there were, each has the new text that the calls gave it by the definition, where that
/// was closed and is not only tried; and else it is as it was.
pub fn files_are_replaced()
    ensures { FilesAreReplaced }
{}
