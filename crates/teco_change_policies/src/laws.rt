//! Laws of changes: which policies follow from them.
ghost use Rattle.teco_change_policies.specs.Laws.{TextIsKept, NothingIsAdded, OnlyTheseAreAdded, OnlyTheseAreTaken};
ghost use Rattle.teco_change_policies.specs.Laws.{LineEndsAreKept, LinesAreKept, OthersAreKept};
ghost use Rattle.teco_change_policies.specs.Laws.{OthersAreLeft, SwapsKeepLines, SwapsKeepOthers};

/// Where no change takes anything, nothing is taken.
pub fn text_is_kept()
    ensures { TextIsKept }
{}

/// Where no change puts anything, nothing is added.
pub fn nothing_is_added()
    ensures { NothingIsAdded }
{}

/// Where each change puts only these characters, only these are added.
pub fn only_these_are_added()
    ensures { OnlyTheseAreAdded }
{}

/// Where each change takes only these characters, only these are taken.
pub fn only_these_are_taken()
    ensures { OnlyTheseAreTaken }
{}

/// Where no change takes or puts a line end, the line ends stay as they are.
pub fn line_ends_are_kept()
    ensures { LineEndsAreKept }
{}

/// Lines are kept too, if both texts end within a line, or neither.
pub fn lines_are_kept()
    ensures { LinesAreKept }
{}

/// Where each change puts some characters in the stead of others, and none is a line end, lines are
/// kept.
pub fn swaps_keep_lines()
    ensures { SwapsKeepLines }
{}

/// Where each change takes matches of one simple search text, and no line end is taken or put, lines
/// without a match stay as they are, if both texts end within a line, or neither.
pub fn others_are_kept()
    ensures { OthersAreKept }
{}

/// Where each puts some characters in the stead of such a match, they stay so in every text.
pub fn swaps_keep_others()
    ensures { SwapsKeepOthers }
{}

/// Where each change takes matches of simple search texts, and no line end is taken or put, lines without a match of
/// one of them stay as they are, though a last line without a line end may come or go.
pub fn others_are_left()
    ensures { OthersAreLeft }
{}
