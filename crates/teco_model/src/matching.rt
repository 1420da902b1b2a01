//! Laws of matches and searches.
ghost use Rattle.teco_model.specs.rows.Matches.{MatchRows};
ghost use Rattle.teco_model.specs.laws.Matching.{OneEnd, HereFinds, FirstFinds, LastFinds, ForwardFinds};
ghost use Rattle.teco_model.specs.laws.Matching.{BackwardFinds, NoneIsShorter};

/// A start has at most one end.
pub fn one_end()
    ensures { OneEnd }
{}

/// At a place its match is found, and nothing only where it has none.
pub fn here_finds()
    ensures { HereFinds }
{}

/// From a place on the match of the least start is found, and nothing only where there is none.
pub fn first_finds()
    ensures { FirstFinds }
{}

/// Before a place the match of the greatest start is found, and nothing only where there is none.
pub fn last_finds()
    ensures { LastFinds }
{}

/// Forward the nth match is found, each from the end of the last, and nothing only where there
/// are fewer.
pub fn forward_finds()
    ensures { ForwardFinds }
{}

/// Backward the nth match is found, with descending starts, and nothing only where there are fewer.
pub fn backward_finds()
    ensures { BackwardFinds }
{}

/// No match is shorter than the least length of its search text.
pub fn none_is_shorter()
    ensures { NoneIsShorter }
{}

/// The definition gives what search texts and searches worked by hand give.
pub fn match_rows()
    ensures { MatchRows }
{}
