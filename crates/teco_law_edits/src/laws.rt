//! Laws of edits.
ghost use Rattle.teco_law_edits.specs.Bounds.{StrictEditsAreBounded};
ghost use Rattle.teco_law_edits.specs.Changed.{StrictEditsMakeChanged};
ghost use Rattle.teco_law_edits.specs.Strict.{StrictEditsCannotFail};
ghost use Rattle.teco_law_edits.specs.Texts.{TextsEnd};

use teco_law_runs::laws::runs_end_once;
use teco_poly::laws::values_grow;

/// Where each command string of an edit ends: those that turn pages, go to the start, and close.
pub fn texts_end()
    ensures { TextsEnd }
{}

/// An edit on strict terms, of a file that is there and fits, comes to no code, but for want of
/// memory or a fault of the host.
pub fn strict_edits_cannot_fail()
    ensures { StrictEditsCannotFail }
{
    values_grow();
    runs_end_once();
    texts_end();
}

/// Its runs together take at most the sum of their printed numbers of commands.
pub fn strict_edits_are_bounded()
    ensures { StrictEditsAreBounded }
{
    values_grow();
}

/// Where it comes to no code and is not refused, the new text is got from the old one by no more than the
/// macro's elements can do.
pub fn strict_edits_make_changed()
    ensures { StrictEditsMakeChanged }
{
    values_grow();
    runs_end_once();
    texts_end();
}
