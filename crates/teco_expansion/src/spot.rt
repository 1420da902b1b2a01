//! Where a run stands.
ghost use Rattle.std.specs.Prelude.{◌≡◌};

use crate::few::OpenList;
use crate::texts::Texts;

/// The place of an element in a text, and the starts of the iterations that are open in it, the
/// innermost first. The text is that of a register, or the command string that calls the entry.
#[derive(Clone, Copy)]
pub struct Spot {
    pub register: Option<usize>,
    pub place: usize,
    pub starts: OpenList<usize>,
}

/// The text that is executed, and those that wait for its end, the newest first.
#[derive(Clone, Copy)]
pub struct TextPosition {
    pub running: Spot,
    pub callers: OpenList<Spot>,
}

/// A position, and the numbers of the `<` whose iterations are open there, the innermost first.
#[derive(Clone, Copy)]
pub struct Stand {
    pub position: TextPosition,
    pub iterations: OpenList<usize>,
}

impl Spot {
    ghost use Rattle.teco_verifier.specs.expansion.Position as model;
    ghost use Rattle.teco_expansion.specs.Few.{listed};
    ghost use Rattle.teco_expansion.specs.Seen.{spot_seen};
    ghost use Rattle.teco_expansion.specs.Texts.{text_of};

    /// Where a text goes on, behind the blanks at a place.
    pub fn at(
        texts: &Texts<'_>,
        register: Option<usize>,
        place: usize,
        starts: OpenList<usize>,
    ) -> Spot
        ensures { spot_seen texts.now result
            ≡ model.spot_at (text_of texts.now register) place (listed starts) }
    {
        Spot {
            register,
            place: texts.behind_blanks(register, place),
            starts,
        }
    }

    /// The beginning of a text.
    pub fn beginning(texts: &Texts<'_>, register: Option<usize>) -> Spot
        ensures { spot_seen texts.now result ≡ model.spot_in (text_of texts.now register) }
    {
        Spot::at(texts, register, 0, OpenList::empty(0))
    }
}

impl TextPosition {
    ghost use Rattle.teco_model.specs.Element.{seen};
    ghost use Rattle.teco_verifier.specs.expansion.Position as model;
    ghost use Rattle.teco_verifier.specs.expansion.Ways as ways;
    ghost use Rattle.teco_expansion.specs.Few.{listed};
    ghost use Rattle.teco_expansion.specs.Seen.{position_seen};

    /// The running text at another place, with other iterations open.
    pub fn moved_to(&self, texts: &Texts<'_>, place: usize, starts: OpenList<usize>) -> TextPosition
        ensures { position_seen texts.now result
            ≡ model.moved_to place (listed starts) (position_seen texts.now self.now) }
    {
        TextPosition {
            running: Spot::at(texts, self.running.register, place, starts),
            callers: self.callers,
        }
    }
}
