//! Search texts of characters that are looked for and of ^ES.
ghost use Rattle.std.specs.Prelude.{◌≡◌, IsTrue};
ghost use Rattle.teco_change_policies.specs.Simple as model;
ghost use Rattle.teco_change_policies.specs.Simple.{IsSimple};

use crate::pieces::begins_more;

/// What of ^ES has been read.
#[derive(Clone, Copy)]
pub enum Mark {
    /// Nothing.
    Nothing,
    /// A caret.
    Caret,
    /// ^E, which may be a caret and an E.
    Extended,
}

// What has been read behind a byte; `None` where it begins anything else.
fn behind(mark: Mark, b: u8) -> Option<Mark>
    ensures { result ≡ model.behind mark b }
{
    match mark {
        Mark::Nothing => match b {
            b'^' => Some(Mark::Caret),
            5 => Some(Mark::Extended),
            _ => if begins_more(b) {
                None
            } else {
                Some(Mark::Nothing)
            },
        },
        Mark::Caret => if b == b'E' || b == b'e' {
            Some(Mark::Extended)
        } else {
            None
        },
        Mark::Extended => if b == b'S' || b == b's' {
            Some(Mark::Nothing)
        } else {
            None
        },
    }
}

/// Is a search text made of characters that are looked for and of ^ES?
pub(crate) fn is_simple(text: &[u8]) -> bool
    ensures { IsTrue result → IsSimple text.now }
{
    let mut mark = Mark::Nothing;
    for b in text {
        match behind(mark, *b) {
            Some(next) => mark = next,
            None => return false,
        }
    }
    matches!(mark, Mark::Nothing)
}
