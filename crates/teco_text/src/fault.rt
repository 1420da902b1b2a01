//! Why a call on a text is refused.
ghost use Rattle.std.specs.Prelude.{◌≡◌};
ghost use Rattle.teco_text.specs.declared.fault.TextFault.TheVariants.{Memory};

use std::alloc::AllocError;
use thiserror::Error;

/// Why a call on a text is refused. The text and its pointer are then as they were.
#[derive(Clone, Copy, Debug, Error)]
pub enum TextFault {
    /// A place lies outside the text, or the first place of a part lies behind its second.
    #[error("a place outside the text")]
    Off,
    /// The text would have more than `LIMIT` characters.
    #[error("the text would be too long")]
    Full,
    /// Memory for the text, or for the copy of a part, was refused.
    #[error("out of memory")]
    Memory,
}

impl From<AllocError> for TextFault {
    ghost from_gives = { λ _ e. e ≡ Memory };

    fn from(_refused: AllocError) -> TextFault {
        TextFault::Memory
    }
}
