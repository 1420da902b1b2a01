//! Why a library is not expanded.
ghost use Rattle.std.specs.Prelude.{◌≡◌};
ghost use Rattle.teco_expansion.specs.declared.refusal.ExpandFault.TheVariants.{Memory};

use std::alloc::AllocError;

/// Why a library is not expanded.
#[derive(Clone, Copy)]
pub enum ExpandReason {
    /// An element, or a search text, has a fault.
    Fault,
    /// A bracket, a pipe or a tag has no partner, or pairs overlap.
    Unpaired,
    /// What is called is no macro of the library.
    NoMacro,
    /// A macro calls itself, or one that calls it.
    Recursion,
    /// There are too many elements, open calls or open iterations.
    TooLarge,
}

/// A reason, and the register and the place of the element that has it.
#[derive(Clone, Copy)]
pub struct PlacedReason {
    pub reason: ExpandReason,
    pub register: usize,
    pub place: usize,
}

/// Why there is no expansion.
#[derive(Clone, Copy)]
pub enum ExpandFault {
    /// The definition refuses the library.
    Refused(PlacedReason),
    /// A growth was refused.
    Memory,
}

impl From<AllocError> for ExpandFault {
    ghost from_gives = { λ _ fault. fault ≡ Memory };

    fn from(_refused: AllocError) -> ExpandFault {
        ExpandFault::Memory
    }
}
