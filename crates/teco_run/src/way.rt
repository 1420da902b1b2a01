//! How the running text goes on.
ghost use Rattle.std.specs.Prelude.{◌≡◌};

use teco_model::Loop;

/// How the running text goes on.
#[derive(Clone, Copy)]
pub enum Continuation {
    /// To a place, out of some of the open iterations.
    To { place: usize, leaves: u32 },
    /// Into the body of an iteration that begins.
    Into(Loop),
    /// Back to the start of the innermost iteration, which has fewer turns now.
    Back(Loop),
}

/// To a place, with the same iterations open.
pub fn to(place: usize) -> Continuation
    ensures { result ≡ Continuation.To place 0 }
{
    Continuation::To { place, leaves: 0 }
}
