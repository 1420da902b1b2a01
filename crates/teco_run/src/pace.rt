//! What a step came to.

/// What a step came to.
#[derive(Clone, Copy)]
pub enum Pace {
    /// The next state.
    On,
    /// The end of the command string.
    End,
    /// The end of the session.
    Exit,
}
