//! Iterations that were begun.

use teco_model::Loop;

/// An iteration that is open, and where its turns start.
#[derive(Clone, Copy)]
pub struct Begun {
    /// The iteration.
    pub turn: Loop,
    /// The number of the entry where its body starts.
    pub number: usize,
}
