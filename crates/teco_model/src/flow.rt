//! Open iterations.

/// An iteration of a text that is executed.
#[derive(Clone, Copy)]
pub struct Loop {
    /// The place where its body starts.
    pub start: usize,
    /// How many turns come after this one; `None` where they are not counted.
    pub turns: Option<u32>,
}
