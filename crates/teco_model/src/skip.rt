//! Where skips lead.

/// The brackets that a skip counts.
#[derive(Clone, Copy)]
pub enum Pairs {
    /// `<` and `>`.
    Iterations,
    /// `"` and `'`, with the pipe between them.
    Branches,
    /// `"` and `'` alone.
    Tests,
}

/// What an element is to a skip.
#[derive(Clone, Copy)]
pub enum Bracket {
    /// Opens an inner pair.
    Opens,
    /// Closes the pair that it stands in.
    Closes,
    /// A place to stop in the pair that it stands in.
    Stops,
    /// Passed over.
    Passes,
}

/// How an element may jump ahead.
#[derive(Clone, Copy)]
pub enum Route {
    /// Does not jump.
    Nowhere,
    /// Past the end of the pair that it stands in, which may leave that iteration.
    Past { pairs: Pairs, leaves: u32 },
    /// To the end of the pair that it stands in.
    To { pairs: Pairs },
    /// Past a tag.
    ToTag,
}

/// Where an element jumps ahead, and how many iterations that leaves.
#[derive(Clone, Copy)]
pub struct Skip {
    /// The place where execution goes on; `None` where the text ends first, and for what never
    /// jumps.
    pub to: Option<usize>,
    /// How many open iterations are left.
    pub leaves: u32,
}
