//! How macros are verified.

/// An edition of the rules by which macros are verified.
#[derive(Clone, Copy)]
pub enum Edition {
    /// The first: by a table of what is known before each element.
    First,
    /// The second: by claims at loops.
    Second,
}

/// How macros are verified.
#[derive(Clone, Copy)]
pub enum Method {
    /// By this edition of the rules alone.
    Only(Edition),
    /// By the second edition, or by the first where that refuses.
    Best,
}

/// How macros are verified, where the words name that or do not; `is_best` where each edition is
/// tried then, and not the first alone.
pub fn method_for(named: Option<Method>, is_best: bool) -> Method {
    match named {
        Some(method) => method,
        None if is_best => Method::Best,
        None => Method::Only(Edition::First),
    }
}

impl Method {
    /// The edition that says why a macro is refused.
    pub fn newest(self) -> Edition {
        match self {
            Method::Only(edition) => edition,
            Method::Best => Edition::Second,
        }
    }
}
