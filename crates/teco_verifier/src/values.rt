//! What is known of numbers, and of where the pointer is.

/// A number that is `ahead` times the distance of the pointer from the end, and `behind` times that
/// from the begin, and something from `lo` to `hi`; where it is `saved`, it is a place of the
/// buffer.
#[derive(Clone, Copy)]
pub struct Value {
    pub ahead: i64,
    pub behind: i64,
    pub lo: i64,
    pub hi: i64,
    pub saved: bool,
}

/// The numbers from `lo` to `hi`.
#[derive(Clone, Copy)]
pub struct Interval {
    pub lo: i64,
    pub hi: i64,
}

/// The least distances of the pointer from the begin of the buffer and from its end.
#[derive(Clone, Copy)]
pub struct Distances {
    pub back: u32,
    pub fore: u32,
}
