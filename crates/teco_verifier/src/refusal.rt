//! Why a library or a certificate is refused.

/// The reasons, as they are printed.
#[derive(Clone, Copy)]
pub enum RefusalReason {
    /// X1: it is no library file.
    Library,
    /// X2: a fault in a text, or in a search text.
    Fault,
    /// X3: an element of flow without its partner.
    Partner,
    /// X4: an argument may be missing, or one that is not allowed.
    Argument,
    /// X5: arguments are pending where ways meet, or where an iteration begins.
    Pending,
    /// X6: a place may be outside the buffer.
    Place,
    /// X7: a deletion may be too long.
    Deletion,
    /// X8: a divisor may be 0.
    Divisor,
    /// X9: nothing is known to fall from turn to turn.
    Fall,
    /// X10: no bound stands.
    Bound,
    /// X11: a called register is not in the library.
    Missing,
    /// X12: a text calls itself.
    Recursion,
    /// X13: a text of the library would be written.
    Written,
    /// X14: a pop below what was pushed, or ways that meet with different pushes.
    Pop,
    /// X15: an element that is not verified.
    Unverified,
    /// X16: too many elements, open iterations or open calls.
    Size,
    /// X17: a polynomial overflows.
    Overflow,
    /// X18: a bad certificate.
    Certificate,
}
