//! Why a table is not known to be closed.

/// Why a table is not known to be closed.
#[derive(Clone, Copy)]
pub enum Bad {
    /// A condition fails at the node of this number.
    Edge { node: usize },
    /// A growth was refused.
    Memory,
}
