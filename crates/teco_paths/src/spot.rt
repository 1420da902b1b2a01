//! Where a path has come to.

use teco_rows::case::Case;

/// A node by its number, and a case that describes the states there.
#[derive(Drop)]
pub struct NodeCase {
    pub number: usize,
    pub case: Case,
}
