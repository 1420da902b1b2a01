//! One node.
use crate::few::OpenList;
use crate::spot::Stand;

/// Where it stands, the place of the register whose text that is, and the numbers that its ways
/// lead to. What is read there is read of the text again.
#[derive(Clone, Copy)]
pub struct Node {
    pub stand: Stand,
    pub register: usize,
    pub ways: OpenList<usize>,
    pub names_macro: bool,
}
