//! What is visited on the walk through the texts.
use crate::few::OpenList;
use crate::spot::Stand;

/// Where it stands, and the places of the registers whose texts are open there, the innermost
/// first.
#[derive(Clone, Copy)]
pub struct Visit {
    pub stand: Stand,
    pub registers: OpenList<usize>,
}
