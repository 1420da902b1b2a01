//! What may come of an element.

use crate::case::Case;
use teco_linear::Form;

/// A condition that is asked in one case alone: where the constraints hold, whatever the values of
/// the symbols from a number on, the form is at least 0.
#[derive(Drop)]
pub struct Guarded {
    pub symbols: u32,
    pub constraints: Vec<Form>,
    pub wanted: Form,
}

/// What may come of an element: where a case describes the state before, and the conditions are at
/// least 0, the guarded ones too, one of these describes the state a step later. It is behind the
/// element for `cases`, and for `away` where it skips to, or at the start of the body that it goes
/// back to.
#[derive(Drop)]
pub struct Outcomes {
    pub conditions: Vec<Form>,
    pub guarded: Vec<Guarded>,
    pub cases: Vec<Case>,
    pub away: Vec<Case>,
}
