//! The law of an element, and what elements that change arguments or decide where the text goes on
//! do to states that are known by linear forms.
#![tactic(auto)]

pub mod arguments;
pub mod flow;
pub mod pairs;
pub mod ranges;
