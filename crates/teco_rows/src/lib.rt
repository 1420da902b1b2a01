//! Cases and rows: what is known of a state of the command machine by linear forms, how a row of
//! changes and inequalities takes a case to the one behind it, and what becomes of pending
//! arguments. What each element does is told above.
#![tactic(auto)]

pub mod applied;
pub mod case;
pub mod commands;
pub mod fault;
pub mod forms;
pub mod levels;
pub mod measure;
pub mod outcomes;
pub mod outside;
pub mod row;
