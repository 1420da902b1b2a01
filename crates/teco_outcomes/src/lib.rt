//! What elements do to states of the command machine that are known by linear forms, each by rows
//! of changes and inequalities.
#![tactic(auto)]

pub mod elements;
