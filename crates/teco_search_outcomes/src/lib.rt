//! What searches and commands on pages do to states that are known by linear forms.
#![tactic(auto)]

pub mod page_searches;
pub mod pages;
pub mod patterns;
pub mod searches;
