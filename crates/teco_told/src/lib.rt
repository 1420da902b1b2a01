//! What is told of a macro before it runs: the changes of all elements of its expansion.
#![tactic(auto)]

mod behind;
mod beyond;
mod characters;
mod element;
mod firsts;
mod implied;
mod known;
mod last;
mod list;
mod near;
mod nearby;
mod number;
mod promised;
mod same;
mod table;
mod told;

pub use element::changes_of;
pub use known::facts_of_promise;
pub use promised::changes_of_promise;
pub use told::changes_of_macro;
