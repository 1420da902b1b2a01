//! What each element does to what is known before it; and the verifier's tables in code: whether
//! one is closed, what is printed of it, and how one is derived.
#![tactic(auto)]

mod arrived;
mod bad;
mod behind;
mod bodies;
mod chosen;
mod closed;
mod derivation;
mod here;
mod iterations;
mod loops;
mod node;
mod printed;
mod same;
mod table;
mod transfer;

pub use bad::Bad;
pub use bodies::begins_iteration;
pub use chosen::choice_for;
pub use closed::check;
pub use derivation::{NotDerived, derive};
pub use here::Here;
pub use iterations::{changes_in, end_of};
pub use loops::{has_iterations, line_of, loops_of, register_at};
pub use printed::{Overflow, commands, needs_in, size};
pub use table::{Row, Table, are_kept};
pub use transfer::{Edges, Placed, needs_of, return_from, steps, transfer_from, turns};
