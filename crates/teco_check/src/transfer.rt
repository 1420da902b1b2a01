//! What each element does to what is known before it.
mod deletion;
mod edges;
mod flow;
mod motion;
mod pages;
mod printed;
mod query;
mod search;
mod storage;
mod typing;
mod ways;

pub use self::edges::{Placed, return_from, transfer_from};
pub use self::flow::{Edges, turns};
use self::motion::count_of;
pub use self::printed::{needs_of, steps};
use self::typing::{needed_value, part_named};
use self::ways::Numbers;
