//! What the verifier knows before an element, where ways meet, and in the body of an iteration: of
//! numbers, of pending arguments, of the pointer and of registers.
#![tactic(auto)]

mod arguments;
mod arithmetic;
mod body;
mod covering;
mod each;
mod facts;
mod fall;
mod falls;
mod fault;
mod few;
mod foreseen;
mod iterations;
mod joining;
mod level;
mod margins;
mod number;
mod place;
mod position;
mod range;
mod registers;
mod settling;
mod shift;
pub mod stack;

use arguments::Arguments;
pub use body::{Changes, Choice, body_start, growth_of, held_last};
use each::{Covers, Meets, each_covers, meet_each, replace_where};
pub use facts::{Answer, Facts, Iteration, Pushed, success};
use fall::Fall;
use falls::{OpenFalls, falls_at_start};
pub use fault::FactFault;
use few::{DEPTH, Few};
pub use foreseen::Foreseen;
pub use joining::{joined_lengths, joined_pair};
pub use level::{LevelFacts, TakenFacts, run_value};
pub use margins::Margins;
pub use number::Number;
pub use place::{minus, plus};
use position::join_of;
pub use position::{Position, sum_of};
pub use range::Range;
pub use shift::Shift;
