//! The definition of the command machine, in `specs/`, and the plain types that it speaks of. It
//! knows nothing of how the machine is built.
#![tactic(auto)]

pub mod arguments;
pub mod codes;
pub mod element;
pub mod flow;
pub mod head;
pub mod kind;
pub mod macros;
pub mod matching;
pub mod pattern;
pub mod rows;
pub mod session;
pub mod skip;
pub mod stop;
mod whole;

pub use arguments::{Level, Operator, Taken};
pub use element::Element;
pub use flow::Loop;
pub use head::{Head, OnRegister, TextShape};
pub use kind::Kind;
pub use macros::{ArgumentRange, Needs};
pub use pattern::{Sought, Span};
pub use session::Limits;
pub use skip::{Bracket, Pairs, Route, Skip};
pub use stop::{HostFault, Stop};
pub use whole::{are_bytes, fits, pieces_are_bytes};
