//! What every part of the command machine speaks of: codes, register names, 32-bit arithmetic, byte
//! classes and number texts. Nothing here takes memory.
#![tactic(auto)]

pub mod arithmetic;
pub mod bytes;
mod code;
mod number_text;
mod reg;

pub use code::Code;
pub use number_text::{NumberText, decimal, hex, octal};
pub use reg::Reg;

/// How many characters the buffer, a text, a command string, a library or an input file may have.
pub const LIMIT: usize = 268_435_456;

/// How many registers there are.
pub const REGISTERS: usize = 36;
