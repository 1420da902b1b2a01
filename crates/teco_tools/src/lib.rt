//! Sessions over scripts, and what they share with edits of files: hosts over standard streams, texts
//! of registers, and what is said of codes.
#![tactic(auto)]

mod escaping;
mod fault;
mod machines;
mod messages;
mod prompting;
mod reporting;
mod running;
mod setting;
mod strings;
mod telling;

pub use escaping::Escaping;
pub use fault::ToolFault;
pub use machines::{machine_with, within_limit};
pub use messages::tell_anyway;
pub use prompting::Prompting;
pub use reporting::{Reporting, tell_trouble};
pub use running::{Run, run_scripts};
pub use setting::{Start, prepare};
pub use teco_streams::{INPUT, OUTPUT, Streams, told_name};
pub use telling::{code_of, size_of, tell_macro};
