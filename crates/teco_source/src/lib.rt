//! Sources: files of TECO text in which a character that can be seen stands for ESC, positions in
//! files, and texts as a terminal can show them.
#![tactic(auto)]

mod excerpt;
mod form;
mod position;
mod script;
mod shown;
mod source;

pub use excerpt::Excerpt;
pub use form::EscapeForm;
pub use position::LineAndByte;
pub use script::text_begin;
pub use shown::{Shown, ShownAs};
pub use source::{Addition, Source};
