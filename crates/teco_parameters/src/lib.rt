//! Macros that are called by name: where they lie, the texts that they take, and these as search
//! texts.
#![tactic(auto)]

mod binding;
mod comments;
mod given;
mod lookup;
mod parameter;
mod quoting;
mod spelling;
mod takes;

pub use binding::{BindingFault, Given, texts_for};
pub use comments::{Comment, comments_of, ends_of, summary_of};
pub use given::given_in;
pub use lookup::{is_name, places};
pub use parameter::Parameter;
pub use quoting::quoted;
pub use spelling::spelled;
pub use takes::{TakesFault, parameters_of};
