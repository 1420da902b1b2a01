//! What `verify`, `check` and `explain` print of macros.
#![tactic(auto)]

mod change_objects;
mod changing;
mod checking;
mod explained_rows;
mod explaining;
mod json;
pub mod laws;
mod library_json;
mod linear;
mod listing;
mod objects;
mod verifying;

pub use changing::{ChangesForm, tell_changes};
pub use checking::check_macro;
pub use explained_rows::explain_macro_as_json;
pub use explaining::explain_macro;
pub use json::{check_macro_as_json, verify_macro_as_json};
pub use library_json::verify_library_as_json;
pub use verifying::{verify_library, verify_macro};
