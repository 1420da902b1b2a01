//! The command line of the program: its commands and options, and the words as values.
#![tactic(auto)]

mod arguments;
mod called;
mod commands;
mod fault;
mod hints;
mod policies;
mod rows;
mod tables;
mod words;

pub use arguments::CommandLine;
pub use called::applied_name;
pub use commands::command;
pub use fault::WordsFault;
pub use hints::hint_for;
pub use policies::policies_of;
pub use words::{
    AppliedTo, BehindName, VerdictForm, cap, case, change, check_escape, check_name,
    check_register, check_tested, check_texts, choice, effort_of, entry, escape_of, file_names,
    form_of_source, given, has_macro_options, keeping, limit, look, mark_of, method_of, name_in,
    name_of, names_macro, names_register, naming, origin, pages, scripts, setting_files, settings,
    verdict_form, word,
};
