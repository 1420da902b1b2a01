//! The word in the place of a macro's name.
use crate::commands::HelpPage;
use crate::rows::{Parameter, ParameterKind};
use crate::tables::{APPLY_PAGE, TRACE_PAGE};
use std::convert::AsStr;
use teco_parameters::is_name;

// Is an option of this kind given by its name and a text?
fn has_text(kind: ParameterKind) -> bool {
    matches!(
        kind,
        ParameterKind::Text(_)
            | ParameterKind::Texts(_)
            | ParameterKind::Default(_, _)
            | ParameterKind::Count(_, _)
            | ParameterKind::Bytes(_, _)
    )
}

// Is the text of an option the word behind it?
fn takes_next(options: &[Parameter], word: &str) -> bool {
    match word.strip_prefix("--") {
        Some(name) => options
            .iter()
            .any(|option| option.id == name && has_text(option.kind)),
        None => false,
    }
}

// The first word that is neither an option nor the text of one.
fn first_word<'w, S: AsStr>(options: &[Parameter], words: &'w [S]) -> Option<&'w str> {
    let mut is_text = false;
    for word in words {
        let word = word.as_str();
        let is_option = word.starts_with('-') && word != "-";
        if !is_text && !is_option {
            return Some(word);
        }
        is_text = !is_text && takes_next(options, word);
    }
    None
}

// The command that applies macros of a name.
fn applying(name: &str) -> Option<HelpPage> {
    match name {
        "apply" => Some(APPLY_PAGE),
        "trace" => Some(TRACE_PAGE),
        _ => None,
    }
}

/// The word behind `apply` or `trace` that has the form of a macro's name, in the place of its library.
/// It names one unless a file is called so, or options name the macro.
pub fn applied_name<S: AsStr>(words: &[S]) -> Option<&str> {
    let page = applying(words.get(1)?.as_str())?;
    let word = first_word(page.options, words.get(2..)?)?;
    is_name(word.as_bytes()).then_some(word)
}
