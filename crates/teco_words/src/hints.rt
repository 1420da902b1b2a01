//! What leads on from words that belong to other programs.
use std::alloc::Global;

/// How many bytes of a text are repeated in a hint, at most.
const SHORT: usize = 40;

// The parts of a substitution in the form of sed: what is looked for, and what takes its place.
#[derive(Clone, Copy)]
struct Substitution<'a> {
    found: &'a str,
    put: &'a str,
}

// Can a text stand in a hint as it is, and in a search as itself?
fn is_plain(text: &str) -> bool {
    text.len() <= SHORT
        && text.bytes().all(|byte| byte.is_ascii_alphanumeric()
            || byte == b' '
            || byte == b'-'
            || byte == b'_')
}

// The substitution that a text is in the form of sed, as s/one/other/.
fn substitution_in(text: &str) -> Option<Substitution<'_>> {
    let behind = text.trim_start().strip_prefix('s')?;
    let (_, parts) = behind
        .split_once('/')
        .filter(|(front, _)| front.is_empty())?;
    let (found, rest) = parts.split_once('/')?;
    let (put, _) = rest.split_once('/')?;
    Some(Substitution { found, put })
}

// Does a text look for `^` or a class of characters as other programs do?
fn has_caret(text: &str) -> bool {
    match text.split_once("S^") {
        Some((_, behind)) => !behind.starts_with([
            'E', 'e', 'Q', 'q', 'N', 'n', 'S', 's', 'X', 'x',
        ]),
        None => false,
    }
}

/// What leads on where a macro or a command string in a word was refused or ended with a code, and it is
/// in the form of another program.
pub fn hint_for(alloc: Global, texts: &[&str]) -> Option<String> {
    for text in texts {
        if let Some(substitution) = substitution_in(*text) {
            return hint_of(alloc, substitution);
        }
        if has_caret(*text) {
            let hint = "in a search text ^ and the character behind it are one; ^Q^ finds ^ itself";
            return String::from_str(alloc, hint).ok();
        }
    }
    None
}

// The form that works of a substitution.
fn hint_of(alloc: Global, substitution: Substitution<'_>) -> Option<String> {
    let Substitution { found, put } = substitution;
    let (found, put) = if is_plain(found) && is_plain(put) {
        (found, put)
    } else {
        ("foo", "bar")
    };
    format!(in alloc;
        "the text of S runs on to ESC, which is $ here; a substitution is \
            FS{found}${put}$, and one in each place J<FS{found}${put}$;>"
    )
    .ok()
}
