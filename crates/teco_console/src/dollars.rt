//! Sources in which `$` may have been meant as ESC.
use crate::console::Voice;
use crate::files::STREAM;
use crate::forms::READABLE;
use std::io::Write;
use teco_base::bytes::ESC;
use teco_source::{EscapeForm, Source};

// What is said of a source of a name that has dollars and no ESC.
fn advice(name: &str) -> &'static str {
    if name == STREAM {
        "standard input is read raw, so $ is a dollar; add --esc '$'"
    } else if name.ends_with(READABLE) {
        "with --esc none $ is a dollar; leave that out"
    } else {
        "this file is not named .tes, so $ is a dollar; name it .tes or add --esc '$'"
    }
}

/// Says that a dollar is a dollar in a source that is read raw, where it has dollars and no ESC.
pub fn tell_dollars<E: Write + Drop>(voice: &mut Voice<E>, source: &Source) {
    let text = source.text();
    let is_raw = source.form() == EscapeForm::Marked(ESC);
    if is_raw && text.contains(&b'$') && !text.contains(&ESC) {
        let advice = advice(source.name());
        voice.say(format_args!("  {advice}"));
    }
}
