//! What is said of files that could not be used.
use std::fmt;
use std::io::Write;
use teco_console::Voice;
use teco_files::{Purpose, Trouble, TroubleReason};
use teco_source::Shown;

// The code that is typed for it.
fn code_of(purpose: Purpose) -> &'static str {
    match purpose {
        Purpose::OpenInput => "?FNF",
        Purpose::ReadInput => "?INP",
        _ => "?OUT",
    }
}

/// Says what was asked for or was left undone, though the voice be quiet.
pub fn tell_anyway<E: Write + Drop, D: fmt::Display + Drop>(voice: &mut Voice<E>, message: D) {
    if let Ok(text) = format!(in voice.alloc(); "{message}\n") {
        voice.repeat(text.as_bytes());
    }
}

/// Says what could not be done with which file, and why.
pub fn tell<E: Write + Drop>(voice: &mut Voice<E>, trouble: &Trouble) {
    let purpose = trouble.purpose;
    let name = Shown(&trouble.name);
    let reason = &trouble.reason;
    let code = code_of(purpose);
    voice.complain(format_args!("cannot {purpose} {name}: {reason} ({code})"));
    if let TroubleReason::Kept = trouble.reason {
        voice.say("  --force-backup lets a backup take the place of a file that has its name");
    }
}
