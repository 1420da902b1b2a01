//! How far an edit of many files has come.
use std::io::Write;
use std::time::{Clock, Duration};
use teco_console::Voice;
use teco_source::Shown;

/// How many milliseconds an edit lasts before it is shown, and each state is shown at least.
const FIRST: u64 = 1000;

const NEXT: u64 = 200;

/// The file at hand, and how many are done of how many.
#[derive(Clone, Copy)]
pub struct FilesDone<'a> {
    pub done: usize,
    pub of: usize,
    pub name: &'a [u8],
}

/// When it is shown next how far an edit has come; never where it isn't shown.
#[derive(Clone, Copy)]
pub struct EditProgress {
    next: Option<Duration>,
}

impl EditProgress {
    /// An edit begins.
    pub fn begin<R: Clock>(rt: &R, is_shown: bool) -> EditProgress {
        let next = match rt.monotonic() {
            Ok(now) if is_shown => now.checked_add(Duration::from_millis(FIRST)),
            _ => None,
        };
        EditProgress { next }
    }

    /// Shows how far it has come, if it is time to.
    pub fn show<R: Clock, E: Write + Drop>(
        &mut self,
        rt: &R,
        voice: &mut Voice<E>,
        place: FilesDone<'_>,
    ) {
        let (Some(next), Ok(now)) = (self.next, rt.monotonic()) else {
            return;
        };
        if now < next {
            return;
        }
        self.next = now.checked_add(Duration::from_millis(NEXT));
        let FilesDone { done, of, name } = place;
        let name = Shown(name);
        voice.note(format_args!("{done} of {of} files: {name}"));
    }
}
