//! What is seen, and said, of the runs of a verified macro on files.
ghost use Rattle.std.specs.Prelude.{◌≡◌, ◌↔◌, true, Some, IfSome, IsTrue};
ghost use Rattle.teco_jobs.specs.Terms.{Answers, IsPromised, IsReadWhole, n_at_most};

use crate::bound::Bound;
use std::fmt;
use std::io::Write;
use teco_apply::{Asked, Guard, Observer};
use teco_base::Code;
use teco_console::{Grouped, Voice, letters};
use teco_explain::note_of_code;
use teco_hosts::Host;
use teco_run::{Machine, Stop, Stopped};
use teco_session::Listener;
use teco_source::Shown;
use teco_text::TextStore;
use teco_tools::{Reporting, code_of, tell_macro, tell_trouble, told_name};

/// What was seen of the runs on a file. A number that can't be told is none.
#[derive(Clone, Copy)]
pub struct Seen {
    /// The greatest N of a run.
    pub most: Option<u64>,
    /// The commands that all runs together were promised to take at most.
    pub bound: Option<u64>,
    /// The bytes that were unread behind the last run.
    pub unread: Option<u64>,
}

/// Nothing yet.
pub const NOTHING_SEEN: Seen = Seen {
    most: Some(0),
    bound: Some(0),
    unread: Some(0),
};

/// On which terms the runs of a macro on a file begin.
#[derive(Clone, Copy)]
pub struct Terms {
    /// The most commands that the macro promises to take.
    pub bound: Bound,
    /// Is a run outside the promise refused?
    pub is_strict: bool,
    /// Is a run refused behind which bytes stay unread?
    pub wants_all: bool,
}

impl Terms {
    // Is a run within the promise where so much is held and unread? One at an N that can't be told is not.
    fn is_promised(self, held: u128, unread: Option<u64>) -> bool
        ensures { IsTrue result ↔ IsPromised self (n_at_most held unread) }
    {
        match unread {
            Some(unread) => match held.checked_add(u128::from(unread)) {
                Some(n) => self.bound.premise.holds_at(n),
                None => false,
            },
            None => false,
        }
    }

    // Is a run let go on behind which so many bytes stay unread?
    fn is_whole(self, unread: Option<u64>) -> bool
        ensures { IsTrue result ↔ (self.wants_all ≡ true → IsReadWhole unread) }
    {
        match unread {
            Some(unread) => unread == 0 || !self.wants_all,
            None => true,
        }
    }
}

impl Guard for Terms {
    ghost answers = { Answers };

    fn admits(&self, held: u128, unread: Option<u64>) -> bool {
        if self.is_strict && !self.is_promised(held, unread) {
            return false;
        }
        self.is_whole(unread)
    }
}

// The N where so much is held and unread, if that is told and of 64 bits.
fn n_of(held: u128, unread: Option<u64>) -> Option<u64>
    ensures { IfSome result (λ n. n_at_most held unread ≡ Some n) }
{
    let n = held.checked_add(u128::from(unread?))?;
    u64::try_from(n).ok()
}

/// What is watched: the runs of a macro on a file.
#[derive(Clone, Copy)]
pub struct Watch<'a> {
    /// The file's name.
    pub name: &'a [u8],
    /// On which terms they begin.
    pub terms: Terms,
}

/// Watches the runs of a verified macro on a file: it says where one is outside the promise, or
/// leaves bytes unread.
#[derive(Drop)]
pub struct Warden<'a, E: Write + Drop> {
    voice: &'a mut Voice<E>,
    watch: Watch<'a>,
    // a run was admitted, and has not stopped yet
    is_running: bool,
    seen: Seen,
}

impl<'a, E: Write + Drop> Warden<'a, E> {
    /// Watches runs on the file of a name.
    pub fn new(voice: &'a mut Voice<E>, watch: Watch<'a>) -> Warden<'a, E> {
        Warden {
            voice,
            watch: Watch {
                name: told_name(watch.name),
                ..watch
            },
            is_running: false,
            seen: NOTHING_SEEN,
        }
    }

    /// What was seen.
    pub fn seen(&self) -> Seen {
        self.seen
    }

    // Counts a run at an N.
    fn count(&mut self, n: Option<u64>) {
        let most = self.watch.terms.bound;
        let bound = n.and_then(|n| most.at(n));
        self.seen.most = match (self.seen.most, n) {
            (Some(most), Some(n)) => Some(most.max(n)),
            _ => None,
        };
        self.seen.bound = match (self.seen.bound, bound) {
            (Some(sum), Some(bound)) => Some(sum.saturating_add(bound)),
            _ => None,
        };
    }

    // Says where a run at this N is outside the promise, with the length of the file.
    fn tell_promise(&mut self, n: Option<u64>, length: Option<u64>) {
        let premise = self.watch.terms.bound.premise;
        match n {
            Some(n) if !premise.holds_at(u128::from(n)) => {
                let name = Shown(self.watch.name);
                let held = HeldLength { n, length };
                self.voice.complain(format_args!(
                    "{name}: {held} is outside the promise, which {premise}"
                ));
            }
            _ => {}
        }
    }

    // Says how many bytes stay unread behind a run that is refused for that.
    fn tell_unread(&mut self, unread: Option<u64>) {
        if self.watch.terms.is_whole(unread) {
            return;
        }
        let name = Shown(self.watch.name);
        let count = Grouped(unread.unwrap_or(0));
        self.voice.complain(format_args!(
            "{name}: {count} bytes behind the first page would be copied unedited; \
                --pages each or --pages whole edits them too"
        ));
    }

    // Says the code of a command string that is none of the macro's.
    fn tell_code<H: Reporting>(&mut self, stop: Stop, code: Code, host: &H) {
        if let Stop::HostFault(_) = stop {
            tell_trouble(self.voice, host);
        } else {
            let name = Shown(self.watch.name);
            let letters = letters(code);
            let summary = note_of_code(code).summary;
            self.voice
                .complain(format_args!("{name}: ?{letters}: {summary}"));
        }
    }
}

// The N of a run, and the length of the file where it is told.
#[derive(Clone, Copy)]
struct HeldLength {
    n: u64,
    length: Option<u64>,
}

impl fmt::Display for HeldLength {
    fn fmt<W: fmt::Write>(&self, f: &mut fmt::Formatter<W>) -> fmt::Result {
        let n = Grouped(self.n);
        match self.length {
            Some(length) if length <= self.n => {
                let others = Grouped(self.n.saturating_sub(length));
                let length = Grouped(length);
                write!(f, "N = {n} (the file's {length} and {others} of the macro)")
            }
            _ => write!(f, "N = {n}"),
        }
    }
}

impl<H: Host + Reporting, E: Write + Drop> Listener<H> for Warden<'_, E> {
    fn stopped<T: TextStore>(
        &mut self,
        _text: &[u8],
        stopped: &Stopped,
        machine: &Machine<T>,
        host: &H,
    ) {
        if self.is_running {
            self.is_running = false;
            let left = host.bytes_left();
            let ahead = machine.read_ahead() as u64;
            self.seen.unread = left.map(|left| left.saturating_add(ahead));
        }
        let Some(code) = code_of(stopped.stop) else {
            return;
        };
        if stopped.site.register.is_some() {
            tell_macro(self.voice, Some(self.watch.name), stopped, machine, code);
        } else {
            self.tell_code(stopped.stop, code, host);
        }
    }

    fn rest(&mut self, _code: Option<Code>) {}
}

impl<H: Host + Reporting, E: Write + Drop> Observer<H> for Warden<'_, E> {
    fn asked(&mut self, asked: Asked, host: &H) {
        let n = n_of(asked.held, asked.unread);
        self.count(n);
        self.tell_promise(n, host.input_length());
        if self.watch.terms.is_promised(asked.held, asked.unread) || !self.watch.terms.is_strict {
            self.tell_unread(asked.unread);
        }
        self.is_running = asked.admitted;
    }
}
