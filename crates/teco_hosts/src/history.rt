//! What the calls of a host did: contracts see it, and nothing else.
ghost use Rattle.std.specs.Prelude.{◌≡◌, ◌≤◌, ◌<◌, ◌∷◌, ◌++◌, List, [], length, take, Some};
ghost use Rattle.std.specs.Borrow.{ftrue};
ghost use Rattle.teco_hosts.specs.Events.{Event, events_code, opened_input, opened_output, wrote, closed, dropped};
ghost use Rattle.teco_hosts.specs.Events.{measured};
ghost use Rattle.teco_hosts.specs.Noting.{event_of_reading};

use std::marker::Model;
use teco_model::are_bytes;

// What a call did that has not failed.
#[derive(Clone, Copy, Drop)]
pub enum Note<'a> {
    OpenedInput(&'a [u8]),
    Gave(&'a [u8]),
    Ended,
    OpenedOutput(&'a [u8]),
    Wrote(&'a [u8]),
    Closed,
    Dropped,
    Measured(u64),
}

/// The calls of a host that cannot tell its files. It takes no memory, and does nothing when it
/// runs.
#[derive(Drop)]
pub struct History {
    pub ghost events: { List Event } by { events_code },
}

impl Model for History {
    ghost also_owns = { λ _. ftrue };
}

impl History {
    ghost use Rattle.teco_hosts.specs.HostCalls.{HasOpened, Measures};
    ghost use Rattle.teco_hosts.specs.HostFiles.{Becomes, Notes, NoneUnread, Reads, after_opening, after_writing};
    ghost use Rattle.teco_hosts.specs.HostFiles.{after_closing, after_dropping};
    ghost use Rattle.teco_hosts.specs.Noted.{event_of};

    /// Nothing has happened yet.
    pub fn new() -> History
        ensures { result.events ≡ [] }
    {
        History {}
    }

    // This history, and behind it what a call did.
    #[inline(always)]
    fn then(&self, _note: &Note<'_>) -> History
        ensures { result.events ≡ self.now.events ++ event_of _note.now ∷ [] }
    {
        History {}
    }

    /// The file of a name was opened as the input.
    pub fn opened_input(&mut self, name: &[u8])
        ensures files { HasOpened name.now (Notes self.old.events) (Notes self.new.events) }
        ensures noted { self.new.events ≡ self.old.events ++ opened_input name.now ∷ [] }
    {
        *self = self.then(&Note::OpenedInput(name));
    }

    /// The first `n` bytes of a buffer were read; none, where it has room, at the end of the input.
    pub fn gave(&mut self, buf: &[u8], n: usize)
        requires { n ≤ length buf.now }
        ensures bytes { Reads (take n buf.now) (Notes self.old.events) (Notes self.new.events) }
        ensures end { n ≡ 0 → 0 < length buf.now
            → NoneUnread (Notes self.old.events) (Notes self.new.events) }
        ensures noted { self.new.events ≡ self.old.events ++ event_of_reading n buf.now ∷ [] }
    {
        are_bytes(&buf[..n]);
        *self = if n == 0 && !buf.is_empty() {
            self.then(&Note::Ended)
        } else {
            self.then(&Note::Gave(&buf[..n]))
        };
    }

    /// An output of a name was opened.
    pub fn opened_output(&mut self, name: &[u8])
        ensures files { Becomes (after_opening name.now) (Notes self.old.events) (Notes self.new.events) }
        ensures noted { self.new.events ≡ self.old.events ++ opened_output name.now ∷ [] }
    {
        *self = self.then(&Note::OpenedOutput(name));
    }

    /// The first `n` of some bytes were written.
    pub fn wrote(&mut self, bytes: &[u8], n: usize)
        requires { n ≤ length bytes.now }
        ensures files { Becomes (after_writing (take n bytes.now))
            (Notes self.old.events) (Notes self.new.events) }
        ensures noted { self.new.events ≡ self.old.events ++ wrote (take n bytes.now) ∷ [] }
    {
        are_bytes(&bytes[..n]);
        *self = self.then(&Note::Wrote(&bytes[..n]));
    }

    /// The output took its name.
    pub fn closed(&mut self)
        ensures files { Becomes after_closing (Notes self.old.events) (Notes self.new.events) }
        ensures noted { self.new.events ≡ self.old.events ++ closed ∷ [] }
    {
        *self = self.then(&Note::Closed);
    }

    /// The output was dropped.
    pub fn dropped(&mut self)
        ensures files { Becomes after_dropping (Notes self.old.events) (Notes self.new.events) }
        ensures noted { self.new.events ≡ self.old.events ++ dropped ∷ [] }
    {
        *self = self.then(&Note::Dropped);
    }

    /// No more bytes than these were left of the input.
    pub fn measured(&mut self, most: u64)
        ensures files { Measures (Some most) (Notes self.old.events) (Notes self.new.events) }
        ensures noted { self.new.events ≡ self.old.events ++ measured most ∷ [] }
    {
        *self = self.then(&Note::Measured(most));
    }
}
