//! Bytes that were read and belong to no page yet.
ghost use Rattle.std.specs.Prelude.{◌≡◌, false, ◌↔◌, ◌≤◌, ◌<◌, ◌+◌, [], length, take, drop, IfErr, OnOk, OnErr, IsTrue};
ghost use Rattle.std.specs.List.{prefix_len};
ghost use Rattle.teco_base.specs.declared.TheConstants.{LIMIT};
ghost use Rattle.teco_model.specs.Pages.{before_form_feed, has_form_feed, behind_form_feed};
ghost use Rattle.teco_hosts.specs.HostFiles.{Reads, Stays, NoneUnread};
ghost use Rattle.teco_hosts.specs.Noting.{Touches, has_ended, has_ended_behind};
ghost use Rattle.teco_hosts.specs.Reading.{Gives, TopsUp, is_inner};
ghost use Rattle.teco_hosts.specs.declared.fault.Fault.TheVariants.{In as CannotRead};

use crate::fault::{Failed, Fault};
use crate::host::Host;
use memchr::memchr;
use std::marker::Model;
use teco_base::LIMIT;
use teco_base::bytes::FF;
use teco_model::are_bytes;

// How many bytes are read ahead, at most.
pub const CHUNK: usize = 4096;

// Bytes that were read and belong to no page yet.
#[derive(Drop)]
pub struct Ahead {
    chunk: [u8; CHUNK],
    used: usize,
    filled: usize,
}

impl Model for Ahead {
    ghost use Rattle.std.specs.Prelude.{ℕ, ◌≤◌, List, slice_range};
    ghost use Rattle.teco_hosts.specs.declared.ahead.TheConstants.{CHUNK};

    ghost Value = { List ℕ };

    ghost view = { λ a. slice_range a.chunk a.used a.filled };

    ghost invariant = { λ a. (a.used ≤ a.filled) × (a.filled ≤ CHUNK) };
}

impl Ahead {
    // No bytes.
    pub fn new() -> Ahead
        ensures { result ≡ [] }
    {
        Ahead {
            chunk: [0; CHUNK],
            used: 0,
            filled: 0,
        }
    }

    // No bytes are left.
    pub fn clear(&mut self)
        ensures { self.new ≡ [] }
    {
        self.used = 0;
        self.filled = 0;
    }

    // Are there none?
    pub fn is_empty(&self) -> bool
        ensures { IsTrue result ↔ (self.now ≡ []) }
    {
        self.used == self.filled
    }

    // The bytes.
    pub fn bytes(&self) -> &[u8]
        ensures { result.now ≡ self.now }
    {
        &self.chunk[self.used..self.filled]
    }

    // Reads more bytes where none are left. None come at the end of the input alone.
    pub fn fill<H: Host>(&mut self, host: &mut H) -> Result<(), Fault>
        requires { self.old ≡ [] }
        ensures ok { OnOk result (Reads self.new (H.files host.old) (H.files host.new)) }
        ensures end { OnOk result (self.new ≡ []
            → NoneUnread (H.files host.old) (H.files host.new)) }
        ensures counted { OnOk result (H.failures host.new ≡ H.failures host.old) }
        ensures given { OnOk result (H.given host.new ≡ H.given host.old + length self.new) }
        ensures limit { OnOk result (H.given host.new ≤ LIMIT) }
        ensures err { OnErr result ((self.new ≡ []) × Stays (H.files host.old) (H.files host.new)) }
        ensures fault { IfErr result (λ fault. (fault ≡ CannotRead)
            × (H.failures host.old < H.failures host.new)) }
        ensures noted { Touches [] false (has_ended_behind result self.new)
            (H.files host.old) (H.files host.new) }
    {
        self.used = 0;
        self.filled = 0;
        match host.read(&mut self.chunk) {
            Ok(n) => {
                self.filled = n;
                are_bytes(self.bytes());
                Ok(())
            }
            Err(Failed) => Err(Fault::In),
        }
    }

    // Reads more bytes if none are left; answers whether some are there.
    pub fn top_up<H: Host>(&mut self, host: &mut H) -> Result<bool, Fault>
        ensures tops_up { TopsUp self.old (H.files host.old) self.new (H.files host.new)
            (H.failures host.old) (H.failures host.new) result }
        ensures noted { Touches [] false (has_ended result) (H.files host.old) (H.files host.new) }
    {
        if !self.is_empty() {
            return Ok(true);
        }
        self.fill(host)?;
        if self.is_empty() {
            return Ok(false);
        }
        Ok(true)
    }

    // Gives the bytes up to the first form feed to a page, and takes the form feed away; answers
    // whether there was one.
    pub fn give(&mut self, into: &mut Vec<u8>) -> Result<bool, Fault>
        requires { length into.old.items ≤ LIMIT }
        ensures { Gives self.old self.new into.old.items into.new.items result }
    {
        let found = find_end(&self.chunk[self.used..self.filled]);
        if found.len > LIMIT - into.len() {
            return Err(Fault::Full);
        }
        into.extend_from_slice(&self.chunk[self.used..self.used + found.len])?;
        self.used += found.next;
        Ok(found.ff)
    }
}

// Where a page ends, and where the next begins.
#[derive(Clone, Copy)]
struct PageEnd {
    len: usize,
    ff: bool,
    next: usize,
}

// Finds the first form feed.
fn find_end(bytes: &[u8]) -> PageEnd
    ensures len { result.len ≡ length (before_form_feed bytes.now) }
    ensures within { (result.len ≤ result.next) × (result.next ≤ length bytes.now) }
    ensures taken { take result.len bytes.now ≡ before_form_feed bytes.now }
    ensures ff { result.ff ≡ has_form_feed bytes.now }
    ensures left { drop result.next bytes.now ≡ behind_form_feed bytes.now }
{
    let len = inner_len(bytes);
    if len < bytes.len() {
        PageEnd {
            len,
            ff: true,
            next: len + 1,
        }
    } else {
        PageEnd {
            len,
            ff: false,
            next: len,
        }
    }
}

// How many bytes stand before the first form feed, or in all.
fn inner_len(bytes: &[u8]) -> usize
    ensures { result ≡ prefix_len is_inner bytes.now }
{
    memchr(FF, bytes).unwrap_or(bytes.len())
}
