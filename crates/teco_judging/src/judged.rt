//! A host whose outputs take their names only where they keep policies.
ghost use Rattle.std.specs.Prelude.{◌≡◌, ◌≤◌, ◌<◌, ◌+◌, ◌++◌, [], true, IsNone, IsErr, IsTrue, OnOk};
ghost use Rattle.teco_hosts.specs.HostCalls.{Counts};
ghost use Rattle.teco_hosts.specs.HostFiles.{Notes};
ghost use Rattle.teco_pages.specs.Policies.{AreKept, IsMet, MeetTerms};
ghost use Rattle.teco_pages.specs.Texts.{AreNoted, texts_of};
ghost use Rattle.teco_policy.specs.Policies.{KeepEach};

use crate::breaches::Breaking;
use std::alloc::Global;
use teco_files::{Purpose, Trouble, TroubleReason, name_to_tell};
use teco_hosts::{Count, Failed, History, Host};
use teco_pages::{Texts, note_input, note_output, note_read, note_written};
use teco_policy::{Broken, Policy, say_same};
use teco_tools::{Reporting, told_name};

// Nothing was read or written; that is kept, unless nothing is asked of outputs.
fn no_texts(alloc: Global, asks_nothing: bool) -> Option<Texts>
    ensures { AreNoted [] result }
{
    if asks_nothing {
        return None;
    }
    Some(Texts {
        old: Vec::new(alloc),
        new: Vec::new(alloc),
    })
}

// The first policy that is broken, of those that are asked and others.
fn first_of_both(asked: &[Policy], more: &[Policy], texts: &Texts) -> Option<Broken>
    ensures { IsNone result → KeepEach (asked.now ++ more.now) texts.now.old.items texts.now.new.items }
{
    if let Some(broken) = texts.first_broken(asked) {
        return Some(broken);
    }
    match texts.first_broken(more) {
        Some(Broken { policy, breach }) => Some(Broken {
            policy: asked.len().saturating_add(policy),
            breach,
        }),
        None => None,
    }
}

// Writes all bytes.
fn send<H: Host>(host: &mut H, bytes: &[u8]) -> Result<(), Failed>
    ensures counted { Counts result (H.failures host.old) (H.failures host.new) }
    ensures given { H.given host.new ≡ H.given host.old }
{
    let mut written = 0;
    for _ in 0..bytes.len() {
        if written == bytes.len() {
            return Ok(());
        }
        match host.write(&bytes[written..]) {
            Ok(n) => written += n,
            Err(Failed) => return Err(Failed),
        }
    }
    Ok(())
}

// Drops an output, also where that fails.
fn let_go<H: Host>(host: &mut H)
    ensures counted { H.failures host.old ≤ H.failures host.new }
    ensures given { H.given host.new ≡ H.given host.old }
{
    match host.drop_out() {
        Ok(()) | Err(Failed) => {}
    }
}

// Writes what was held back, and closes the output.
fn send_and_close<H: Host>(host: &mut H, text: &[u8]) -> Result<(), Failed>
    ensures counted { Counts result (H.failures host.old) (H.failures host.new) }
    ensures given { H.given host.new ≡ H.given host.old }
{
    match send(host, text) {
        Ok(()) => host.close_out(),
        Err(Failed) => {
            let_go(host);
            Err(Failed)
        }
    }
}

// Closes an output, with what was held back for it.
fn close_held<H: Host>(host: &mut H, texts: &Option<Texts>) -> Result<(), Failed>
    ensures counted { Counts result (H.failures host.old) (H.failures host.new) }
    ensures given { H.given host.new ≡ H.given host.old }
{
    match texts {
        Some(texts) => send_and_close(host, &texts.new),
        None => host.close_out(),
    }
}

/// The files of a host, whose outputs keep policies, with what was read of the input that was opened
/// last. What is written is held back until the output is closed, and comes to nothing where a policy is
/// broken. Where no policies are asked nothing is held back.
#[derive(Drop)]
pub struct Judged<'p, H: Host + Drop> {
    host: H,
    alloc: Global,
    asked: &'p [Policy],
    // those that are asked besides
    more: Vec<Policy>,
    // what was read and written, where there are policies and as far as there was memory for it
    texts: Option<Texts>,
    // the name of the output that was opened last
    name: Vec<u8>,
    // the policy that kept the last output from being closed
    broken: Option<Broken>,
    trouble: Option<Trouble>,
    failures: Count,
    history: History,
    ghost noted: { AreNoted history.events texts },
    ghost met: { MeetTerms (asked.now ++ more.items) true history.events },
}

impl<'p, H: Host + Drop> Judged<'p, H> {
    /// The files of a host, whose outputs keep these policies.
    pub fn new(alloc: Global, host: H, asked: &'p [Policy]) -> Judged<'p, H>
        ensures noted { ⟦<Judged<'p, H> as Host>⟧.files result ≡ Notes [] }
    {
        Judged {
            host,
            alloc,
            asked,
            more: Vec::new(alloc),
            texts: no_texts(alloc, asked.is_empty()),
            name: Vec::new(alloc),
            broken: None,
            trouble: None,
            failures: Count::new(),
            history: History::new(),
        }
    }

    /// Asks for other policies too, before any call.
    pub fn ask(&mut self, more: Vec<Policy>)
        requires fresh { ⟦<Judged<'p, H> as Host>⟧.files self.old ≡ Notes [] }
        ensures noted { ⟦<Judged<'p, H> as Host>⟧.files self.new ≡ Notes [] }
        ensures failures { ⟦<Judged<'p, H> as Host>⟧.failures self.new
            ≡ ⟦<Judged<'p, H> as Host>⟧.failures self.old }
    {
        self.texts = no_texts(self.alloc, self.asked.is_empty() && more.is_empty());
        self.more = more;
    }

    /// Were the outputs to keep these policies, word for word? Then each that was closed keeps them.
    pub fn has_met(&self, policies: &[Policy]) -> bool
        ensures { IsTrue result → IsMet policies.now true (⟦<Judged<'p, H> as Host>⟧.files self.now) }
    {
        say_same(self.asked, policies)
    }

    // The policy at a place among all that are asked.
    fn policy_at(&self, place: usize) -> Option<&Policy> {
        match place.checked_sub(self.asked.len()) {
            Some(at) => self.more.get(at),
            None => self.asked.get(place),
        }
    }

    /// The policy that kept the last output from being closed, if one did.
    pub fn breaking(&self) -> Option<Breaking<'_>> {
        let Broken { policy, breach } = self.broken?;
        let texts = self.texts.as_ref()?;
        Some(Breaking {
            policy: self.policy_at(policy)?,
            breach,
            old: &texts.old,
            new: &texts.new,
        })
    }

    /// The name of the output that was opened last.
    pub fn output_name(&self) -> &[u8] {
        &self.name
    }

    // Is nothing asked of the outputs?
    fn asks_nothing(&self) -> bool
        ensures { IsTrue result → self.now.asked.now ++ self.now.more.items ≡ [] }
    {
        self.asked.is_empty() && self.more.is_empty()
    }

    // Does the edit of the input into the open output keep each policy? Else the first that is broken, or
    // none where memory for the texts was refused.
    fn judge(&self) -> Result<(), Option<Broken>>
        ensures { OnOk result (AreKept (self.now.asked.now ++ self.now.more.items)
            (texts_of self.now.history.events)) }
    {
        if self.asks_nothing() {
            return Ok(());
        }
        let Some(texts) = &self.texts else {
            return Err(None);
        };
        match first_of_both(self.asked, &self.more, texts) {
            None => Ok(()),
            Some(broken) => Err(Some(broken)),
        }
    }

    // Something could not be done with the output.
    fn cannot<T>(&mut self, purpose: Purpose, reason: TroubleReason) -> Result<T, Failed>
        ensures failed { IsErr result }
        ensures counted { self.old.failures.value < self.new.failures.value }
        ensures host { self.new.host ≡ self.old.host }
        ensures history { self.new.history ≡ self.old.history }
        ensures asked { self.new.asked ≡ self.old.asked }
        ensures more { self.new.more ≡ self.old.more }
        ensures texts { self.new.texts ≡ self.old.texts }
    {
        self.trouble = Some(Trouble::of(self.alloc, purpose, told_name(&self.name), reason));
        self.failures.failed()
    }
}

// Why an output can't be closed, by the policy that is broken; none where that is not known.
fn reason_of(broken: Option<Broken>) -> TroubleReason {
    match broken {
        Some(_) => TroubleReason::Broken,
        None => TroubleReason::Memory,
    }
}

impl<H: Host + Drop> Host for Judged<'_, H> {
    ghost files = { λ j. Notes j.history.events };

    ghost failures = { λ j. H.failures j.host + j.failures.value };

    ghost given = { λ j. H.given j.host };

    fn open_in(&mut self, name: &[u8]) -> Result<(), Failed> {
        self.host.open_in(name)?;
        note_input(&mut self.texts, name);
        self.history.opened_input(name);
        Ok(())
    }

    fn read(&mut self, buf: &mut [u8]) -> Result<usize, Failed> {
        let n = self.host.read(buf)?;
        note_read(&mut self.texts, buf, n);
        self.history.gave(buf, n);
        Ok(n)
    }

    fn open_out(&mut self, name: &[u8]) -> Result<(), Failed> {
        self.host.open_out(name)?;
        self.name = name_to_tell(self.alloc, name);
        note_output(&mut self.texts, name);
        self.history.opened_output(name);
        Ok(())
    }

    fn write(&mut self, bytes: &[u8]) -> Result<usize, Failed> {
        if self.asks_nothing() {
            let n = self.host.write(bytes)?;
            note_written(&mut self.texts, bytes, n);
            self.history.wrote(bytes, n);
            return Ok(n);
        }
        note_written(&mut self.texts, bytes, bytes.len());
        if self.texts.is_none() {
            return self.cannot(Purpose::WriteOutput, TroubleReason::Memory);
        }
        self.history.wrote(bytes, bytes.len());
        Ok(bytes.len())
    }

    fn close_out(&mut self) -> Result<(), Failed> {
        match self.judge() {
            Ok(()) => {
                let closed = close_held(&mut self.host, &self.texts);
                match closed {
                    Ok(()) => self.history.closed(),
                    Err(Failed) => self.history.dropped(),
                }
                closed
            }
            Err(broken) => {
                let_go(&mut self.host);
                self.history.dropped();
                self.broken = broken;
                self.cannot(Purpose::CloseOutput, reason_of(broken))
            }
        }
    }

    fn drop_out(&mut self) -> Result<(), Failed> {
        self.history.dropped();
        self.host.drop_out()
    }

    fn left_of_input(&mut self) -> Option<u64> {
        let left = self.host.left_of_input()?;
        self.history.measured(left);
        Some(left)
    }
}

impl<H: Host + Reporting + Drop> Reporting for Judged<'_, H> {
    fn bytes_left(&self) -> Option<u64> {
        self.host.bytes_left()
    }

    fn input_length(&self) -> Option<u64> {
        self.host.input_length()
    }

    fn trouble(&self) -> Option<&Trouble> {
        self.trouble.as_ref().or(self.host.trouble())
    }
}
