//! A host of files whose outputs take their names only where they keep policies.
ghost use Rattle.std.specs.Prelude.{◌≡◌, ◌↔◌, [], IfSome, IsTrue, OnOk};
ghost use Rattle.teco_hosts.specs.HostFiles.{Notes};
ghost use Rattle.teco_pages.specs.Policies.{AreKept, IsMet, MeetTerms};
ghost use Rattle.teco_pages.specs.Texts.{Differ, edit_texts, noted_texts};

use crate::file_host::FileHost;
use crate::texts::Texts;
use teco_files::{System, TroubleReason};
use teco_hosts::{Failed, Host};
use teco_policy::{Broken, Policy, say_same};

/// What is asked of an edit.
#[derive(Clone, Copy)]
pub struct EditTerms<'p> {
    /// What it must not do.
    pub policies: &'p [Policy],
    /// May an output take its name? Else it is only tried, and dropped.
    pub closes: bool,
}

// Is the new text another than the old one?
fn do_differ(texts: &Texts) -> bool
    ensures { IsTrue result ↔ Differ (edit_texts texts.now) }
{
    texts.new.as_slice() != texts.old.as_slice()
}

/// The files of the system, as a `FileHost` has them. An output takes its name only where the edit of the
/// input into it keeps each policy, and where outputs may; one that breaks a policy is dropped, and so is
/// any where memory for the texts was refused.
#[derive(Drop)]
pub struct PolicyHost<'p, R: System> {
    host: FileHost<R>,
    terms: EditTerms<'p>,
    // the policy that kept the last output from being closed
    broken: Option<Broken>,
    ghost met: { MeetTerms terms.policies.now terms.closes host.calls.history.events },
}

impl<'p, R: System> PolicyHost<'p, R> {
    /// Those of a host that has made no call yet.
    pub fn new(host: FileHost<R>, terms: EditTerms<'p>) -> PolicyHost<'p, R>
        requires fresh { ⟦<FileHost<R> as Host>⟧.files host ≡ Notes [] }
        ensures noted { ⟦<PolicyHost<'p, R> as Host>⟧.files result ≡ Notes [] }
    {
        let mut host = host;
        host.keep_texts();
        PolicyHost {
            host,
            terms,
            broken: None,
        }
    }

    /// The host beneath.
    pub fn host(&self) -> &FileHost<R>
        ensures { ⟦<FileHost<R> as Host>⟧.files result.now ≡ ⟦<PolicyHost<'p, R> as Host>⟧.files self.now }
    {
        &self.host
    }

    /// What was read and written, as far as there was memory for it.
    pub fn texts(&self) -> Option<&Texts> {
        self.host.texts()
    }

    /// Is the text that was written another than the one that was read? None where memory for them was
    /// refused.
    pub fn has_changed(&self) -> Option<bool>
        ensures { IfSome result (λ changed. IsTrue changed
            ↔ Differ (noted_texts (⟦<PolicyHost<'p, R> as Host>⟧.files self.now))) }
    {
        let texts = self.host.texts()?;
        Some(do_differ(texts))
    }

    /// The policy that kept the last output from being closed, if one did.
    pub fn broken(&self) -> Option<Broken> {
        self.broken
    }

    /// Were these the terms, word for word? Then all that was noted meets them.
    pub fn has_met(&self, terms: EditTerms<'_>) -> bool
        ensures { IsTrue result → IsMet terms.entry.policies.now terms.entry.closes
            (⟦<PolicyHost<'p, R> as Host>⟧.files self.now) }
    {
        self.terms.closes == terms.closes && say_same(self.terms.policies, terms.policies)
    }

    // Does the edit of the input into the open output keep each policy? Else the first that is broken, or
    // none where memory for the texts was refused.
    fn judge(&self) -> Result<(), Option<Broken>>
        ensures { OnOk result (AreKept self.now.terms.policies.now
            (noted_texts (⟦<FileHost<R> as Host>⟧.files self.now.host))) }
    {
        let Some(texts) = self.host.texts() else {
            return Err(None);
        };
        match texts.first_broken(self.terms.policies) {
            None => Ok(()),
            Some(broken) => Err(Some(broken)),
        }
    }
}

// Why an output can't be closed, by the policy that is broken; none where that is not known.
fn reason_of(broken: Option<Broken>) -> TroubleReason {
    match broken {
        Some(_) => TroubleReason::Broken,
        None => TroubleReason::Memory,
    }
}

impl<R: System> Host for PolicyHost<'_, R> {
    ghost files = { λ h. ⟦<FileHost<R> as Host>⟧.files h.host };

    ghost failures = { λ h. ⟦<FileHost<R> as Host>⟧.failures h.host };

    ghost given = { λ h. ⟦<FileHost<R> as Host>⟧.given h.host };

    fn open_in(&mut self, name: &[u8]) -> Result<(), Failed> {
        self.host.open_in(name)
    }

    fn read(&mut self, buf: &mut [u8]) -> Result<usize, Failed> {
        self.host.read(buf)
    }

    fn open_out(&mut self, name: &[u8]) -> Result<(), Failed> {
        self.host.open_out(name)
    }

    fn write(&mut self, bytes: &[u8]) -> Result<usize, Failed> {
        self.host.write(bytes)
    }

    fn close_out(&mut self) -> Result<(), Failed> {
        if !self.terms.closes {
            return self.host.refuse_out(TroubleReason::NotOpen);
        }
        match self.judge() {
            Ok(()) => self.host.close_out(),
            Err(broken) => {
                self.broken = broken;
                self.host.refuse_out(reason_of(broken))
            }
        }
    }

    fn drop_out(&mut self) -> Result<(), Failed> {
        if self.terms.closes || !self.host.has_output() {
            return self.host.drop_out();
        }
        match self.judge() {
            Ok(()) => self.host.drop_out(),
            Err(broken) => {
                self.broken = broken;
                self.host.refuse_out(reason_of(broken))
            }
        }
    }

    fn left_of_input(&mut self) -> Option<u64> {
        self.host.left_of_input()
    }
}
