//! A host of files that are edited in place.
ghost use Rattle.std.specs.Prelude.{◌≡◌, ◌+◌, ◌∷◌, [], Bool, true, false, IfOk, IfSome};
ghost use Rattle.teco_in_place.specs.InPlace as edit;
ghost use Rattle.teco_in_place.specs.InPlace.{IsNotedBeneath, IsOneEdit, IsPassedOn, noted_end};
ghost use Rattle.teco_hosts.specs.HostCalls.{Counts};
ghost use Rattle.teco_hosts.specs.HostFiles.{Notes};
ghost use Rattle.teco_hosts.specs.Noting.{NotesJust};

use std::alloc::{AllocError, Global};
use std::marker::PhantomData;
use teco_hosts::{Count, Failed, History, Host};

/// What becomes of a new text that is closed.
pub trait Ending: Copy {
    // does it take the place of its file?
    ghost replaces: { Bool };

    /// Does it take the place of its file? Else it is dropped.
    fn replaces() -> bool
        ensures { result ≡ replaces };
}

/// New texts take the place of their files.
#[derive(Clone, Copy, Drop)]
pub struct Replaces;

impl Ending for Replaces {
    ghost replaces = { true };

    fn replaces() -> bool {
        true
    }
}

/// New texts are only tried, and dropped.
#[derive(Clone, Copy, Drop)]
pub struct Drops;

impl Ending for Drops {
    ghost replaces = { false };

    fn replaces() -> bool {
        false
    }
}

/// The name that a machine knows the new text of a file by: the file's behind a NUL, which no name of a
/// file has.
pub fn new_text_of(alloc: Global, name: &[u8]) -> Result<Vec<u8>, AllocError>
    ensures { IfOk result (λ text. text.items ≡ 0 ∷ name.now) }
{
    let mut text = Vec::new(alloc);
    text.push(0)?;
    text.extend_from_slice(name)?;
    Ok(text)
}

/// Files of a host that are edited in place. The machine knows a new text by a name of its own; to the
/// host beneath it is an output with the name of its file. One file can be opened, before any new text.
#[derive(Drop)]
pub struct InPlace<H: Host + Drop, E: Ending> {
    host: H,
    // was a file opened, or a new text?
    is_begun: bool,
    history: History,
    // those of calls that did not come to the host beneath
    failures: Count,
    ending: PhantomData<E>,
    ghost beneath: { IsNotedBeneath E.replaces history.events (H.files host) },
    ghost one: { IsOneEdit history.events is_begun },
}

impl<H: Host + Drop, E: Ending> InPlace<H, E> {
    /// Those of a host that has noted nothing.
    pub fn new(host: H) -> InPlace<H, E>
        requires fresh { H.files host ≡ Notes [] }
        ensures noted { ⟦<InPlace<H, E> as Host>⟧.files result ≡ Notes [] }
        ensures failures { ⟦<InPlace<H, E> as Host>⟧.failures result ≡ H.failures host }
    {
        InPlace {
            host,
            is_begun: false,
            history: History::new(),
            failures: Count::new(),
            ending: PhantomData,
        }
    }

    /// The host beneath.
    pub fn host(&self) -> &H {
        &self.host
    }

    /// The host beneath.
    pub fn into_host(self) -> H
        ensures noted { IsPassedOn E.replaces (⟦<InPlace<H, E> as Host>⟧.files self) (H.files result) }
    {
        let InPlace {
            host,
            is_begun: _,
            history: _,
            failures: _,
            ending: _,
        } = self;
        host
    }
}

// Is it the name of a new text?
fn is_new_text(name: &[u8]) -> bool
    ensures { result ≡ edit.is_new_text name.now }
{
    !name.is_empty() && name[0] == 0
}

// The name of the file whose new text has this name, if it is one.
fn file_of(name: &[u8]) -> Option<&[u8]>
    ensures { IfSome result (λ file. name.now ≡ 0 ∷ file.now) }
{
    if !is_new_text(name) {
        return None;
    }
    Some(&name[1..])
}

// Ends the output of a host.
fn end<H: Host>(host: &mut H, replaces: bool) -> Result<(), Failed>
    ensures noted { NotesJust (noted_end replaces result) (H.files host.old) (H.files host.new) }
    ensures counted { Counts result (H.failures host.old) (H.failures host.new) }
    ensures given { H.given host.new ≡ H.given host.old }
{
    if replaces {
        host.close_out()
    } else {
        host.drop_out()
    }
}

impl<H: Host + Drop, E: Ending> Host for InPlace<H, E> {
    ghost files = { λ f. Notes f.history.events };

    ghost failures = { λ f. H.failures f.host + f.failures.value };

    ghost given = { λ f. H.given f.host };

    fn open_in(&mut self, name: &[u8]) -> Result<(), Failed> {
        if self.is_begun || is_new_text(name) {
            return self.failures.failed();
        }
        self.host.open_in(name)?;
        self.is_begun = true;
        self.history.opened_input(name);
        Ok(())
    }

    fn read(&mut self, buf: &mut [u8]) -> Result<usize, Failed> {
        let n = self.host.read(buf)?;
        self.history.gave(buf, n);
        Ok(n)
    }

    fn open_out(&mut self, name: &[u8]) -> Result<(), Failed> {
        let Some(file) = file_of(name) else {
            return self.failures.failed();
        };
        self.host.open_out(file)?;
        self.is_begun = true;
        self.history.opened_output(name);
        Ok(())
    }

    fn write(&mut self, bytes: &[u8]) -> Result<usize, Failed> {
        let n = self.host.write(bytes)?;
        self.history.wrote(bytes, n);
        Ok(n)
    }

    fn close_out(&mut self) -> Result<(), Failed> {
        let ended = end(&mut self.host, E::replaces());
        match ended {
            Ok(()) => self.history.closed(),
            Err(Failed) => self.history.dropped(),
        }
        ended
    }

    fn drop_out(&mut self) -> Result<(), Failed> {
        self.history.dropped();
        self.host.drop_out()
    }

    fn left_of_input(&mut self) -> Option<u64> {
        let left = self.host.left_of_input()?;
        self.history.measured(left);
        Some(left)
    }
}
