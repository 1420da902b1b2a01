//! The pages of the open input, and what is open.
ghost use Rattle.std.specs.Prelude.{◌≡◌, ◌≤◌, ◌++◌, [], ◌∷◌, if◌then◌else◌, Some, None, false, length, option_map};
ghost use Rattle.std.specs.Prelude.{option_copied, IsSome, IfSome, OnOk, OnErr};
ghost use Rattle.teco_base.specs.declared.TheConstants.{LIMIT};
ghost use Rattle.teco_base.specs.declared.bytes.TheConstants.{FF};
ghost use Rattle.teco_model.specs.Pages.{first_page, behind_first_page, has_form_feed, written_page};
ghost use Rattle.teco_hosts.specs.Held.{HoldsBytes, nothing_held, with_input, without_input, without_page};
ghost use Rattle.teco_hosts.specs.Held.{with_all_read, unread_bytes, written_if_any};
ghost use Rattle.teco_hosts.specs.HostCalls.{OpensIn, OpensOut, Closes};
ghost use Rattle.teco_hosts.specs.HostFiles.{HostFiles, Told, Becomes, after_dropping};
ghost use Rattle.teco_hosts.specs.Events.{dropped};
ghost use Rattle.teco_hosts.specs.Noting.{Touches, has_ended, noted_open_in, noted_open_out, noted_close_out};
ghost use Rattle.teco_hosts.specs.PageCalls.{OkOrNoFile, OkOrCannotOpen, OkOrOut, OkOrCannotRead, OkOrInOut};
ghost use Rattle.teco_hosts.specs.PageCalls.{MakesReady, WritesBytes, CopiesRest};
ghost use Rattle.teco_hosts.specs.Reading.{EndsPage};

use crate::ahead::Ahead;
use crate::fault::{Failed, Fault};
use crate::host::Host;
use crate::write::{copy_rest, write_all, write_both};
use std::alloc::Global;
use std::marker::Model;
use std::mem;
use teco_base::LIMIT;
use teco_base::bytes::FF;
use teco_model::{are_bytes, pieces_are_bytes};

/// What an editor has open: an input that is read page by page, and an output.
///
/// Of the input's bytes it keeps the page that is read and at most 4,096 bytes behind it. Bytes
/// that were read and not accepted stay unread input, whatever is refused. A fault of the host
/// comes only where the host's count of failures rose.
#[derive(Drop)]
pub struct Pages {
    input: Option<Vec<u8>>,
    output: Option<Vec<u8>>,
    // what is read of a page
    page: Vec<u8>,
    // once the page is ready: did a form feed end it?
    ready: Option<bool>,
    ahead: Ahead,
    // nothing is to be read behind what is held
    end: bool,
}

impl Model for Pages {
    ghost use Rattle.teco_hosts.specs.Held.{Held, IsWhole, name_in, page_in, behind_page_in};

    ghost Value = { Held };

    ghost view = { λ p. record {
      input = name_in p.input;
      ready = page_in p.page.items p.ready;
      ahead = behind_page_in p.page.items p.ready p.ahead;
      end = p.end;
      output = name_in p.output;
    } };

    ghost invariant = { λ p. IsWhole (name_in p.input) p.page.items p.ready p.ahead p.end };
}

impl Pages {
    /// Nothing is open. It has taken no memory yet, and will take it from `alloc`.
    pub fn new(alloc: Global) -> Pages
        ensures { result ≡ nothing_held }
    {
        Pages {
            input: None,
            output: None,
            page: Vec::new(alloc),
            ready: None,
            ahead: Ahead::new(),
            end: true,
        }
    }

    /// What always holds: what is held of the input is of bytes.
    pub fn is_of_bytes(&self)
        ensures { HoldsBytes self.now }
    {
        are_bytes(&self.page);
        are_bytes(self.ahead.bytes());
        pieces_are_bytes(&self.page, self.ahead.bytes());
    }

    /// Opens the file of a name as the input, in the place of the one before. A refusal leaves that
    /// one open.
    ///
    /// # Errors
    ///
    /// `NoFile` where the host does not open it; `Memory` where the name cannot be kept.
    pub fn open_in<H: Host>(&mut self, name: &[u8], host: &mut H) -> Result<(), Fault>
        ensures answer { OkOrNoFile result (H.failures host.old) (H.failures host.new) }
        ensures files { OpensIn name.now result (H.files host.old) (H.files host.new) }
        ensures noted { Touches (noted_open_in name.now result) self.old.end self.new.end
            (H.files host.old) (H.files host.new) }
        ensures ok { OnOk result (self.new ≡ with_input name.now self.old) }
        ensures err { OnErr result (self.new ≡ self.old) }
    {
        let name = Vec::from_slice(*self.page.allocator(), name)?;
        if let Err(Failed) = host.open_in(&name) {
            return Err(Fault::NoFile);
        }
        self.input = Some(name);
        self.page.clear();
        self.ready = None;
        self.ahead.clear();
        self.end = false;
        Ok(())
    }

    /// Closes the input, if one is open, with all that is held of it.
    pub fn close_in(&mut self)
        ensures { self.new ≡ without_input self.old }
    {
        self.input = None;
        self.page.clear();
        self.ready = None;
        self.ahead.clear();
        self.end = true;
    }

    /// The name of the open input, if one is open.
    pub fn input_name(&self) -> Option<&[u8]>
        ensures { option_copied result ≡ self.now.input }
    {
        self.input.as_deref()
    }

    /// Opens an output that will have this name once it is closed.
    ///
    /// # Errors
    ///
    /// `Out` where the host does not open it; `Memory` where the name cannot be kept.
    pub fn open_out<H: Host>(&mut self, name: &[u8], host: &mut H) -> Result<(), Fault>
        ensures answer { OkOrCannotOpen result (H.failures host.old) (H.failures host.new) }
        ensures files { OpensOut name.now result (H.files host.old) (H.files host.new) }
        ensures noted { Touches (noted_open_out name.now result) self.old.end self.new.end
            (H.files host.old) (H.files host.new) }
        ensures ok { OnOk result (self.new ≡ record self.old { output = Some name.now }) }
        ensures err { OnErr result (self.new ≡ self.old) }
    {
        let name = Vec::from_slice(*self.page.allocator(), name)?;
        if let Err(Failed) = host.open_out(&name) {
            return Err(Fault::Out);
        }
        self.output = Some(name);
        Ok(())
    }

    /// Closes the output, which takes its name. A fault leaves none open, and the file of that name
    /// as it was.
    ///
    /// # Errors
    ///
    /// `Out` where the host does not close it.
    pub fn close_out<H: Host>(&mut self, host: &mut H) -> Result<(), Fault>
        ensures answer { OkOrOut result (H.failures host.old) (H.failures host.new) }
        ensures files { Closes result (H.files host.old) (H.files host.new) }
        ensures noted { Touches (noted_close_out result) self.old.end self.new.end
            (H.files host.old) (H.files host.new) }
        ensures closed { self.new ≡ record self.old { output = None } }
    {
        self.output = None;
        if let Err(Failed) = host.close_out() {
            return Err(Fault::Out);
        }
        Ok(())
    }

    /// Drops the output, which leaves no trace. A fault leaves none open either.
    ///
    /// # Errors
    ///
    /// `Out` where the host does not drop it.
    pub fn drop_out<H: Host>(&mut self, host: &mut H) -> Result<(), Fault>
        ensures answer { OkOrOut result (H.failures host.old) (H.failures host.new) }
        ensures files { Becomes after_dropping (H.files host.old) (H.files host.new) }
        ensures noted { Touches (dropped ∷ []) self.old.end self.new.end
            (H.files host.old) (H.files host.new) }
        ensures closed { self.new ≡ record self.old { output = None } }
    {
        self.output = None;
        if let Err(Failed) = host.drop_out() {
            return Err(Fault::Out);
        }
        Ok(())
    }

    /// The name that the open output will have, if one is open.
    pub fn output_name(&self) -> Option<&[u8]>
        ensures { option_copied result ≡ self.now.output }
    {
        self.output.as_deref()
    }

    /// Makes the first page of the unread input ready, unless it is: an empty page at the end of
    /// the input, and without one. It stays unread input.
    ///
    /// # Errors
    ///
    /// `In` where the host fails to read; `Full` where the page is longer than `LIMIT`;
    /// `Memory` where memory is refused.
    ///
    /// # Examples
    ///
    /// ```
    /// fn reads_a_page(pages: &mut Pages, host: &mut MemHost) -> Result<bool, Fault> {
    ///     host.put(b"in", b"first\x0csecond")?;
    ///     pages.open_in(b"in", host)?;
    ///     pages.next_page(host)?;
    ///     Ok(matches!(pages.page(), Some((b"first", true))))
    /// }
    /// ```
    pub fn next_page<H: Host>(&mut self, host: &mut H) -> Result<(), Fault>
        ensures answer { OkOrCannotRead result (H.failures host.old) (H.failures host.new) }
        ensures page { Told (MakesReady result self.old self.new)
            (H.files host.old) (H.files host.new) }
        ensures no_input { OnOk result (self.old.input ≡ None
            → self.new.ready ≡ Some (first_page [])) }
        ensures ready { OnOk result (IsSome self.new.ready) }
        ensures limit { IfSome self.new.ready (λ page. length page.text ≤ LIMIT) }
        ensures err { OnErr result (self.new.ready ≡ None) }
        ensures input { self.new.input ≡ self.old.input }
        ensures output { self.new.output ≡ self.old.output }
        ensures noted { Touches [] self.old.end self.new.end
            (H.files host.old) (H.files host.new) }
    {
        if self.ready.is_some() {
            return Ok(());
        }
        if self.end {
            self.ready = Some(false);
            return Ok(());
        }
        let ff = match read_page(&mut self.page, &mut self.ahead, host) {
            Ok(ff) => ff,
            Err(fault) => return Err(fault),
        };
        self.ready = Some(ff);
        self.end = !ff;
        Ok(())
    }

    /// The page that is ready, if one is, and whether a form feed ended it.
    pub fn page(&self) -> Option<(&[u8], bool)>
        ensures value { option_map (λ lent. record { text = lent.0.now; ff = lent.1 }) result
            ≡ self.now.ready }
        ensures limit { IfSome result (λ lent. length lent.0.now ≤ LIMIT) }
    {
        match self.ready {
            Some(ff) => Some((&self.page, ff)),
            None => None,
        }
    }

    /// How many bytes of the unread input it holds.
    pub fn read_ahead(&self) -> usize
        ensures { result ≡ length (written_if_any self.now.ready ++ self.now.ahead) }
    {
        let bytes = self.page.len() + self.ahead.bytes().len();
        match self.ready {
            Some(true) => bytes + 1,
            Some(false) | None => bytes,
        }
    }

    /// Accepts the page that is ready, if one is: it is no unread input any more.
    pub fn accept_page(&mut self)
        ensures accepted { self.new ≡ without_page self.old }
        ensures rest { IsSome self.old.ready →
            (files : HostFiles) → unread_bytes self.new files
            ≡ behind_first_page (unread_bytes self.old files) }
    {
        if self.ready.is_some() {
            self.page.clear();
            self.ready = None;
        }
    }

    /// Hands out the page that is ready, and whether a form feed ended it, and accepts it. `None`
    /// where none is ready.
    pub fn take_page(&mut self) -> Option<(Vec<u8>, bool)>
        ensures value { option_map (λ taken. record { text = taken.0.items; ff = taken.1 }) result
            ≡ self.old.ready }
        ensures limit { IfSome result (λ taken. length taken.0.items ≤ LIMIT) }
        ensures accepted { self.new ≡ without_page self.old }
        ensures rest { IsSome self.old.ready →
            (files : HostFiles) → unread_bytes self.new files
            ≡ behind_first_page (unread_bytes self.old files) }
    {
        let ff = self.ready.take()?;
        let spare = Vec::new(*self.page.allocator());
        Some((mem::replace(&mut self.page, spare), ff))
    }

    /// Takes over memory that a page may be read into, unless there is more already. What it holds
    /// is dropped.
    pub fn take_over(&mut self, mut spare: Vec<u8>)
        ensures { self.new ≡ self.old }
    {
        if self.page.is_empty() && self.page.capacity() < spare.capacity() {
            spare.clear();
            self.page = spare;
        }
    }

    /// Writes a page in two parts to the output, and a form feed behind it if `ff` says so; with a
    /// fault some of that from its front.
    ///
    /// # Errors
    ///
    /// `Out` where the host fails to write.
    ///
    /// # Examples
    ///
    /// ```
    /// fn writes_a_file(pages: &mut Pages, host: &mut MemHost) -> Result<bool, Fault> {
    ///     pages.open_out(b"out", host)?;
    ///     pages.write_page(b"one ", b"two", false, host)?;
    ///     pages.close_out(host)?;
    ///     Ok(matches!(host.file(b"out"), Some(b"one two")))
    /// }
    /// ```
    pub fn write_page<H: Host>(
        &self,
        first: &[u8],
        second: &[u8],
        ff: bool,
        host: &mut H,
    ) -> Result<(), Fault>
        ensures answer { OkOrOut result (H.failures host.old) (H.failures host.new) }
        ensures written { WritesBytes (written_page
            (record { text = first.now ++ second.now; ff = ff })) result
            (H.files host.old) (H.files host.new) }
        ensures noted { Touches [] self.now.end self.now.end
            (H.files host.old) (H.files host.new) }
    {
        write_both(host, first, second)?;
        write_all(host, ending(ff))
    }

    /// Writes all unread input to the output, piece by piece; with a fault some of it from its
    /// front.
    ///
    /// # Errors
    ///
    /// `In` where the host fails to read, `Out` where it fails to write, `Memory` where memory
    /// is refused.
    pub fn write_rest<H: Host>(&mut self, host: &mut H) -> Result<(), Fault>
        ensures answer { OkOrInOut result (H.failures host.old) (H.failures host.new) }
        ensures copied { Told (CopiesRest result self.old self.new)
            (H.files host.old) (H.files host.new) }
        ensures ok { OnOk result (self.new ≡ with_all_read self.old) }
        ensures input { self.new.input ≡ self.old.input }
        ensures output { self.new.output ≡ self.old.output }
        ensures noted { Touches [] self.old.end self.new.end
            (H.files host.old) (H.files host.new) }
    {
        write_both(host, &self.page, ending(self.ready.unwrap_or(false)))?;
        self.page.clear();
        self.ready = None;
        if !self.end {
            copy_rest(&mut self.ahead, host)?;
            self.end = true;
        }
        Ok(())
    }
}

// Reads on to the end of a page; answers whether a form feed ended it. What is read of it stays
// where that is refused.
fn read_page<H: Host>(into: &mut Vec<u8>, ahead: &mut Ahead, host: &mut H) -> Result<bool, Fault>
    requires plain { has_form_feed into.old.items ≡ false }
    requires short { length into.old.items ≤ LIMIT }
    ensures ends { EndsPage (into.old.items ++ ahead.old) (H.files host.old)
        into.new.items ahead.new (H.files host.new)
        (H.failures host.old) (H.failures host.new) result }
    ensures plain { has_form_feed into.new.items ≡ false }
    ensures short { length into.new.items ≤ LIMIT }
    ensures noted { Touches [] false (has_ended result) (H.files host.old) (H.files host.new) }
{
    for _ in 0..LIMIT + 1 {
        if !ahead.top_up(host)? {
            return Ok(false);
        }
        if ahead.give(into)? {
            return Ok(true);
        }
    }
    Err(Fault::Full)
}

// What stands behind a page that a form feed ended, or did not.
fn ending(ff: bool) -> &'static [u8]
    ensures { result.now ≡ (if ff then FF ∷ [] else []) }
{
    if ff { &[FF] } else { &[] }
}
