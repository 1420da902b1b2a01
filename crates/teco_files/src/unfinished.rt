//! Outputs that are not closed yet.
ghost use Rattle.std.specs.Prelude.{◌≡◌, ◌≤◌, ◌<◌, [], length, IfOk, OnOk};
ghost use Rattle.std.specs.Io.KnownBytes.{Keeps, WriteAppends};
ghost use Rattle.teco_files.specs.Buffers.{unfinished_contents, unfinished_kept};

use crate::backup::{Backup, replace};
use crate::comparing::is_same_file;
use crate::descriptor::above_standard;
use crate::identity::Identity;
use crate::inheritance::inherit_owner;
use crate::process::ProcessFacts;
use crate::source::room_for;
use crate::system::System;
use crate::target::{Target, folder_of};
use crate::trouble::TroubleReason;
use std::alloc::Global;
use std::fs::{Files, Metadata, OpenFile, OpenOptions, Permissions};
use std::io::{BufWriter, Write};
use std::os::unix::fs::OpenOptionsExt;
use std::time::{Clock, Duration};
use std::{fs, io, str};

// How many names are tried. They begin at the time of day, so that files that killed runs left are
// not in the way.
const TRIES: u64 = 1000;

// Until a file that will replace another has that file's permissions, nobody else may read it.
const PRIVATE: u32 = 0o600;

// How many bytes are compared at a time, at most.
const COMPARED: usize = 1 << 16;

/// What becomes of an output that is closed.
#[derive(Clone, Copy)]
pub enum Closing {
    /// The output replaces its target.
    Replaces,
    /// The output replaces its target, unless that has the same bytes already.
    ReplacesOther,
    /// The output is compared with its target, which stays as it is.
    Compares,
}

/// How a host treats its files.
#[derive(Clone, Copy)]
pub struct Handling {
    pub closing: Closing,
    /// May an output replace only the file that is open as the input, as that was when it was
    /// opened? Inputs are regular files then.
    pub in_place: bool,
    /// Is an output made to outlast a power cut, before it has its name and then with it?
    pub is_durable: bool,
}

/// What became of an output that was closed.
#[derive(Clone, Copy)]
pub enum Closed {
    /// Its target has other bytes now, or would have, where it was only compared.
    Changed,
    /// Its target has the same bytes as before.
    Same,
}

/// How an output is closed.
#[derive(Clone, Copy)]
pub struct Finish<'a> {
    pub handling: Handling,
    /// Does it have the bytes of its target? None where that is not known yet.
    pub is_same: Option<bool>,
    /// How the file that it replaces is kept, if it is.
    pub backup: Option<&'a Backup>,
    /// The bytes that the file that it replaces must have still, where they are known.
    pub old: Option<&'a [u8]>,
}

impl Finish<'_> {
    // Is it known that the output has the bytes of its target, which need not be written again then?
    fn is_needless(&self) -> bool {
        self.is_same == Some(true) && self.handling.closing != Closing::Replaces
    }
}

/// An output that is not closed yet: a new file beside its target.
#[derive(Drop)]
pub struct Unfinished<F: Write + Drop> {
    // the file, and behind what it has what is kept of small writes
    writer: BufWriter<F>,
    // which file it is, where the system told that
    written: Option<Identity>,
    // where it is
    beside: String,
    // where it will be
    target: String,
    // the only file that it may replace, where it may not replace any
    only: Option<Identity>,
    // what it will be given of the file that it replaces
    permissions: Option<Permissions>,
    // how many bytes the system still lets it take
    room: u64,
}

impl<F: OpenFile + Write + Drop> Unfinished<F> {
    /// Begins the output of a name, in the folder of its target. Where it may replace one file only,
    /// the name must stand for that.
    pub fn begin<R: System<File = F>>(
        rt: &R,
        alloc: Global,
        name: &[u8],
        facts: ProcessFacts,
        only: Option<Identity>,
    ) -> Result<Unfinished<F>, TroubleReason>
        ensures { IfOk result (λ o. unfinished_kept o ≡ []) }
    {
        let target = Target::of(rt, alloc, str::from_utf8(name)?)?;
        check_only(&target, only)?;
        let (file, beside) = make_beside(rt, alloc, &target, facts)?;
        let made = file.metadata().ok();
        let permissions = permissions_for(rt, &file, made.as_ref(), &target);
        let Ok(writer) = BufWriter::with_capacity(alloc, room_kept(&target), file) else {
            let _removed = fs::remove_file(rt, &beside);
            return Err(TroubleReason::Memory);
        };
        Ok(Unfinished {
            writer,
            written: made.as_ref().map(Identity::of),
            beside,
            target: target.path,
            only,
            permissions,
            room: facts.size_limit,
        })
    }

    /// Writes the first of some bytes, one at least of any: keeps them for later, or sends them on
    /// behind what was kept. What a failure leaves of that is kept on, and none of the bytes.
    pub fn write_some(&mut self, bytes: &[u8]) -> Result<usize, TroubleReason>
        ensures bound { IfOk result (λ n. n ≤ length bytes.now) }
        ensures some { IfOk result (λ n. 0 < length bytes.now → 0 < n) }
        ensures bytes { WriteAppends (unfinished_contents F.contents self.old)
            (unfinished_contents F.contents self.new) result bytes.now }
    {
        let most = bytes
            .len()
            .min(usize::try_from(self.room).unwrap_or(usize::MAX));
        if most == 0 && !bytes.is_empty() {
            return Err(TroubleReason::SizeLimit);
        }
        match self.writer.write(&bytes[..most])? {
            0 if most > 0 => Err(no_room()),
            n => {
                self.room = self.room.saturating_sub(n as u64);
                Ok(n)
            }
        }
    }

    // Gives it the permissions of the file that it replaces. Where they are refused nobody else may
    // read it.
    fn give_permissions(&mut self)
        ensures { self.new.writer ≡ self.old.writer }
    {
        if let Some(permissions) = self.permissions.take() {
            let _given = self.writer.get_ref().set_permissions(permissions);
        }
    }

    /// Moves it over its target or removes it, as the closing says. Where it was moved the path of
    /// its target is told.
    pub fn finish<R: System<File = F>>(
        mut self,
        rt: &R,
        alloc: Global,
        input: Option<&F>,
        how: Finish<'_>,
    ) -> Result<Ended, TroubleReason> {
        if how.is_needless() {
            return self.left(rt, Closed::Same);
        }
        match self.settle(rt, alloc, input, how) {
            Ok(Settled::Moved) => Ok(self.moved()),
            Ok(Settled::Left(closed)) => self.left(rt, closed),
            Err(reason) => {
                self.abandon(rt)?;
                Err(reason)
            }
        }
    }

    // It was moved.
    fn moved(self) -> Ended {
        Ended {
            closed: Closed::Changed,
            moved_to: Some(self.target),
        }
    }

    // It is not needed.
    fn left<R: Files>(self, rt: &R, closed: Closed) -> Result<Ended, TroubleReason> {
        self.abandon(rt)?;
        Ok(Ended {
            closed,
            moved_to: None,
        })
    }

    // Sends on what was kept, and moves it over its target where that is asked for.
    fn settle<R: System<File = F>>(
        &mut self,
        rt: &R,
        alloc: Global,
        input: Option<&F>,
        how: Finish<'_>,
    ) -> Result<Settled, TroubleReason>
        ensures sent { OnOk result (unfinished_kept self.new ≡ []) }
        ensures bytes { Keeps (unfinished_contents F.contents self.old)
            (unfinished_contents F.contents self.new) }
    {
        let written = self.writer.flush();
        self.give_permissions();
        written?;
        if let Some(closed) = self.compared(rt, alloc, how)? {
            return Ok(Settled::Left(closed));
        }
        self.move_over(rt, alloc, input, how)?;
        Ok(Settled::Moved)
    }

    // What becomes of it where it is compared with its target and then left.
    fn compared<R: Files>(
        &self,
        rt: &R,
        alloc: Global,
        how: Finish<'_>,
    ) -> Result<Option<Closed>, TroubleReason> {
        let closing = how.handling.closing;
        if closing == Closing::Replaces {
            return Ok(None);
        }
        let is_same = match how.is_same {
            Some(is_same) => is_same,
            None => is_same_file(rt, alloc, &self.beside, &self.target)?,
        };
        if is_same {
            return Ok(Some(Closed::Same));
        }
        Ok((closing == Closing::Compares).then_some(Closed::Changed))
    }

    // Moves it over its target, which is kept first where that is asked for.
    fn move_over<R: System<File = F>>(
        &self,
        rt: &R,
        alloc: Global,
        input: Option<&F>,
        how: Finish<'_>,
    ) -> Result<(), TroubleReason> {
        let is_durable = how.handling.is_durable;
        if is_durable {
            self.writer.get_ref().sync_all()?;
        }
        if !self.is_in_place(rt) {
            return Err(TroubleReason::Taken);
        }
        self.check_target(rt, alloc, input, how.old)?;
        replace(rt, alloc, how.backup, &self.beside, &self.target)?;
        if is_durable {
            // the name is there, and may only be lost with the power
            let _synced = sync_folder(rt, folder_of(&self.target));
        }
        Ok(())
    }

    // Is what it will replace still the file that it may replace, as it was? A change through a mapping
    // shows in its bytes alone, which are compared first: the system then tells of other changes.
    fn check_target<R: System<File = F>>(
        &self,
        rt: &R,
        alloc: Global,
        input: Option<&F>,
        old: Option<&[u8]>,
    ) -> Result<(), TroubleReason> {
        let Some(only) = self.only else {
            return Ok(());
        };
        let has_old = has_bytes(rt, alloc, input, old, only.length())?;
        let found = Identity::of(&fs::symlink_metadata(rt, &self.target)?);
        if found == only && has_old {
            Ok(())
        } else if found.is_same_file(only) {
            Err(TroubleReason::Changed)
        } else {
            Err(TroubleReason::Replaced)
        }
    }

    /// Removes it. What is still kept is dropped.
    pub fn abandon<R: Files>(self, rt: &R) -> Result<(), TroubleReason> {
        let is_in_place = self.is_in_place(rt);
        let Self {
            writer,
            written: _,
            beside,
            target: _,
            only: _,
            permissions: _,
            room: _,
        } = self;
        // in parts, since a writer that is let go sends on what it keeps
        let (_file, _kept) = writer.into_parts();
        if is_in_place {
            fs::remove_file(rt, &beside)?;
        }
        Ok(())
    }

    // Is what has its name still the file that was written? Another may have taken the name.
    fn is_in_place<R: Files>(&self, rt: &R) -> bool {
        match (self.written, fs::symlink_metadata(rt, &self.beside)) {
            (Some(written), Ok(named)) => written.is_same_file(Identity::of(&named)),
            _ => false,
        }
    }
}

/// What came of an output that was closed.
#[derive(Drop)]
pub struct Ended {
    pub closed: Closed,
    /// The path that it was moved to, if it was.
    pub moved_to: Option<String>,
}

// What became of the file that was written.
#[derive(Clone, Copy)]
enum Settled {
    Moved,
    Left(Closed),
}

// Has an open file the bytes that it must have, where they are known, and no others? Its end is looked
// for unless it has that length.
fn has_bytes<R: System>(
    rt: &R,
    alloc: Global,
    file: Option<&R::File>,
    old: Option<&[u8]>,
    length: u64,
) -> Result<bool, TroubleReason> {
    let (Some(file), Some(old)) = (file, old) else {
        return Ok(old.is_none());
    };
    let ends = old.len() as u64 == length;
    let mut room = vec![in alloc; 0; old.len().clamp(1, COMPARED)]?;
    let mut place = 0usize;
    for _ in 0..u64::MAX {
        if ends && place == old.len() {
            return Ok(true);
        }
        let n = rt.read_at(file, &mut room, place as u64)?;
        if n == 0 {
            return Ok(place == old.len());
        }
        if !starts_at(old, place, &room[..n]) {
            return Ok(false);
        }
        place = place.saturating_add(n);
    }
    Ok(false)
}

// Does a text have these bytes at a place?
fn starts_at(text: &[u8], place: usize, bytes: &[u8]) -> bool {
    text.get(place..)
        .is_some_and(|rest| rest.starts_with(bytes))
}

// Refuses a target that is not the one file that may be replaced.
fn check_only(target: &Target, only: Option<Identity>) -> Result<(), TroubleReason> {
    let Some(only) = only else {
        return Ok(());
    };
    match &target.replaced {
        Some(replaced) if Identity::of(replaced).is_same_file(only) => Ok(()),
        _ => Err(TroubleReason::Replaced),
    }
}

// A write that took nothing.
fn no_room() -> TroubleReason {
    TroubleReason::System(io::ErrorKind::WriteZero.into())
}

// Makes a file in the target's folder, under a name that no file has.
fn make_beside<R: System>(
    rt: &R,
    alloc: Global,
    target: &Target,
    facts: ProcessFacts,
) -> Result<(R::File, String), TroubleReason> {
    let mut options = OpenOptions::new();
    options.write(true).create_new(true);
    if target.replaced.is_some() {
        options.mode(PRIVATE);
    }
    let first = stamp(rt);
    for n in 0..TRIES {
        let beside = facts.name_beside(alloc, &target.path, first.wrapping_add(n))?;
        if let Some(file) = open_free(rt, &options, &beside)? {
            return Ok((file, beside));
        }
    }
    Err(TroubleReason::NoPlace)
}

// The new file of a name, unless some file has it.
fn open_free<R: System>(rt: &R, options: &OpenOptions, name: &str) -> io::Result<Option<R::File>> {
    match options.open(rt, name) {
        Ok(file) => Ok(Some(above_standard(rt, file)?)),
        Err(e) if e.kind() == io::ErrorKind::AlreadyExists => Ok(None),
        Err(error) => Err(error),
    }
}

// A number that was hardly given before: the time of day.
fn stamp<R: Clock>(rt: &R) -> u64 {
    let now = rt.since_1970().unwrap_or(Duration::ZERO);
    now.as_secs()
        .wrapping_mul(1_000_000_000)
        .wrapping_add(u64::from(now.subsec_nanos()))
}

// The permissions that an open file is given of the one that its target replaces.
fn permissions_for<R: System>(
    rt: &R,
    file: &R::File,
    made: Option<&Metadata>,
    target: &Target,
) -> Option<Permissions> {
    Some(inherit_owner(rt, file, made, target.replaced.as_ref()?))
}

// How many bytes of small writes are kept together: as many as are read ahead of the file that is
// replaced.
fn room_kept(target: &Target) -> usize {
    match &target.replaced {
        Some(replaced) => room_for(replaced.len()),
        None => room_for(0),
    }
}

/// Makes the names in a folder outlast a power cut.
pub fn sync_folder<R: Files>(rt: &R, folder: &str) -> io::Result<()> {
    fs::open(rt, folder)?.sync_all()
}
