//! The file that is read.
ghost use Rattle.std.specs.Prelude.{◌≡◌, ◌≤◌, ◌<◌, [], length, IfOk};
ghost use Rattle.std.specs.Io.KnownBytes.{ReadConsumes};
ghost use Rattle.teco_files.specs.Buffers.{source_ahead, source_remaining, source_room, source_told};

use crate::descriptor::above_standard;
use crate::identity::Identity;
use crate::system::System;
use crate::trouble::TroubleReason;
use std::alloc::Global;
use std::fs::{Metadata, OpenFile};
use std::io::{BufRead, BufReader, Read};
use std::{fs, io, str};

// How many bytes are read ahead: the file's length, but no fewer and no more than these.
const LEAST: usize = 1 << 12;

const MOST: usize = 1 << 16;

/// A file that is read, with what was read ahead of it.
#[derive(Drop)]
pub struct ReadFile<F: Drop> {
    reader: BufReader<F>,
    // the length that it was told to have when it was opened
    length: Option<u64>,
    // which file it was then
    identity: Identity,
    // a byte came behind all that it may give
    is_past: bool,
}

impl<F: OpenFile + Read + Drop> ReadFile<F> {
    /// Opens the file of a name. A folder is none, and where it is asked for no file that is not a
    /// regular one; that is looked at before it is opened, since opening may wait for ever.
    pub fn open<R: System<File = F>>(
        rt: &R,
        alloc: Global,
        name: &[u8],
        is_regular: bool,
    ) -> Result<ReadFile<F>, TroubleReason>
        ensures ahead { IfOk result (λ s. 0 < source_room s) }
        ensures none { IfOk result (λ s. source_ahead s ≡ []) }
    {
        let name = str::from_utf8(name)?;
        if is_regular {
            check_regular(&fs::metadata(rt, name)?)?;
        }
        let file = above_standard(rt, fs::open(rt, name)?)?;
        let metadata = file.metadata()?;
        if metadata.is_dir() {
            return Err(TroubleReason::Folder);
        }
        if is_regular {
            check_regular(&metadata)?;
        }
        let length = told_length(rt, name, &metadata);
        ReadFile::over(alloc, file, &metadata, length)
    }

    // The open file of some metadata, of which this length was told.
    fn over(
        alloc: Global,
        file: F,
        metadata: &Metadata,
        length: Option<u64>,
    ) -> Result<ReadFile<F>, TroubleReason>
        ensures ahead { IfOk result (λ s. 0 < source_room s) }
        ensures none { IfOk result (λ s. source_ahead s ≡ []) }
    {
        match BufReader::with_capacity(alloc, room_for(metadata.len()), file) {
            Ok(reader) => Ok(ReadFile {
                reader,
                length,
                identity: Identity::of(metadata),
                is_past: false,
            }),
            Err(_) => Err(TroubleReason::Memory),
        }
    }

    /// How many bytes the file had when it was opened. That is told of a regular one alone, and not of
    /// one whose length is 0 and which has bytes all the same, as files of `/proc` do.
    pub fn length(&self) -> Option<u64>
        ensures { result ≡ source_told self.now }
    {
        self.length
    }

    /// The first of the bytes that it gives next, as many as the system gives at once; none where it
    /// can't be read. They are given all the same.
    pub fn first_bytes(&mut self) -> &[u8] {
        self.reader.fill_buf().unwrap_or(&[])
    }

    /// The file itself.
    pub fn file(&self) -> &F {
        self.reader.get_ref()
    }

    /// Which file it was when it was opened.
    pub fn identity(&self) -> Identity {
        self.identity
    }

    /// Reads the next bytes, one at least unless the file is at its end. What the system gives at
    /// once is served at once, be it less than was asked for; a failure of it is told when all
    /// that was read before it is given.
    pub fn read(&mut self, buf: &mut [u8]) -> io::Result<usize>
        ensures bound { IfOk result (λ n. n ≤ length buf.new) }
        ensures bytes { ReadConsumes (source_remaining F.remaining self.old)
            (source_remaining F.remaining self.new) result buf.new }
    {
        self.reader.read(buf)
    }

    /// Reads the next bytes, but no more than are left of what the file may give. Where none are it
    /// must be at its end.
    pub fn read_within(&mut self, left: usize, buf: &mut [u8]) -> Result<usize, TroubleReason>
        ensures bound { IfOk result (λ n. n ≤ length buf.new) }
        ensures left { IfOk result (λ n. n ≤ left) }
    {
        if left == 0 {
            return if self.is_more() {
                Err(TroubleReason::Long)
            } else {
                Ok(0)
            };
        }
        let room = buf.len().min(left);
        Ok(self.read(&mut buf[..room])?)
    }

    // Does the file go on behind all that it may give? One that cannot be read may, and one that
    // went on does.
    fn is_more(&mut self) -> bool {
        let mut probe = [0; 1];
        self.is_past = self.is_past || !matches!(self.read(&mut probe), Ok(0));
        self.is_past
    }
}

// How many bytes a file has, if that can be told.
fn told_length<R: System>(rt: &R, name: &str, metadata: &Metadata) -> Option<u64> {
    let length = metadata.len();
    if metadata.is_file() && (length > 0 || is_empty(rt, name)) {
        Some(length)
    } else {
        None
    }
}

// Whether the file of a name has no bytes. It is opened once more, so that none is taken from who
// reads it.
fn is_empty<R: System>(rt: &R, name: &str) -> bool {
    let mut probe = [0; 1];
    match fs::open(rt, name) {
        Ok(mut file) => matches!(file.read(&mut probe), Ok(0)),
        Err(_) => false,
    }
}

// Refuses a file that is not a regular one.
fn check_regular(metadata: &Metadata) -> Result<(), TroubleReason> {
    if metadata.is_dir() {
        return Err(TroubleReason::Folder);
    }
    if metadata.is_file() {
        Ok(())
    } else {
        Err(TroubleReason::NotRegular)
    }
}

// How many bytes are kept of a file of this length, be it read ahead or written. A length of 0 tells nothing: pipes,
// devices and what the system makes up as it is read have it too.
pub(crate) fn room_for(length: u64) -> usize
    ensures least { LEAST ≤ result }
    ensures most { result ≤ MOST }
    ensures unknown { length ≡ 0 → result ≡ MOST }
{
    match usize::try_from(length) {
        Ok(0) | Err(_) => MOST,
        Ok(length) => length.clamp(LEAST, MOST),
    }
}
