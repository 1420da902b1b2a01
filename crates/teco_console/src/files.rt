//! Files that are read whole.
ghost use Rattle.std.specs.Prelude.{◌≡◌, ◌≤◌, ℕ, List, Option, None, IfOk, IfSome, length, vec_len};
ghost use Rattle.teco_base.specs.declared.TheConstants.{LIMIT};

use crate::fault::AnswerFault;
use std::alloc::{AllocError, Global};
use std::io::{Input, Read};
use std::rt::Files;
use std::{fs, io};
use teco_base::LIMIT;
use teco_source::Shown;

/// The name of a standard stream.
pub const STREAM: &str = "-";

// A name as messages have it.
fn shown(alloc: Global, name: &str) -> Result<String, AllocError> {
    format!(in alloc; "{}", Shown(name.as_bytes()))
}

// Why a file can't be read.
fn unread(alloc: Global, name: &str, reason: io::Error) -> AnswerFault {
    match shown(alloc, name) {
        Ok(name) => AnswerFault::Read { name, reason },
        Err(AllocError) => AnswerFault::Memory,
    }
}

// Why a file is not read that has too many bytes.
fn too_long(alloc: Global, name: &str) -> AnswerFault {
    match shown(alloc, name) {
        Ok(name) => AnswerFault::Long { name },
        Err(AllocError) => AnswerFault::Memory,
    }
}

// Reads what a reader has, at most a byte more than `LIMIT`.
fn read_all<F: Read + Drop>(alloc: Global, reader: F) -> io::Result<Vec<u8>> {
    let mut bytes = Vec::new(alloc);
    reader.take(LIMIT as u64 + 1).read_to_end(&mut bytes)?;
    Ok(bytes)
}

/// Files that are read whole, by their names; that of standard input is `-`.
pub trait Shelf {
    /// What the file of a name has, where that is told.
    ghost holds: { Self → List ℕ → Option (List ℕ) } = { λ _ _. None };

    /// Reads a file; of one that has more than `LIMIT` bytes, one more than these.
    fn read_named(&self, alloc: Global, name: &str) -> io::Result<Vec<u8>>
        ensures { IfOk result (λ bytes. vec_len bytes ≤ LIMIT
            → IfSome (holds self.now name.now) (λ told. bytes.items ≡ told)) };
}

impl<R: Files + Input> Shelf for R {
    fn read_named(&self, alloc: Global, name: &str) -> io::Result<Vec<u8>> {
        if name == STREAM {
            read_all(alloc, self.reader())
        } else {
            read_all(alloc, fs::open(self, name)?)
        }
    }
}

// The bytes of a file, if they are not too many.
fn within_limit(alloc: Global, name: &str, bytes: Vec<u8>) -> Result<Vec<u8>, AnswerFault>
    ensures within { IfOk result (λ bytes. vec_len bytes ≤ LIMIT) }
    ensures same { IfOk result (λ kept. kept ≡ bytes) }
{
    if bytes.len() > LIMIT {
        Err(too_long(alloc, name))
    } else {
        Ok(bytes)
    }
}

/// Reads a file of at most `LIMIT` bytes; `-` is standard input.
pub fn read_file<R: Shelf>(rt: &R, alloc: Global, name: &str) -> Result<Vec<u8>, AnswerFault>
    ensures within { IfOk result (λ bytes. vec_len bytes ≤ LIMIT) }
    ensures told { IfOk result (λ bytes. IfSome (R.holds rt.now name.now)
        (λ told. bytes.items ≡ told)) }
{
    match rt.read_named(alloc, name) {
        Err(reason) => Err(unread(alloc, name, reason)),
        Ok(bytes) => within_limit(alloc, name, bytes),
    }
}
