//! Bytes that were read and not yet used.
ghost use Rattle.std.specs.Prelude.{◌≡◌, ◌≤◌, ◌<◌, [], length, take, drop, IfOk, IfErr, OnErr, OnOk};
ghost use Rattle.std.specs.Io.KnownBytes.{Consumes, Keeps, IsAtEnd, prepend_known};
ghost use Rattle.teco_session.specs.declared.fault.SessionFault.TheVariants.{Read as CannotRead};

use crate::fault::SessionFault;
use std::io::{ErrorKind, Read};
use std::marker::Model;

/// How many bytes are read at a time, at most.
pub const CHUNK: usize = 16_384;

/// Bytes that were read and not yet used.
#[derive(Drop)]
pub struct ReadAhead {
    chunk: [u8; CHUNK],
    used: usize,
    filled: usize,
}

impl Model for ReadAhead {
    ghost use Rattle.std.specs.Prelude.{ℕ, ◌≤◌, List, slice_range};
    ghost use Rattle.teco_session.specs.declared.ahead.TheConstants.{CHUNK};

    ghost Value = { List ℕ };

    ghost view = { λ a. slice_range a.chunk a.used a.filled };

    ghost invariant = { λ a. (a.used ≤ a.filled) × (a.filled ≤ CHUNK) };
}

// Reads some bytes to the front of a chunk, and says how many; none are there at the end of the
// input alone.
fn read_some<R: Read>(reader: &mut R, chunk: &mut [u8]) -> Result<usize, SessionFault>
    ensures bound { IfOk result (λ n. n ≤ length chunk.new) }
    ensures ok { IfOk result (λ n.
        Consumes (R.remaining reader.old) (R.remaining reader.new) (take n chunk.new)) }
    ensures end { IfOk result (λ n. n ≡ 0 → 0 < length chunk.old
        → IsAtEnd (R.remaining reader.new)) }
    ensures err { IfErr result (λ fault. fault ≡ CannotRead) }
    ensures kept { OnErr result (Keeps (R.remaining reader.old) (R.remaining reader.new)) }
{
    for _ in 0..u64::MAX {
        match reader.read(chunk) {
            Ok(n) => return Ok(n),
            Err(error) => {
                if error.kind() != ErrorKind::Interrupted {
                    return Err(SessionFault::Read);
                }
            }
        }
    }
    Err(SessionFault::Read)
}

impl ReadAhead {
    /// No bytes.
    pub fn new() -> Self
        ensures { result ≡ [] }
    {
        ReadAhead {
            chunk: [0; CHUNK],
            used: 0,
            filled: 0,
        }
    }

    /// The bytes.
    pub fn bytes(&self) -> &[u8]
        ensures bytes { result.now ≡ self.now }
        ensures one_read { length result.now ≤ CHUNK }
    {
        &self.chunk[self.used..self.filled]
    }

    /// Reads more bytes where there are none; none come at the end of the input alone.
    pub fn fill<R: Read>(&mut self, reader: &mut R) -> Result<(), SessionFault>
        ensures same { Keeps (prepend_known self.old (R.remaining reader.old))
            (prepend_known self.new (R.remaining reader.new)) }
        ensures one_read { length self.new ≤ CHUNK }
        ensures end { OnOk result (self.new ≡ [] → IsAtEnd (R.remaining reader.new)) }
        ensures err { IfErr result (λ fault. fault ≡ CannotRead) }
        ensures none { OnErr result (self.new ≡ []) }
    {
        if self.used == self.filled {
            self.used = 0;
            self.filled = 0;
            self.filled = read_some(reader, &mut self.chunk)?;
        }
        Ok(())
    }

    /// Uses the first `n`.
    pub fn skip(&mut self, n: usize)
        requires { n ≤ length self.old }
        ensures { self.new ≡ drop n self.old }
    {
        self.used += n;
    }
}
