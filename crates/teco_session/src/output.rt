//! What a session writes.
ghost use Rattle.std.specs.Prelude.{◌≡◌, ◌≤◌, ◌++◌, IfOk, IfErr, OnErr, length, take};
ghost use Rattle.std.specs.Io.KnownBytes.{Appends, Keeps};
ghost use Rattle.teco_session.specs.Output.{Writes};
ghost use Rattle.teco_session.specs.declared.fault.SessionFault.TheVariants.{Write as CannotWrite};

use crate::fault::SessionFault;
use std::io::{ErrorKind, Write};

// Writes some of the bytes, from the front, and says how many.
fn write_some<W: Write>(writer: &mut W, bytes: &[u8]) -> Result<usize, SessionFault>
    ensures bound { IfOk result (λ n. n ≤ length bytes.now) }
    ensures ok { IfOk result (λ n.
        Appends (W.contents writer.old) (W.contents writer.new) (take n bytes.now)) }
    ensures err { IfErr result (λ fault. fault ≡ CannotWrite) }
    ensures kept { OnErr result (Keeps (W.contents writer.old) (W.contents writer.new)) }
{
    for _ in 0..u64::MAX {
        match writer.write(bytes) {
            Ok(n) => return Ok(n),
            Err(error) => {
                if error.kind() != ErrorKind::Interrupted {
                    return Err(SessionFault::Write);
                }
            }
        }
    }
    Err(SessionFault::Write)
}

/// Writes all of the bytes, or with a fault a part of them from the front, and less than all.
pub fn write_bytes<W: Write>(writer: &mut W, bytes: &[u8]) -> Result<(), SessionFault>
    ensures { Writes (W.contents writer.old) (W.contents writer.new) bytes.now result }
{
    let mut written = 0;
    for _ in 0..u64::MAX {
        if written == bytes.len() {
            return Ok(());
        }
        let more = write_some(writer, &bytes[written..])?;
        if more == 0 {
            return Err(SessionFault::Write);
        }
        written += more;
    }
    Err(SessionFault::Write)
}

/// Writes two pieces of bytes, one after the other, or with a fault a part of them from the front,
/// and less than all.
pub fn write_both<W: Write>(writer: &mut W, first: &[u8], second: &[u8]) -> Result<(), SessionFault>
    ensures { Writes (W.contents writer.old) (W.contents writer.new)
        (first.now ++ second.now) result }
{
    write_bytes(writer, first)?;
    write_bytes(writer, second)
}
