//! Writing all of some bytes, and all that is unread.
ghost use Rattle.std.specs.Prelude.{◌≡◌, ◌++◌, [], Bool, false, OnOk, is_ok};
ghost use Rattle.teco_hosts.specs.HostFiles.{Told};
ghost use Rattle.teco_hosts.specs.Noting.{Touches};
ghost use Rattle.teco_hosts.specs.PageCalls.{OkOrOut, OkOrInOut, WritesBytes, Copies};

use crate::ahead::Ahead;
use crate::fault::{Failed, Fault};
use crate::host::Host;
use teco_base::LIMIT;
use teco_model::are_bytes;

// Writes all bytes, or with a fault some from their front.
pub fn write_all<H: Host>(host: &mut H, bytes: &[u8]) -> Result<(), Fault>
    ensures answer { OkOrOut result (H.failures host.old) (H.failures host.new) }
    ensures written { WritesBytes bytes.now result (H.files host.old) (H.files host.new) }
    ensures given { H.given host.new ≡ H.given host.old }
    ensures noted { (end : Bool) → Touches [] end end (H.files host.old) (H.files host.new) }
{
    are_bytes(bytes);
    let mut written = 0;
    for _ in 0..bytes.len() {
        if written == bytes.len() {
            return Ok(());
        }
        match host.write(&bytes[written..]) {
            Ok(n) => written += n,
            Err(Failed) => return Err(Fault::Out),
        }
    }
    Ok(())
}

// Writes two pieces of bytes, one after the other, or with a fault some from their front.
pub fn write_both<H: Host>(host: &mut H, first: &[u8], second: &[u8]) -> Result<(), Fault>
    ensures answer { OkOrOut result (H.failures host.old) (H.failures host.new) }
    ensures written { WritesBytes (first.now ++ second.now) result
        (H.files host.old) (H.files host.new) }
    ensures given { H.given host.new ≡ H.given host.old }
    ensures noted { (end : Bool) → Touches [] end end (H.files host.old) (H.files host.new) }
{
    write_all(host, first)?;
    write_all(host, second)
}

// Writes what is read ahead and all that the host has behind it, or with a fault some from the
// front.
pub fn copy_rest<H: Host>(ahead: &mut Ahead, host: &mut H) -> Result<(), Fault>
    ensures answer { OkOrInOut result (H.failures host.old) (H.failures host.new) }
    ensures copied { Told (λ files left. Copies result (ahead.old ++ files.unread)
        (ahead.new ++ left.unread) files left)
        (H.files host.old) (H.files host.new) }
    ensures ok { OnOk result (ahead.new ≡ []) }
    ensures noted { Touches [] false (is_ok result) (H.files host.old) (H.files host.new) }
{
    // each turn but the last is given a byte, and a host gives at most `LIMIT`
    for _ in 0..LIMIT + 1 {
        write_all(host, ahead.bytes())?;
        ahead.clear();
        ahead.fill(host)?;
        if ahead.is_empty() {
            return Ok(());
        }
    }
    unreachable!()
}
