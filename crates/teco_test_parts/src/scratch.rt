//! A scratch folder, and what tests do with a host there. A call that is refused memory is made once
//! more, so that each test also holds where one allocation fails: then nothing is lost or done twice.
use std::alloc::{AllocError, Global};
use std::os::unix::fs::PermissionsExt;
use std::{fs, io};
use teco_pages::{Failed, FileHost, Host, System, TroubleReason};

// Removes a folder with all that it has; answers whether it could.
pub fn remove(rt: &HostRuntime, folder: &str) -> bool {
    fs::remove_dir_all(rt, folder).is_ok() || fs::remove_dir_all(rt, folder).is_ok()
}

// Makes an empty folder; answers whether it could.
pub fn scratch(rt: &HostRuntime, folder: &str) -> bool {
    let _is_gone = remove(rt, folder);
    fs::create_dir(rt, folder).is_ok()
}

// How many names a folder has. None where it can't be read whole.
fn count_names(rt: &HostRuntime, folder: &str) -> Option<usize> {
    let Ok(names) = fs::read_dir(rt, folder) else {
        return None;
    };
    let mut count = 0usize;
    for name in names {
        if name.is_err() {
            return None;
        }
        count = count.saturating_add(1);
    }
    Some(count)
}

// Has a folder so many names?
pub fn has_names(rt: &HostRuntime, folder: &str, want: usize) -> bool {
    count_names(rt, folder) == Some(want) || count_names(rt, folder) == Some(want)
}

// The permissions of a file.
pub fn mode(rt: &HostRuntime, path: &str) -> Option<u32> {
    match fs::metadata(rt, path) {
        Ok(metadata) => Some(metadata.permissions().mode() & 0o7777),
        Err(_) => None,
    }
}

// Has the file these bytes?
pub fn is_file(rt: &HostRuntime, path: &str, want: &[u8]) -> bool {
    let bytes = fs::read(rt, path).or_else(|_| fs::read(rt, path));
    matches!(bytes, Ok(bytes) if bytes.as_slice() == want)
}

// Is there no such file?
pub fn is_missing(rt: &HostRuntime, path: &str) -> bool {
    matches!(fs::exists(rt, path), Ok(false))
}

// Is this file alone in its folder, with these bytes?
pub fn is_alone(rt: &HostRuntime, folder: &str, path: &str, want: &[u8]) -> bool {
    has_names(rt, folder, 1) && is_file(rt, path, want)
}

// A host of the files of the system.
pub fn host(rt: &HostRuntime) -> FileHost<HostRuntime> {
    FileHost::new(rt.alloc(), *rt)
}

// Was memory refused to the call of a host that failed last?
pub fn is_refused<R: System>(host: &FileHost<R>) -> bool {
    match host.trouble() {
        Some(trouble) => match &trouble.reason {
            TroubleReason::Memory => true,
            TroubleReason::System(error) => error.kind() == io::ErrorKind::OutOfMemory,
            _ => false,
        },
        None => false,
    }
}

// Opens an output and writes some bytes to it; answers whether it could. None is open where memory was refused.
pub fn begin_out<R: System>(host: &mut FileHost<R>, path: &str, bytes: &[u8]) -> bool {
    let mut is_open = host.open_out(path.as_bytes()).is_ok();
    if !is_open && is_refused(host) && host.write(b"none is open").is_err() {
        is_open = host.open_out(path.as_bytes()).is_ok();
    }
    is_open && matches!(host.write(bytes), Ok(n) if n == bytes.len())
}

// A long text, each of whose bytes tells where it stands.
pub fn long_text(alloc: Global, len: usize) -> Result<Vec<u8>, AllocError> {
    let mut bytes = match vec![in alloc; 0; len] {
        Ok(bytes) => bytes,
        Err(AllocError) => vec![in alloc; 0; len]?,
    };
    for (n, byte) in bytes.iter_mut().enumerate() {
        *byte = (n % 251) as u8;
    }
    Ok(bytes)
}

// Opens an input; answers whether it could. The one before stays open where memory was refused.
pub fn begin_in<R: System>(host: &mut FileHost<R>, path: &str) -> bool {
    let left = host.bytes_left();
    let mut is_open = host.open_in(path.as_bytes()).is_ok();
    if !is_open && is_refused(host) && host.bytes_left() == left {
        is_open = host.open_in(path.as_bytes()).is_ok();
    }
    is_open
}

// Writes a text in pieces of so many bytes; answers whether it could.
pub fn write_pieces(host: &mut impl Host, text: &[u8], piece: usize) -> bool {
    let mut rest = text;
    for _ in 0..text.len() {
        if rest.is_empty() {
            break;
        }
        let Ok(n) = host.write(&rest[..rest.len().min(piece)]) else {
            return false;
        };
        let Some(behind) = rest.get(n..) else {
            return false;
        };
        rest = behind;
    }
    true
}

// Makes a file of some bytes that are written at once; answers whether it could.
pub fn put_whole<R: System>(host: &mut FileHost<R>, path: &str, bytes: &[u8]) -> bool {
    begin_out(host, path, bytes) && host.close_out().is_ok()
}

// What is left of a text behind the next bytes of an input, if it begins with them.
fn behind<'a>(
    host: &mut impl Host,
    text: &'a [u8],
    room: &mut [u8],
) -> Result<Option<&'a [u8]>, Failed> {
    match host.read(room) {
        Ok(n) => Ok(text.strip_prefix(&room[..n])),
        Err(Failed) => Err(Failed),
    }
}

// Reads an input in pieces of so many bytes: does it have this text?
pub fn reads(host: &mut impl Host, text: &[u8], piece: usize) -> Result<bool, Failed> {
    let mut buf = [0; 70_000];
    let room = &mut buf[..piece.min(70_000)];
    let mut rest = text;
    for _ in 0..=text.len() {
        match behind(host, rest, room)? {
            Some(left) if left.len() < rest.len() => rest = left,
            left => return Ok(left.is_some() && rest.is_empty()),
        }
    }
    Ok(false)
}

// Is a text written in pieces of so many bytes, and read so?
fn is_moved<R: System>(host: &mut FileHost<R>, path: &str, text: &[u8], piece: usize) -> bool {
    begin_out(host, path, b"")
        && write_pieces(host, text, piece)
        && host.close_out().is_ok()
        && begin_in(host, path)
        && matches!(reads(host, text, piece), Ok(true))
}

// Does a text of so many bytes arrive that is written in pieces of so many, and is it read so?
pub fn is_exact(rt: &HostRuntime, path: &str, size: usize, piece: usize) -> bool {
    match long_text(rt.alloc(), size) {
        Ok(text) => is_moved(&mut host(rt), path, &text, piece) && is_file(rt, path, &text),
        Err(AllocError) => false,
    }
}
