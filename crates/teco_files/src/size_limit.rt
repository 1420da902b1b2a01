//! The limit that the system sets on the size of files.
use std::fs::Files;
use std::io::Read;
use std::{fs, io, str};

// Where a process reads its limits.
const LIMITS: &str = "/proc/self/limits";

// What the line of the limit begins with. A number or `unlimited` follows.
const NAME: &str = "Max file size";

// More than the limits take.
const ROOM: usize = 4096;

/// The most bytes that a file may have. A write past them would end the process. Where the system
/// tells no limit there is none.
pub fn size_limit<R: Files>(rt: &R) -> u64 {
    let mut limits = [0; ROOM];
    match read_start(rt, &mut limits) {
        Ok(length) => limit_in(limits.get(..length).unwrap_or(&[])).unwrap_or(u64::MAX),
        Err(_) => u64::MAX,
    }
}

// Reads the file of limits from its start, and answers how many bytes came.
fn read_start<R: Files>(rt: &R, limits: &mut [u8]) -> io::Result<usize> {
    let mut file = fs::open(rt, LIMITS)?;
    file.read(limits)
}

/// The limit that the text of all limits states.
pub fn limit_in(limits: &[u8]) -> Option<u64> {
    let limits = str::from_utf8(limits).ok()?;
    let line = limits.lines().find(|line| line.starts_with(NAME))?;
    let mut words = line.strip_prefix(NAME)?.split_whitespace();
    words.next()?.parse().ok()
}
