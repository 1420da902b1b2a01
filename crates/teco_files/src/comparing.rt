//! Files that are compared.
use crate::trouble::TroubleReason;
use std::alloc::Global;
use std::fs::Files;
use std::io::{BufRead, BufReader};
use std::{fs, io};

/// Have two files the same bytes? A file that isn't there has others.
pub fn is_same_file<R: Files>(
    rt: &R,
    alloc: Global,
    one: &str,
    other: &str,
) -> Result<bool, TroubleReason> {
    if !fs::exists(rt, other)? {
        return Ok(false);
    }
    let mut one = BufReader::new(alloc, fs::open(rt, one)?)?;
    let mut other = BufReader::new(alloc, fs::open(rt, other)?)?;
    Ok(have_same_bytes(&mut one, &mut other)?)
}

// Do two readers give the same bytes?
fn have_same_bytes<R: BufRead>(one: &mut R, other: &mut R) -> io::Result<bool> {
    for _ in 0..u64::MAX {
        let used = match same_front(one.fill_buf()?, other.fill_buf()?) {
            None => return Ok(false),
            Some(0) => return Ok(true),
            Some(used) => used,
        };
        one.consume(used);
        other.consume(used);
    }
    Ok(false)
}

// How many bytes at the front of two texts are the same, all of the shorter; none where they
// differ, or where one is at its end and the other is not.
fn same_front(one: &[u8], other: &[u8]) -> Option<usize> {
    let length = one.len().min(other.len());
    if one.is_empty() != other.is_empty() || one[..length] != other[..length] {
        return None;
    }
    Some(length)
}
