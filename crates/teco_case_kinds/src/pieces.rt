//! A reader that gives few bytes at a time.
use std::io;
use std::io::Read;

/// Gives bytes in memory, at most so many a read.
#[derive(Drop)]
pub struct PieceReader<'a> {
    pub bytes: &'a [u8],
    pub piece: usize,
}

impl Read for PieceReader<'_> {
    fn read(&mut self, buf: &mut [u8]) -> io::Result<usize> {
        let count = self.bytes.len().min(self.piece).min(buf.len());
        let (given, rest) = self.bytes.split_at(count);
        buf[..count].copy_from_slice(given);
        self.bytes = rest;
        Ok(count)
    }
}
