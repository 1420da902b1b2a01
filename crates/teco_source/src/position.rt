//! Positions in files.
ghost use Rattle.std.specs.Prelude.{◌≡◌, ◌≤◌, ◌<◌, length, IfSome, None};
ghost use Rattle.teco_source.specs.Places as places;

use std::marker::Model;
use teco_base::bytes::LF;

/// Where a place of a file is for its reader: its line, and the byte of that line, both from 1 on.
#[derive(Clone, Copy, PartialEq, Eq)]
pub struct LineAndByte {
    pub line: usize,
    pub column: usize,
}

impl Model for LineAndByte {
    ghost use Rattle.teco_source.specs.Places as places;

    ghost Value = { places.Position };

    ghost view = { λ p. record { line = p.line; column = p.column } };

    ghost inverse = { λ p. record { line = p.line; column = p.column } };
}

impl LineAndByte {
    /// The position of an offset in a file, or of its end where it is shorter. One scan up to
    /// there.
    pub fn of(file: &[u8], place: usize) -> LineAndByte
        ensures { result ≡ places.position_of file.now place }
    {
        let mut position = LineAndByte { line: 1, column: 1 };
        let front = &file[..place.min(file.len())];
        for i in 0..front.len() {
            if front[i] == LF {
                position.line += 1;
                position.column = 1;
            } else {
                position.column += 1;
            }
        }
        position
    }
}
