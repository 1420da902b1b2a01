//! Line places.
ghost use Rattle.std.specs.Prelude.{◌≡◌, ℕ, ◌+◌, ◌-◌, ◌<◌, ◌≤◌, ◌^◌, ◌++◌, length, reverse, take, drop, IfOk};
ghost use Rattle.teco_base.specs.Lines as lines;
ghost use Rattle.teco_base.specs.declared.TheConstants.{LIMIT};
ghost use Rattle.teco_base.specs.Lines.{line_places_from};
ghost use Rattle.teco_text.specs.Counted.{Counted};

use crate::parts::{pieces_after, pieces_before};
use crate::store::TextStore;
use memchr::{memchr3_iter, memrchr3_iter};
use teco_base::bytes::{FF, LF, VT};

/// The line place of `n`: for `n` at least 1 the place after the `n`th line end at or after the
/// pointer, or the text's length where there are fewer; for `n` at most 0 the place after the `1 -
/// n`th line end before the pointer, counted backwards, or 0.
///
/// Takes no memory, and time by the characters that are passed.
pub fn line_place<T: TextStore>(store: &T, n: i64) -> usize
    ensures value { result ≡ lines.line_place (T.list store.now) (T.pointer store.now) n }
    ensures within_text { result ≤ length (T.list store.now) }
    ensures within_limit { result ≤ LIMIT }
{
    let len = store.len();
    let dot = store.dot();
    let (front, back) = store.slices();
    if n > 0 {
        let (first, second) = pieces_after(front, back, dot);
        place_ahead(first, second, dot, n.unsigned_abs()).unwrap_or(len)
    } else {
        let (first, second) = pieces_before(front, back, dot);
        place_back(first, second, n.unsigned_abs() + 1).unwrap_or(0)
    }
}

// The place after the `count`th line end of two pieces, the first of which begins at a place; or
// how many are missing.
fn place_ahead(first: &[u8], second: &[u8], at: usize, count: u64) -> Result<usize, u64>
    requires some { 0 < count }
    requires fits { at + length (first.now ++ second.now) < 2 ^ 63 }
    ensures counted { Counted (line_places_from at (first.now ++ second.now)) count result }
    ensures within { IfOk result (λ place. place ≤ at + length (first.now ++ second.now)) }
{
    match nth_place(first, at, count) {
        Ok(place) => Ok(place),
        Err(left) => nth_place(second, at + first.len(), left),
    }
}

// The place after the `count`th line end from the end of two pieces, which are a whole front of a
// text.
fn place_back(first: &[u8], second: &[u8], count: u64) -> Result<usize, u64>
    requires some { 0 < count }
    requires fits { length (first.now ++ second.now) < 2 ^ 63 }
    ensures counted { Counted (reverse (line_places_from 0 (first.now ++ second.now)))
        count result }
    ensures within { IfOk result (λ place. place ≤ length (first.now ++ second.now)) }
{
    match nth_place_from_end(second, first.len(), count) {
        Ok(place) => Ok(place),
        Err(left) => nth_place_from_end(first, 0, left),
    }
}

// The place after the `count`th line end of a piece that begins at a place; or how many are
// missing.
fn nth_place(piece: &[u8], at: usize, count: u64) -> Result<usize, u64>
    requires some { 0 < count }
    requires fits { at + length piece.now < 2 ^ 63 }
    ensures counted { Counted (line_places_from at piece.now) count result }
    ensures within { IfOk result (λ place. place ≤ at + length piece.now) }
{
    let mut left = count;
    for i in memchr3_iter(LF, VT, FF, piece) {
        left -= 1;
        if left == 0 {
            return Ok(at + i + 1);
        }
    }
    Err(left)
}

// The place of a line end as counted from the piece's end.
fn nth_place_from_end(piece: &[u8], at: usize, count: u64) -> Result<usize, u64>
    requires some { 0 < count }
    requires fits { at + length piece.now < 2 ^ 63 }
    ensures counted { Counted (reverse (line_places_from at piece.now)) count result }
    ensures within { IfOk result (λ place. place ≤ at + length piece.now) }
{
    let mut left = count;
    for i in memrchr3_iter(LF, VT, FF, piece) {
        left -= 1;
        if left == 0 {
            return Ok(at + i + 1);
        }
    }
    Err(left)
}
