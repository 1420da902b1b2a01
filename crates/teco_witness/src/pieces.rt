//! The pieces that small texts are made of.
use crate::sought::Sought;
use std::alloc::{AllocError, Global};

/// Numbers that a text may have in it.
const NUMBERS: &[&[u8]] = &[b"1", b"-1", b"12", b"2147483647"];

// Adds a copy of a piece that is not among them yet, unless it is empty.
fn push_piece(alloc: Global, pieces: &mut Vec<Vec<u8>>, piece: &[u8]) -> Result<(), AllocError> {
    if piece.is_empty() || pieces.iter().any(|p| p.as_slice() == piece) {
        return Ok(());
    }
    let copy = piece.to_vec(alloc)?;
    pieces.push(copy)?;
    Ok(())
}

// Adds what nearly is a text: all but its last character, and all but its first.
fn push_near(alloc: Global, pieces: &mut Vec<Vec<u8>>, text: &[u8]) -> Result<(), AllocError> {
    if let Some((_, rest)) = text.split_last() {
        push_piece(alloc, pieces, rest)?;
    }
    if let Some((_, rest)) = text.split_first() {
        push_piece(alloc, pieces, rest)?;
    }
    Ok(())
}

/// The pieces that small texts are made of: characters, what is looked for, numbers, and what nearly is
/// looked for.
pub fn pieces_of(alloc: Global, sought: &Sought) -> Result<Vec<Vec<u8>>, AllocError> {
    let mut pieces = Vec::new(alloc);
    for character in &sought.characters {
        push_piece(alloc, &mut pieces, &[*character])?;
    }
    for text in &sought.texts {
        push_piece(alloc, &mut pieces, text)?;
    }
    if sought.has_numbers {
        for number in NUMBERS {
            push_piece(alloc, &mut pieces, number)?;
        }
    }
    for text in &sought.texts {
        push_near(alloc, &mut pieces, text)?;
    }
    Ok(pieces)
}
