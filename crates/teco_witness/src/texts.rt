//! The small texts that macros are tried on.
use std::alloc::{AllocError, Global};

/// How many texts there are at most.
const MOST: usize = 400;

// Adds a text of some pieces, if it is not among them yet, and these are few.
fn push_text(alloc: Global, texts: &mut Vec<Vec<u8>>, pieces: &[&[u8]]) -> Result<(), AllocError> {
    if texts.len() >= MOST {
        return Ok(());
    }
    let mut text = Vec::new(alloc);
    for piece in pieces {
        text.extend_from_slice(piece)?;
    }
    if !texts.iter().any(|t| t.as_slice() == text.as_slice()) {
        texts.push(text)?;
    }
    Ok(())
}

// Adds texts with a piece in them: alone, and between others.
fn push_around(alloc: Global, texts: &mut Vec<Vec<u8>>, piece: &[u8]) -> Result<(), AllocError> {
    push_text(alloc, texts, &[b"a", piece])?;
    push_text(alloc, texts, &[piece, b"a"])?;
    push_text(alloc, texts, &[b"a", piece, b"b"])?;
    push_text(alloc, texts, &[b"a\n", piece, b"b\n"])?;
    push_text(alloc, texts, &[b"a\n", piece, b"\nb\n"])
}

// Adds texts of two pieces.
fn push_pair(
    alloc: Global,
    texts: &mut Vec<Vec<u8>>,
    first: &[u8],
    second: &[u8],
) -> Result<(), AllocError> {
    push_text(alloc, texts, &[first, second])?;
    push_text(alloc, texts, &[first, b"\n", second, b"\n"])
}

/// Small texts of these pieces, the shorter ones first.
pub fn texts_of(alloc: Global, pieces: &[Vec<u8>]) -> Result<Vec<Vec<u8>>, AllocError> {
    let mut texts = Vec::new(alloc);
    push_text(alloc, &mut texts, &[])?;
    for piece in pieces {
        push_text(alloc, &mut texts, &[piece.as_slice()])?;
        push_text(alloc, &mut texts, &[piece.as_slice(), b"\n"])?;
    }
    for piece in pieces {
        push_around(alloc, &mut texts, piece)?;
    }
    for first in pieces {
        for second in pieces {
            push_pair(alloc, &mut texts, first, second)?;
        }
    }
    Ok(texts)
}
