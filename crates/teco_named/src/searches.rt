//! Search texts that a macro takes.
use std::alloc::{AllocError, Global};
use teco_console::{Setting, filled};
use teco_parameters::ends_of;

// Has the front of a library this length where search texts stand in it?
fn has_length(
    alloc: Global,
    searches: &[Setting],
    front: &[u8],
    length: usize,
) -> Result<bool, AllocError> {
    Ok(filled(alloc, searches, front)?.len() == length)
}

// Do elements that end at these places end at the others where search texts stand in the library?
fn end_alike(
    alloc: Global,
    searches: &[Setting],
    library: &[u8],
    ends: (&[usize], &[usize]),
) -> Result<bool, AllocError> {
    let (ends, filled_ends) = ends;
    for (end, filled_end) in ends.iter().zip(filled_ends.iter()) {
        let front = library.get(..*end).unwrap_or(library);
        if !has_length(alloc, searches, front, *filled_end)? {
            return Ok(false);
        }
    }
    Ok(ends.len() == filled_ends.len())
}

/// Do search texts end where they are to end, wherever they stand in a library? One with ESC in it, or
/// with what else ends a text there, ends early, and its rest would be commands.
pub fn are_whole(alloc: Global, searches: &[Setting], library: &[u8]) -> Result<bool, AllocError> {
    let ends = ends_of(alloc, library)?;
    let filled_ends = ends_of(alloc, &filled(alloc, searches, library)?)?;
    end_alike(alloc, searches, library, (&ends, &filled_ends))
}
