//! Where macros lie that are called by name.
ghost use Rattle.std.specs.Prelude.{◌≡◌, ◌++◌, IfOk, OnOk, map, codes};
ghost use Rattle.std.specs.List.{list_all};
ghost use Rattle.teco_parameters.specs.Places.{is_name, is_of_names, file_in, folder_of, places};

use std::alloc::{AllocError, Global};
use teco_base::bytes::{is_letter, is_letter_or_digit};

// Are names of such bytes?
pub(crate) fn is_of_names(byte: u8) -> bool
    ensures { result ≡ is_of_names byte }
{
    is_letter_or_digit(byte) || byte == b'-' || byte == b'_'
}

// Are all bytes such?
fn are_of_names(word: &[u8]) -> bool
    ensures { result ≡ list_all is_of_names word.now }
{
    word.iter().all(|byte| is_of_names(*byte))
}

/// Is a word the name of a macro, and not that of a file?
pub fn is_name(word: &[u8]) -> bool
    ensures { result ≡ is_name word.now }
{
    match word {
        [first, rest @ ..] => is_letter(*first) && are_of_names(rest),
        [] => false,
    }
}

// The file of a name in a folder.
fn file_in(alloc: Global, name: &[u8], folder: &[u8]) -> Result<Vec<u8>, AllocError>
    ensures { IfOk result (λ path. path.items ≡ file_in name.now folder.now) }
{
    let mut path = Vec::new(alloc);
    path.extend_from_slice(folder)?;
    path.extend_from_slice(b"/")?;
    path.extend_from_slice(name)?;
    path.extend_from_slice(b".tes")?;
    Ok(path)
}

// One more place, if there is such a folder.
fn push_place(
    places: &mut Vec<Vec<u8>>,
    name: &[u8],
    folder: Option<&[u8]>,
) -> Result<(), AllocError>
    ensures { OnOk result (map (λ path. path.items) places.new.items
        ≡ map (λ path. path.items) places.old.items ++ map (file_in name.now) (folder_of folder.entry)) }
{
    if let Some(folder) = folder {
        let path = file_in(*places.allocator(), name, folder)?;
        places.push(path)?;
    }
    Ok(())
}

/// The files that a name may stand for, in the order in which they are tried: in the folder in which
/// the program runs, in the user's own, and in the one that is installed with the program.
pub fn places(
    alloc: Global,
    name: &[u8],
    own: Option<&[u8]>,
    installed: Option<&[u8]>,
) -> Result<Vec<Vec<u8>>, AllocError>
    ensures { IfOk result (λ found. map (λ path. path.items) found.items
        ≡ places name.now own.entry installed.entry) }
{
    let mut found = Vec::new(alloc);
    push_place(&mut found, name, Some(b"."))?;
    push_place(&mut found, name, own)?;
    push_place(&mut found, name, installed)?;
    Ok(found)
}
